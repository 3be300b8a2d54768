// What is told of retreats: a line for each unit that was dislodged.
ghost use Rattle.std.specs.Prelude.{◌≡◌, ℕ, Bool, List, [], ◌++◌, map, length, if◌then◌else◌, codes, Option, IfOk, OnOk};
ghost use Rattle.std.specs.List.{zip};
ghost use Rattle.board.specs.Board.{Board};
ghost use Rattle.game.specs.declared.text.Written.{Written};
ghost use Rattle.game.specs.Game.{Game};
ghost use Rattle.game.specs.Retreats.{retreat_of};
ghost use Rattle.retreats.specs.Retreating.{Counted, goals_in};
ghost use Rattle.show.specs.Reports.{alone, retreat_words, goal_line, retreat_lines};
ghost use Rattle.show.specs.Tables.{leaving, leaving_line};

use super::leaving::Leaving;
use super::printer::{Named, Printer};
use super::words::{push, push_letter, push_word};
use board::Unit;
use game::Dislodged;
use retreats::goal_counts;
use std::alloc::{AllocError, Global};
use tables::by_region;

fn fate(arrives: bool) -> &'static [u8]
    ensures { result.now ≡ (if arrives then codes "yes" else codes "gone") }
{
    if arrives { b"yes" } else { b"gone" }
}

// Whether nobody else goes there.
fn alone(counts: &[usize; 256], goal: Option<u8>) -> bool
    ensures { (goals : List (Option ℕ)) → Counted counts.now goals → result ≡ alone (λ t. goals_in t goals) goal }
{
    goal.is_some_and(|t| counts[t as usize] == 1)
}

fn leaving(
    heap: Global,
    dislodged: &[Dislodged],
    goals: &[Option<u8>],
) -> Result<Vec<Leaving>, AllocError>
    ensures { IfOk result (λ v. v.items ≡ map leaving (zip dislodged.now goals.now)) }
{
    dislodged
        .iter()
        .zip(goals)
        .map(|(d, goal)| Leaving {
            unit: d.unit,
            goal: *goal,
        })
        .collect(heap)
}

impl<'a, N: Named> Printer<'a, N> {
    fn push_goal(
        &self,
        out: &mut Vec<u8>,
        arrives: bool,
        goal: Option<u8>,
    ) -> Result<(), AllocError>
        ensures { OnOk result (out.new.items ≡ out.old.items ++ retreat_words (N.named self.now.names.now) arrives goal) }
    {
        let Some(t) = goal else {
            return push(out, b"hold gone");
        };
        push_word(out, b"move")?;
        push_word(out, self.names.name(t))?;
        push(out, fate(arrives))
    }

    fn push_retreat(
        &self,
        out: &mut Vec<u8>,
        arrives: bool,
        u: Unit,
        goal: Option<u8>,
    ) -> Result<(), AllocError>
        ensures { OnOk result (out.new.items ≡ out.old.items ++ goal_line (N.named self.now.names.now) arrives u goal) }
    {
        push_letter(out, u.power)?;
        push_word(out, self.names.name(u.region))?;
        self.push_goal(out, arrives, goal)?;
        push(out, b"\n")
    }

    fn push_leaving(
        &self,
        out: &mut Vec<u8>,
        counts: &[usize; 256],
        x: Option<Leaving>,
    ) -> Result<(), AllocError>
        ensures { OnOk result ((goals : List (Option ℕ)) → Counted counts.now goals → out.new.items ≡ out.old.items ++ leaving_line (N.named self.now.names.now) (λ t. goals_in t goals) x) }
    {
        match x {
            None => Ok(()),
            Some(x) => self.push_retreat(out, alone(counts, x.goal), x.unit, x.goal),
        }
    }

    // Those dislodged, each of whom retreats to its goal. Goals stand apart, since what is promised of retreats is a list of them.
    pub fn push_retreats(
        &self,
        out: &mut Vec<u8>,
        dislodged: &[Dislodged],
        goals: &[Option<u8>],
    ) -> Result<(), AllocError>
        requires { length goals.now ≡ length dislodged.now }
        ensures { OnOk result ((m : Board) (g : Game) (ws : List Written) → length m.regions ≡ self.now.regions → g.dislodged ≡ dislodged.now → goals.now ≡ map (retreat_of m g ws) g.dislodged → out.new.items ≡ out.old.items ++ retreat_lines (N.named self.now.names.now) m g ws) }
    {
        let heap = *out.allocator();
        let all = leaving(heap, dislodged, goals)?;
        let table = by_region(heap, all.as_slice())?;
        let table = table.as_slice();
        let counts = goal_counts(goals);
        self.push_each(
            out,
            |out, r| self.push_leaving(out, &counts, table[r as usize]),
        )
    }
}
