// Retreats: where each dislodged unit goes, and who of them arrives.
ghost use Rattle.std.specs.Prelude.{◌≡◌, ℕ, true, ◌||◌, List, ◌++◌, map, length, IfOk, vec_len, Option, OnOk};
ghost use Rattle.std.specs.Option.{option_to_list};
ghost use Rattle.values.specs.Fold.{all};
ghost use Rattle.geography.specs.RegionSet.{has};
ghost use Rattle.board.specs.Board.{stands};
ghost use Rattle.board.specs.Atlas.{board_of};
ghost use Rattle.game.specs.Game.{Game};
ghost use Rattle.game.specs.Lawful.{units_in};
ghost use Rattle.game.specs.Retreats.{occupied, retreat_of, units_after_retreats};
ghost use Rattle.retreats.specs.Retreating.{Retreating, Counted, landing, landings};

use super::pending::Pending;
use board::{Atlas, Unit};
use game::Dislodged;
use geography::RegionSet;
use std::alloc::{AllocError, Global};
use texts::Texts;

// `start`, and the regions of all units.
pub fn with_units(atlas: &Atlas, units: &[Unit], start: RegionSet) -> RegionSet
    requires { all (stands (board_of atlas.now)) units.now ≡ true }
    ensures { (r : ℕ) → has result r ≡ (occupied r units.now || has start r) }
{
    let mut taken = start;
    for u in units {
        taken.insert(u.region);
    }
    taken
}

// Where each of those dislodged retreats to, if it does. It takes the parts of a position, whose invariant says what is asked of
// them: a type of their own would be made of them here and be taken apart in the next line. Goals stand apart from those dislodged,
// since the definition makes a list of them.
pub fn retreat_goals(
    heap: Global,
    atlas: &Atlas,
    texts: &Texts,
    units: &[Unit],
    dislodged: &[Dislodged],
    barred: RegionSet,
) -> Result<Vec<Option<u8>>, AllocError>
    requires stand { all (stands (board_of atlas.now)) units.now ≡ true }
    requires out_stand { all (stands (board_of atlas.now)) (units_in dislodged.now) ≡ true }
    ensures { IfOk result (λ v. (vec_len v ≡ length dislodged.now) × ((g : Game) → Retreating g units.now dislodged.now barred → v.items ≡ map (retreat_of (board_of atlas.now) g texts.now.list.items) g.dislodged)) }
{
    let pending = Pending {
        atlas,
        texts,
        dislodged,
        closed: with_units(atlas, units, barred),
    };
    pending.goals(heap)
}

// For each region how many retreat to it.
pub fn goal_counts(goals: &[Option<u8>]) -> [usize; 256]
    ensures { Counted result goals.now }
{
    let mut counts = [0usize; 256];
    for goal in goals {
        if let Some(to) = *goal {
            counts[to as usize] += 1;
        }
    }
    counts
}

// Two whose retreats go to one region are both gone.
fn landing(counts: &[usize; 256], u: Unit, goal: Option<u8>) -> Option<Unit>
    ensures { (goals : List (Option ℕ)) → Counted counts.now goals → option_to_list result ≡ landing goals u goal }
{
    let region = goal?;
    let alone = counts[region as usize] == 1;
    alone.then_some(Unit { region, ..u })
}

// Those who arrive, in the order of those dislodged.
fn land(
    out: &mut Vec<Unit>,
    counts: &[usize; 256],
    dislodged: &[Dislodged],
    goals: &[Option<u8>],
) -> Result<(), AllocError>
    requires counted { Counted counts.now goals.now }
    ensures { OnOk result (out.new.items ≡ out.old.items ++ landings goals.now dislodged.now goals.now) }
{
    let arrivals = dislodged
        .iter()
        .zip(goals)
        .filter_map(|(d, goal)| landing(counts, d.unit, *goal));
    out.extend(arrivals)?;
    Ok(())
}

// The units that stand, and behind them those that retreated.
pub fn units_after_retreats(
    heap: Global,
    atlas: &Atlas,
    texts: &Texts,
    units: &[Unit],
    dislodged: &[Dislodged],
    barred: RegionSet,
) -> Result<Vec<Unit>, AllocError>
    requires stand { all (stands (board_of atlas.now)) units.now ≡ true }
    requires out_stand { all (stands (board_of atlas.now)) (units_in dislodged.now) ≡ true }
    ensures { IfOk result (λ v. ((g : Game) → Retreating g units.now dislodged.now barred → v.items ≡ units_after_retreats (board_of atlas.now) g texts.now.list.items)) }
{
    let goals = retreat_goals(heap, atlas, texts, units, dislodged, barred)?;
    let counts = goal_counts(goals.as_slice());
    let mut out = Vec::from_slice(heap, units)?;
    land(&mut out, &counts, dislodged, goals.as_slice())?;
    Ok(out)
}
