// Moves on a position: orders as played, decided, and what they leave.
ghost use Rattle.std.specs.Prelude.{◌≡◌, true, IfOk, OnOk};
ghost use Rattle.game.specs.Lawful.{lawful};
ghost use Rattle.game.specs.Texts.{ordered};
ghost use Rattle.position.specs.Position.{board_of, game_of};
ghost use Rattle.deciding_laws.specs.Promises.{DecidingPromises};
ghost use Rattle.adjudicator.specs.Moved.{MovedBy, SameOutcome};
ghost use Rattle.adjudicator.specs.Settled.{left};

use aftermath::{Arrivals, contested};
use board::Unit;
use deciding::{Report, adjudicate};
use game::Dislodged;
use geography::RegionSet;
use position::Position;
use std::alloc::{AllocError, Global};
use texts::{Texts, fresh};

#[derive(Drop)]
pub struct Moved {
    pub units: Vec<Unit>,
    pub dislodged: Vec<Dislodged>,
    pub barred: RegionSet,
    pub reports: Vec<Report>,
}

pub fn play_moves(heap: Global, p: &Position, texts: &Texts) -> Result<Moved, AllocError>
    ensures moved { IfOk result (MovedBy (board_of p.now) (ordered (game_of p.now).units texts.now.list.items)) }
    ensures promised { OnOk result (DecidingPromises (board_of p.now) (ordered (game_of p.now).units texts.now.list.items)) }
    ensures any_order { OnOk result (SameOutcome (board_of p.now) (ordered (game_of p.now).units texts.now.list.items)) }
{
    let fresh = fresh(heap, &p.atlas, texts, p.units.as_slice())?;
    let done = adjudicate(heap, &p.atlas, fresh)?;
    let reports = done.reports;
    let arrivals = Arrivals::of(heap, done.outcome.as_slice())?;
    let units = arrivals.standing(heap)?;
    let dislodged = arrivals.displaced(heap)?;
    let barred = contested(&p.atlas, done.outcome.as_slice(), done.paths.as_slice());
    Ok(Moved {
        units,
        dislodged,
        barred,
        reports,
    })
}

// What moves leave on the position, and the next phase.
pub(super) fn leave(
    p: &mut Position,
    units: Vec<Unit>,
    dislodged: Vec<Dislodged>,
    barred: RegionSet,
)
    requires { lawful (board_of p.old) (left p.old units.items dislodged.items barred) ≡ true }
    ensures board { board_of p.new ≡ board_of p.old }
    ensures game { game_of p.new ≡ left p.old units.items dislodged.items barred }
{
    p.units = units;
    p.dislodged = dislodged;
    p.barred = barred;
    p.phase = p.phase.next();
}
