// One phase, with all that was written for it. Everything that may want memory comes first; then the position changes.
ghost use Rattle.std.specs.Prelude.{◌≡◌, true, is_ok, IfOk, if◌then◌else◌};
ghost use Rattle.deciding.specs.Outcome.{reports};
ghost use Rattle.game.specs.Game.{is_moves};
ghost use Rattle.game.specs.Lawful.{lawful};
ghost use Rattle.game.specs.Texts.{ordered};
ghost use Rattle.game.specs.Turn.{turn};
ghost use Rattle.position.specs.Position.{board_of, game_of};
ghost use Rattle.adjudicator.specs.Settled.{settled, owned};
ghost use Rattle.adjudicator.specs.Told.{told_in, told};

use super::moves::{leave, play_moves};
use super::rest::{retreat, winter};
use aftermath::new_owners;
use board::Unit;
use deciding::Report;
use game::Phase;
use geography::RegionSet;
use position::Position;
use std::alloc::{AllocError, Global};
use texts::Texts;

fn moves(heap: Global, p: &mut Position, texts: &Texts) -> Result<Vec<Report>, AllocError>
    requires { is_moves p.old.phase ≡ true }
    ensures board { board_of p.new ≡ board_of p.old }
    ensures game { game_of p.new ≡ (if is_ok result then turn (board_of p.old) (game_of p.old) texts.now.list.items else game_of p.old) }
    ensures reports { IfOk result (λ v. v.items ≡ reports (board_of p.old) (ordered (game_of p.old).units texts.now.list.items)) }
{
    let moved = play_moves(heap, p, texts)?;
    leave(p, moved.units, moved.dislodged, moved.barred);
    Ok(moved.reports)
}

// The next phase, with nobody waiting and nothing barred, and with new owners where there are any.
fn settle(p: &mut Position, units: Vec<Unit>, owners: Option<Vec<Option<u8>>>)
    requires { lawful (board_of p.old) (settled p.old units.items (owned owners p.old.owners.items)) ≡ true }
    ensures board { board_of p.new ≡ board_of p.old }
    ensures game { game_of p.new ≡ settled p.old units.items (owned owners p.old.owners.items) }
{
    p.units = units;
    if let Some(owners) = owners {
        p.owners = owners;
    }
    p.dislodged.clear();
    p.barred = RegionSet::EMPTY;
    p.phase = p.phase.next();
}

// The next game, and after moves what is told of them; without memory nothing changes. The position is lent here to be changed,
// and in the functions below to be read, so that it makes no struct with the texts.
pub fn advance(
    heap: Global,
    p: &mut Position,
    texts: &Texts,
) -> Result<Option<Vec<Report>>, AllocError>
    ensures board { board_of p.new ≡ board_of p.old }
    ensures game { game_of p.new ≡ (if is_ok result then turn (board_of p.old) (game_of p.old) texts.now.list.items else game_of p.old) }
    ensures told { IfOk result (λ o. told o ≡ told_in (board_of p.old) (game_of p.old) texts.now.list.items) }
{
    match p.phase {
        Phase::SpringMoves | Phase::AutumnMoves => Ok(Some(moves(heap, p, texts)?)),
        Phase::SpringRetreats => {
            let units = retreat(heap, p, texts)?;
            settle(p, units, None);
            Ok(None)
        }
        Phase::AutumnRetreats => {
            let units = retreat(heap, p, texts)?;
            let owners = new_owners(heap, &p.atlas, units.as_slice(), p.owners.as_slice())?;
            settle(p, units, Some(owners));
            Ok(None)
        }
        Phase::Winter => {
            let units = winter(heap, p, texts)?;
            settle(p, units, None);
            Ok(None)
        }
    }
}
