// The referee: a board, a game and what was told of the last phase of moves, changed by calls of words only.
ghost use Rattle.std.specs.Prelude.{◌≡◌, List, is_ok, IfOk, if◌then◌else◌};
ghost use Rattle.board.specs.Board.{Board};
ghost use Rattle.deciding.specs.declared.report.Report.{Report};
ghost use Rattle.game.specs.Game.{Game};
ghost use Rattle.position.specs.Position.{board_of, game_of};
ghost use Rattle.calls.specs.Begin.{begin_verdict, begin_board, begin_game};
ghost use Rattle.calls.specs.Turn.{turn_verdict, turn_game, turn_last};

use super::begin::begin_from;
use super::fault::Fault;
use super::verdict::Verdict;
use position::Position;
use std::alloc::{AllocError, Global};

// Where memory is wanting, nothing changes.
pub trait Referee {
    ghost board: { Self → Board };

    ghost game: { Self → Game };

    ghost last: { Self → List Report };

    fn begin(&mut self, words: &[u32]) -> Result<Verdict, AllocError>
        ensures verdict { IfOk result (λ v. v ≡ begin_verdict words.now) }
        ensures board { board self.new ≡ (if is_ok result then begin_board (board self.old) words.now else board self.old) }
        ensures game { game self.new ≡ (if is_ok result then begin_game (game self.old) words.now else game self.old) }
        ensures last { last self.new ≡ last self.old };

    fn turn(&mut self, words: &[u32]) -> Result<Verdict, AllocError>
        ensures verdict { IfOk result (λ v. v ≡ turn_verdict (board self.old) words.now) }
        ensures board { board self.new ≡ board self.old }
        ensures game { game self.new ≡ (if is_ok result then turn_game (board self.old) (game self.old) words.now else game self.old) }
        ensures last { last self.new ≡ (if is_ok result then turn_last (board self.old) (game self.old) words.now (last self.old) else last self.old) };
}

// A beginning in the place of what was, if it is accepted.
pub fn begin_anew(
    heap: Global,
    position: &mut Position,
    words: &[u32],
) -> Result<Verdict, AllocError>
    ensures verdict { IfOk result (λ v. v ≡ begin_verdict words.now) }
    ensures board { board_of position.new ≡ (if is_ok result then begin_board (board_of position.old) words.now else board_of position.old) }
    ensures game { game_of position.new ≡ (if is_ok result then begin_game (game_of position.old) words.now else game_of position.old) }
{
    match begin_from(heap, words) {
        Ok(new) => {
            *position = new;
            Ok(Verdict::Accepted)
        }
        Err(Fault::Refused(refusal)) => Ok(refusal.into()),
        Err(Fault::NoMemory) => Err(AllocError {}),
    }
}
