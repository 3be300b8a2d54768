// The two calls as the programs make them, with all that is promised of what stands afterwards.
ghost use Rattle.std.specs.Prelude.{◌≡◌, [], is_ok, IfOk, if◌then◌else◌};
ghost use Rattle.position.specs.Position.{board_of, game_of};
ghost use Rattle.calls.specs.Begin.{begin_verdict, begin_board, begin_game};
ghost use Rattle.calls.specs.Turn.{turn_verdict, turn_game, turn_last, texts_in};
ghost use Rattle.promise.specs.Calls.{start};
ghost use Rattle.promise.specs.Promise.{TurnPromise, GamePromise};

use super::referee::Adjudicator;
use calls::{Referee, Verdict};
use position::Position;
use std::alloc::{AllocError, Global};

impl Adjudicator {
    // The empty board, an empty game in spring, and nothing told.
    pub fn new(heap: Global) -> Result<Adjudicator, AllocError>
        ensures board { IfOk result (λ s. board_of s.position ≡ start.board) }
        ensures game { IfOk result (λ s. game_of s.position ≡ start.game) }
        ensures last { IfOk result (λ s. s.last.items ≡ []) }
        ensures stands { IfOk result (λ s. GamePromise (board_of s.position) (game_of s.position)) }
    {
        let position = Position::empty(heap)?;
        Ok(Adjudicator {
            heap,
            position,
            last: Vec::new(heap),
        })
    }
}

// A board and a game that begin; what is refused changes nothing.
pub fn begin(referee: &mut Adjudicator, words: &[u32]) -> Result<Verdict, AllocError>
    ensures verdict { IfOk result (λ v. v ≡ begin_verdict words.now) }
    ensures board { board_of referee.new.position ≡ (if is_ok result then begin_board (board_of referee.old.position) words.now else board_of referee.old.position) }
    ensures game { game_of referee.new.position ≡ (if is_ok result then begin_game (game_of referee.old.position) words.now else game_of referee.old.position) }
    ensures last { referee.new.last.items ≡ referee.old.last.items }
    ensures stands { GamePromise (board_of referee.new.position) (game_of referee.new.position) }
{
    referee.begin(words)
}

// One phase with all that was written for it; what is refused changes nothing.
pub fn turn(referee: &mut Adjudicator, words: &[u32]) -> Result<Verdict, AllocError>
    ensures verdict { IfOk result (λ v. v ≡ turn_verdict (board_of referee.old.position) words.now) }
    ensures board { board_of referee.new.position ≡ board_of referee.old.position }
    ensures game { game_of referee.new.position ≡ (if is_ok result then turn_game (board_of referee.old.position) (game_of referee.old.position) words.now else game_of referee.old.position) }
    ensures last { referee.new.last.items ≡ (if is_ok result then turn_last (board_of referee.old.position) (game_of referee.old.position) words.now referee.old.last.items else referee.old.last.items) }
    ensures promise { TurnPromise (board_of referee.old.position) (game_of referee.old.position) (texts_in words.now) }
    ensures stands { GamePromise (board_of referee.new.position) (game_of referee.new.position) }
{
    referee.turn(words)
}
