// A board and a game from words.
ghost use Rattle.std.specs.Prelude.{◌≡◌};
ghost use Rattle.position.specs.Position.{board_of, game_of};
ghost use Rattle.calls.specs.Read.{Answered};
ghost use Rattle.calls.specs.Begin.{begin_verdict, board_in, game_in};

use super::board_words::read_board;
use super::fault::Fault;
use super::game_words::read_game;
use super::sections::cut;
use super::verdict::Refusal;
use position::Position;
use std::alloc::Global;

// The position that the words stand for, or the verdict on them.
pub fn begin_from(heap: Global, words: &[u32]) -> Result<Position, Fault>
    ensures { Answered (begin_verdict words.now) (λ p. (board_of p ≡ board_in words.now) × (game_of p ≡ game_in words.now)) result }
{
    let sections = cut(words).ok_or(Refusal::Misfit)?;
    let atlas = read_board(heap, &sections)?;
    read_game(heap, atlas, &sections)
}
