// The board's and the game's file read, and the game that they begin.
ghost use Rattle.std.specs.Prelude.{◌≡◌, ℕ, List};
ghost use Rattle.calls.specs.Begin.{begin_verdict};
ghost use Rattle.text.specs.Refusal.{Answers};
ghost use Rattle.session.specs.Session.{judged, opened};
ghost use Rattle.session.specs.Tables.{opening_of, opening_at};

use super::reasons::whole;
use super::start::{Gazetteer, Playing};
use calls::{Fault as Unfit, begin_from};
use position::Position;
use std::alloc::Global;
use text::{Fault, begin_words, read_board, read_game};

fn begin(heap: Global, words: &[u32]) -> Result<Position, Fault>
    ensures { (names : List (List ℕ)) → Answers (opening_at names) (judged names words.now (begin_verdict words.now)) result }
{
    match begin_from(heap, words) {
        Ok(position) => Ok(position),
        Err(Unfit::Refused(refused)) => Err(Fault::At(whole(refused))),
        Err(Unfit::NoMemory) => Err(Fault::NoMemory),
    }
}

pub fn open<'a>(heap: Global, board: &'a [u8], game: &[u8]) -> Result<Playing<'a>, Fault>
    ensures { Answers opening_of (opened board.now game.now) result }
{
    let board = read_board(heap, board)?;
    let game = read_game(heap, &board.names, game)?;
    let words = begin_words(heap, &board, &game)?;
    let position = begin(heap, words.as_slice())?;
    Ok(Playing {
        places: Gazetteer { names: board.names },
        position,
    })
}
