// The words of a beginning, from a board's and a game's file.
ghost use Rattle.std.specs.Prelude.{◌≡◌, ℕ, ◌+◌, ◌<◌, ◌≤◌, Bool, true, false, cond, List, [], ◌∷◌, ◌++◌, IfOk, OnOk};
ghost use Rattle.text.specs.Refusal.{Answers};
ghost use Rattle.text.specs.BoardFile.{board_entries};
ghost use Rattle.text.specs.GameFile.{game_entries};
ghost use Rattle.text.specs.Files.{count_words, board_words, game_words, begin_words, words_in};

use super::board_file::BoardFile;
use super::game_file::GameFile;
use super::refusal::{Fault, Refusal};
use super::words::word;
use std::alloc::{AllocError, Global};

fn count_words(heap: Global, board: &BoardFile, game: &GameFile) -> Result<Vec<u32>, AllocError>
    ensures { IfOk result (λ words. words_in words ≡ count_words (board_entries board.now) (game_entries game.now)) }
{
    let regions = word(board.names.count())?;
    let march = word(board.march.len() / 2)?;
    let sail = word(board.sail.len() / 2)?;
    let units = word(game.units.len() / 3)?;
    let words = vec![in heap; regions, march, sail, units]?;
    Ok(words)
}

fn push_board(words: &mut Vec<u32>, board: &BoardFile) -> Result<(), AllocError>
    ensures { OnOk result (words_in words.new ≡ words_in words.old ++ board_words (board_entries board.now)) }
{
    words.extend_from_slice(board.regions.as_slice())?;
    words.extend_from_slice(board.march.as_slice())?;
    words.extend_from_slice(board.sail.as_slice())?;
    Ok(())
}

fn push_game(words: &mut Vec<u32>, phase: u32, game: &GameFile) -> Result<(), AllocError>
    ensures { OnOk result (words_in words.new ≡ words_in words.old ++ game_words phase (game_entries game.now)) }
{
    let outs = word(game.outs.len() / 4)?;
    let barred = word(game.barred.len())?;
    words.extend_from_slice(game.units.as_slice())?;
    words.extend_from_slice(game.owners.as_slice())?;
    words.extend_from_slice(&[phase, outs])?;
    words.extend_from_slice(game.outs.as_slice())?;
    words.extend_from_slice(&[barred])?;
    words.extend_from_slice(game.barred.as_slice())?;
    Ok(())
}

// A game without a phase line is refused, whatever else its words would say.
pub fn begin_words(heap: Global, board: &BoardFile, game: &GameFile) -> Result<Vec<u32>, Fault>
    ensures { Answers words_in (begin_words (board_entries board.now) (game_entries game.now)) result }
{
    let Some(phase) = game.phase else {
        return Err(Fault::At(Refusal::misfit()));
    };
    let mut words = count_words(heap, board, game)?;
    push_board(&mut words, board)?;
    push_game(&mut words, phase, game)?;
    Ok(words)
}
