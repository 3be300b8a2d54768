// The answers to calls in lines.
ghost use Rattle.std.specs.Prelude.{◌≡◌, List, ◌++◌, IfOk, string_bytes, OnOk};
ghost use Rattle.lines.specs.Split.{lines_of};
ghost use Rattle.answers.specs.Answers.{stood_by, after_begin, after_turn, begin_bytes, turn_bytes, after, answer_bytes, all_bytes, game_line, last_line};

use super::games::game_words;
use super::reports::last_words;
use adjudicator::{Adjudicator, begin, turn};
use lines::{Key, Lines, push_line, read_call};
use std::alloc::{AllocError, Global};

fn push_game(out: &mut String, referee: &Adjudicator) -> Result<(), AllocError>
    ensures { OnOk result (string_bytes out.new ≡ string_bytes out.old ++ game_line (stood_by referee.now)) }
{
    let words = game_words(*out.allocator(), &referee.position)?;
    push_line(out, "game", words.as_slice())
}

fn push_last(out: &mut String, referee: &Adjudicator) -> Result<(), AllocError>
    ensures { OnOk result (string_bytes out.new ≡ string_bytes out.old ++ last_line (stood_by referee.now)) }
{
    let n = referee.position.atlas.regions.len();
    let words = last_words(*out.allocator(), n, referee.last.as_slice())?;
    push_line(out, "last", words.as_slice())
}

fn answer_begin(
    out: &mut String,
    referee: &mut Adjudicator,
    words: &[u32],
) -> Result<(), AllocError>
    ensures { OnOk result ((string_bytes out.new ≡ string_bytes out.old ++ begin_bytes (stood_by referee.old) words.now) × (stood_by referee.new ≡ after_begin (stood_by referee.old) words.now)) }
{
    let verdict = begin(referee, words)?;
    push_line(out, "begin", &[verdict.number() as usize])?;
    if verdict.is_accepted() {
        push_game(out, referee)?;
    }
    Ok(())
}

fn answer_turn(out: &mut String, referee: &mut Adjudicator, words: &[u32]) -> Result<(), AllocError>
    ensures { OnOk result ((string_bytes out.new ≡ string_bytes out.old ++ turn_bytes (stood_by referee.old) words.now) × (stood_by referee.new ≡ after_turn (stood_by referee.old) words.now)) }
{
    let moves = referee.position.phase.is_moves();
    let verdict = turn(referee, words)?;
    push_line(out, "turn", &[verdict.number() as usize])?;
    if !verdict.is_accepted() {
        return Ok(());
    }
    if moves {
        push_last(out, referee)?;
    }
    push_game(out, referee)
}

// The answer to one line, behind those before it.
pub fn answer(out: &mut String, referee: &mut Adjudicator, line: &[u8]) -> Result<(), AllocError>
    ensures { OnOk result ((string_bytes out.new ≡ string_bytes out.old ++ answer_bytes (stood_by referee.old) line.now) × (stood_by referee.new ≡ after (stood_by referee.old) line.now)) }
{
    let Some(call) = read_call(*out.allocator(), line)? else {
        return out.push_str("?\n");
    };
    match call.key {
        Key::Begin => answer_begin(out, referee, call.words.as_slice()),
        Key::Turn => answer_turn(out, referee, call.words.as_slice()),
    }
}

// The answers to a text, line by line.
pub fn answer_all(
    heap: Global,
    referee: &mut Adjudicator,
    text: &[u8],
) -> Result<String, AllocError>
    ensures { IfOk result (λ s. string_bytes s ≡ all_bytes (stood_by referee.old) (lines_of text.now)) }
{
    let mut out = String::new(heap);
    for line in (Lines { rest: text }) {
        answer(&mut out, referee, line)?;
    }
    Ok(out)
}
