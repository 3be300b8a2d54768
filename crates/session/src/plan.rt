// Which texts are due in which phase.
ghost use Rattle.std.specs.Prelude.{◌≡◌, ℕ, ◌+◌, List, IfOk, ◌==◌};
ghost use Rattle.text.specs.OrdersFile.{texts_of};
ghost use Rattle.session.specs.Session.{next_number, distance, block_phase, turns_due, phases_until, phase_count, turns_of};
ghost use Rattle.session.specs.Tables.{blocks_of, turns_in};

use super::program::Program;
use game::Phase;
use std::alloc::{AllocError, Global};
use text::Block;

// After winter comes spring. Phases are numbers here, as `distance` reckons with them: with `Phase` each step would turn it into one.
fn next(phase: u32) -> u32
    ensures { result ≡ next_number phase }
{
    if phase < 4 { phase + 1 } else { 0 }
}

// How many phases are played up to and with phase `n`.
fn phases_to(phase: u32, n: u32) -> usize
    ensures { result ≡ distance phase n + 1 }
{
    if n < phase {
        (n as usize + 5).saturating_sub(phase as usize) + 1
    } else {
        (n - phase) as usize + 1
    }
}

// How many phases there are until the last block has been taken. This and the three below take what their definitions take.
fn phases_until(first: u32, blocks: &[Block]) -> Result<usize, AllocError>
    ensures { IfOk result (λ n. n ≡ phases_until first first (blocks_of blocks.now)) }
{
    let mut count = 0usize;
    let mut phase = first;
    for block in blocks {
        let n = block.phase.unwrap_or(first);
        count = count.checked_add(phases_to(phase, n)).ok_or(AllocError)?;
        phase = next(n);
    }
    Ok(count)
}

fn phase_count(program: Program, first: u32, blocks: &[Block]) -> Result<usize, AllocError>
    ensures { IfOk result (λ n. n ≡ phase_count program first (blocks_of blocks.now)) }
{
    match program {
        Program::Referee => Ok(1),
        Program::Season => Ok(5usize.saturating_sub(first as usize)),
        Program::Record => phases_until(first, blocks),
    }
}

// Whether the block is of this phase.
fn is_due(first: u32, phase: u32, block: &Block) -> bool
    ensures { result ≡ (phase == block_phase first (texts_of block.now)) }
{
    phase == block.phase.unwrap_or(first)
}

// The texts of `count` phases: those of the next block where it is due, else none.
fn turns_due<'a>(
    heap: Global,
    first: u32,
    count: usize,
    blocks: &'a [Block],
) -> Result<Vec<&'a [u32]>, AllocError>
    ensures { IfOk result (λ v. turns_in v.items ≡ turns_due first count first (blocks_of blocks.now)) }
{
    let mut turns = Vec::new(heap);
    let mut phase = first;
    let mut waiting = blocks;
    for _ in 0..count {
        if let [block, others @ ..] = waiting
            && is_due(first, phase, block)
        {
            turns.push(block.words.as_slice())?;
            waiting = others;
        } else {
            turns.push(&[])?;
        }
        phase = next(phase);
    }
    Ok(turns)
}

// The texts of the phases that a program plays, for a game that begins in `phase`.
pub fn turns_of<'a>(
    heap: Global,
    program: Program,
    phase: Phase,
    blocks: &'a [Block],
) -> Result<Vec<&'a [u32]>, AllocError>
    ensures { IfOk result (λ v. turns_in v.items ≡ turns_of program phase (blocks_of blocks.now)) }
{
    let first = u32::from(u8::from(phase));
    let count = phase_count(program, first, blocks)?;
    turns_due(heap, first, count, blocks)
}
