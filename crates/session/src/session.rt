// The programs: files read, phases played, and what is printed.
ghost use Rattle.std.specs.Prelude.{◌≡◌, ◌++◌, IfOk};
ghost use Rattle.text.specs.OrdersFile.{orders_file};
ghost use Rattle.session.specs.Session.{tells_phases, orders_bytes, program_bytes, referee_bytes, season_bytes, record_bytes};
ghost use Rattle.session.specs.Tables.{opening_of};

use super::opening::open;
use super::plan::turns_of;
use super::program::Program;
use super::start::Playing;
use show::push_refusal;
use std::alloc::{AllocError, Global};
use text::{Fault, read_orders};

fn tells_phases(program: Program) -> bool
    ensures { result ≡ tells_phases program }
{
    match program {
        Program::Referee => true,
        Program::Season => true,
        Program::Record => false,
    }
}

// The orders read and played, or refused.
fn play_orders(
    heap: Global,
    program: Program,
    mut game: Playing,
    orders: &[u8],
) -> Result<Vec<u8>, AllocError>
    ensures { IfOk result (λ v. v.items ≡ orders_bytes program (opening_of game.entry) (orders_file (opening_of game.entry).names orders.now)) }
{
    let mut out = Vec::new(heap);
    match read_orders(heap, &game.places.names, orders) {
        Ok(blocks) => {
            let turns = turns_of(heap, program, game.position.phase, blocks.as_slice())?;
            game.run(&mut out, tells_phases(program), turns.as_slice())?;
            Ok(out)
        }
        Err(Fault::At(refusal)) => {
            game.refuse(&mut out, refusal)?;
            Ok(out)
        }
        Err(Fault::NoMemory) => Err(AllocError),
    }
}

// The files of a program, in the order in which it is called with them.
fn play_files(
    heap: Global,
    program: Program,
    board: &[u8],
    game: &[u8],
    orders: &[u8],
) -> Result<Vec<u8>, AllocError>
    ensures { IfOk result (λ v. v.items ≡ program_bytes program board.now game.now orders.now) }
{
    match open(heap, board, game) {
        Ok(game) => play_orders(heap, program, game, orders),
        Err(Fault::At(refusal)) => {
            let mut out = Vec::new(heap);
            push_refusal(&mut out, u8::from(refusal.reason), refusal.line)?;
            Ok(out)
        }
        Err(Fault::NoMemory) => Err(AllocError),
    }
}

// One phase. Each of the three states which bytes its program prints.
pub fn referee(
    heap: Global,
    board: &[u8],
    game: &[u8],
    orders: &[u8],
) -> Result<Vec<u8>, AllocError>
    ensures { IfOk result (λ v. v.items ≡ referee_bytes board.now game.now orders.now) }
{
    play_files(heap, Program::Referee, board, game, orders)
}

// Up to and with the first winter.
pub fn season(heap: Global, board: &[u8], game: &[u8], orders: &[u8]) -> Result<Vec<u8>, AllocError>
    ensures { IfOk result (λ v. v.items ≡ season_bytes board.now game.now orders.now) }
{
    play_files(heap, Program::Season, board, game, orders)
}

// Until the last block of orders has been taken; games only.
pub fn record(heap: Global, board: &[u8], game: &[u8], orders: &[u8]) -> Result<Vec<u8>, AllocError>
    ensures { IfOk result (λ v. v.items ≡ record_bytes board.now game.now orders.now) }
{
    play_files(heap, Program::Record, board, game, orders)
}
