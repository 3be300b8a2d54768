// The command line of a program that reads three files and prints what it makes of them.
#![tactic(auto)]

ghost use Rattle.std.specs.Prelude.{◌≡◌, codes};
ghost use Rattle.std.specs.Str.{bytes_eq};

use std::alloc::{AllocError, Global};
use std::io::Write;
use std::{env, fs, io};

// What the help says of a program.
#[derive(Clone, Copy)]
pub struct Program<'a> {
    pub name: &'a str,
    pub purpose: &'a str,
}

impl<'a> Program<'a> {
    fn help(self, rt: &HostRuntime) -> io::Result<()> {
        let Program { name, purpose } = self;
        println!(rt; "{name} BOARD GAME ORDERS")?;
        println!(rt; "{purpose}")
    }
}

// Whether the first argument is no file.
fn asks_for_help(argument: &str) -> bool
    ensures { result ≡ bytes_eq argument.now (codes "--help") }
{
    argument == "--help"
}

fn wanted() -> io::Error {
    io::Error::other("three files are wanted: BOARD GAME ORDERS")
}

fn play<F: FnOnce(Global, &[u8], &[u8], &[u8]) -> Result<Vec<u8>, AllocError>>(
    rt: &HostRuntime,
    board: &str,
    game: &str,
    orders: &str,
    printed: F,
) -> io::Result<()>
    requires { F.IsAlwaysCallable printed }
{
    let board = fs::read(rt, board)?;
    let game = fs::read(rt, game)?;
    let orders = fs::read(rt, orders)?;
    let bytes = printed(
        rt.alloc(),
        board.as_slice(),
        game.as_slice(),
        orders.as_slice(),
    )?;
    rt.stdout().write_all(bytes.as_slice())
}

// `printed` gives what is printed of a board's, a game's and an orders' file.
pub fn run<F: FnOnce(Global, &[u8], &[u8], &[u8]) -> Result<Vec<u8>, AllocError> + Drop>(
    rt: &HostRuntime,
    program: Program,
    printed: F,
) -> io::Result<()>
    requires { F.IsAlwaysCallable printed }
{
    let mut args = env::args(rt)?.skip(1);
    let Some(board) = args.next() else {
        return Err(wanted());
    };
    if asks_for_help(board.as_str()) {
        return program.help(rt);
    }
    let Some(game) = args.next() else {
        return Err(wanted());
    };
    let Some(orders) = args.next() else {
        return Err(wanted());
    };
    if args.next().is_some() {
        return Err(wanted());
    }
    play(rt, board.as_str(), game.as_str(), orders.as_str(), printed)
}
