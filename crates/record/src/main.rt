// Plays phase after phase until the orders are used up, and prints each game.
#![tactic(auto)]

use command::{Program, run};
use session::record;
use std::io;

fn main(rt: HostRuntime) -> io::Result<()> {
    let program = Program {
        name: "record",
        purpose: "Plays until the last block of orders has been taken, and prints each game.",
    };
    run(&rt, program, record)
}
