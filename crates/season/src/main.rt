// Plays a game's phases up to and with the first winter, and prints each.
#![tactic(auto)]

use command::{Program, run};
use session::season;
use std::io;

fn main(rt: HostRuntime) -> io::Result<()> {
    let program = Program {
        name: "season",
        purpose: "Plays up to and with the first winter, and prints each phase as referee does.",
    };
    run(&rt, program, season)
}
