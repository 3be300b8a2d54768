// Plays one phase, and prints what became of it and the next game.
#![tactic(auto)]

use command::{Program, run};
use session::referee;
use std::io;

fn main(rt: HostRuntime) -> io::Result<()> {
    let program = Program {
        name: "referee",
        purpose: "Plays one phase and prints its lines and the next game.",
    };
    run(&rt, program, referee)
}
