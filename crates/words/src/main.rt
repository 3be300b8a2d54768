// Calls from standard input, one to a line, and their answers on standard output.
#![tactic(auto)]

use adjudicator::Adjudicator;
use answers::answer_all;
use std::io;
use std::io::{Read, Write};

fn main(rt: HostRuntime) -> io::Result<()> {
    let heap = rt.alloc();
    let mut text = Vec::new(heap);
    let _ = rt.stdin().read_to_end(&mut text)?;
    let mut referee = Adjudicator::new(heap)?;
    let answers = answer_all(heap, &mut referee, text.as_slice())?;
    rt.stdout().write_all(answers.as_bytes())
}
