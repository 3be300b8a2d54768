// A file read line by line, by what was known before each line.
ghost use Rattle.std.specs.Prelude.{◌≡◌};
ghost use Rattle.text.specs.Refusal.{Advances, Answers};
ghost use Rattle.text.specs.Lines.{Step, line_read, read_file};

use super::lines::{Line, Lines, within_limit};
use super::refusal::Fault;

// What is known of a file of one kind, and how a line adds to it.
pub(super) trait Reader<'a>: Drop {
    ghost Known: { Type 0 };

    ghost known: { Self → Known };

    ghost step: { Self → Step Known };

    fn read(&mut self, line: Line<'a>) -> Result<(), Fault>
        ensures line { Advances (line_read (step self.old) (known self.old) line.entry.bytes.now) line.entry.number (known self.new) result }
        ensures step { step self.new ≡ step self.old };
}

pub(super) fn read_whole<'a, R: Reader<'a>>(mut reader: R, text: &'a [u8]) -> Result<R, Fault>
    ensures { Answers R.known (read_file (R.step reader) (R.known reader) text.now) result }
{
    within_limit(text)?;
    for line in Lines::of(text) {
        reader.read(line)?;
    }
    Ok(reader)
}
