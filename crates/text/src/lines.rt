// A text's lines and a line's words, as parts of the text.
ghost use Rattle.std.specs.Prelude.{◌≡◌, ℕ, ◌+◌, ◌<◌, ◌≤◌, Bool, true, false, cond, List, [], ◌∷◌, length, Ok, Err};
ghost use Rattle.std.specs.Iterator.{at_most};
ghost use Rattle.text.specs.Refusal.{misfit};
ghost use Rattle.text.specs.Lines.{part_length, is_long_file};
ghost use Rattle.text.specs.Reader.{Says};

use super::refusal::Refusal;
use super::words::Words;

const NEWLINE: u8 = 10;

// How many bytes stand before the first `sep`.
pub(super) fn part_length(bytes: &[u8], sep: u8) -> usize
    ensures value { result ≡ part_length sep bytes.now }
    ensures upper_bound { result ≤ length bytes.now }
{
    bytes.iter().position(|b| *b == sep).unwrap_or(bytes.len())
}

// A text that is too long is refused before a line of it is read.
pub fn within_limit(text: &[u8]) -> Result<(), Refusal>
    ensures { elim result [ Ok u ↦ is_long_file text.now ≡ false | Err e ↦ (is_long_file text.now ≡ true) × (e ≡ misfit) ] }
{
    if text.len() > 1048576 {
        Err(Refusal::misfit())
    } else {
        Ok(())
    }
}

// A line with its number.
#[derive(Clone, Copy)]
pub struct Line<'a> {
    pub(super) bytes: &'a [u8],
    pub(super) number: u32,
}

// The lines of a text that are still to be read, and the number of the next.
#[derive(Drop)]
pub struct Lines<'a> {
    pub(super) rest: &'a [u8],
    pub(super) number: u32,
    // A text within its limit, so that lines can be counted.
    ghost room: { number + length rest.now ≤ 1048577 },
}

impl<'a> Line<'a> {
    // Nothing for a line that begins with #.
    pub fn words(&self) -> Result<Option<Words<'a>>, Refusal>
        ensures { Says self.now.bytes.now self.now.number result }
    {
        let bytes = self.bytes;
        if bytes.len() > 256 {
            return Err(Refusal::unreadable(self.number));
        }
        if let [b'#', ..] = bytes {
            return Ok(None);
        }
        Ok(Some(Words {
            rest: bytes,
            more: true,
            line: self.number,
        }))
    }
}

impl<'a> Lines<'a> {
    pub fn of(text: &'a [u8]) -> Lines<'a>
        requires { length text.now ≤ 1048576 }
        ensures rest { result.rest.now ≡ text.now }
        ensures number { result.number ≡ 1 }
    {
        Lines {
            rest: text,
            number: 1,
        }
    }
}

impl<'a> Iterator for Lines<'a> {
    ghost use Rattle.text.specs.Taking.{TakesLine};

    type Item = Line<'a>;

    ghost next_gives = { TakesLine };

    ghost remaining = { λ s. at_most (length s.rest.now) };

    fn next(&mut self) -> Option<Line<'a>> {
        let rest = self.rest;
        if rest.is_empty() {
            return None;
        }
        let number = self.number;
        let n = part_length(rest, NEWLINE);
        let next = if n < rest.len() { n + 1 } else { n };
        *self = Lines {
            rest: &rest[next..],
            number: number + 1,
        };
        Some(Line {
            bytes: &rest[0..n],
            number,
        })
    }
}
