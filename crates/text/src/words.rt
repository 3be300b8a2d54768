// A line's words, read one by one.
ghost use Rattle.std.specs.Prelude.{◌≡◌, ℕ, ◌+◌, ◌^◌, ◌<◌, ◌≤◌, Bool, true, false, List, [], ◌∷◌, length, IfSome, IfOk, if◌then◌else◌};
ghost use Rattle.std.specs.Str.{bytes_eq};
ghost use Rattle.text.specs.Refusal.{unreadable, Reads, Passes};
ghost use Rattle.text.specs.Words.{one_of, power, phase_alone, kind, arm, new_name, place, is_name, is_letter, front, behind, begins, is_end};
ghost use Rattle.text.specs.Names.{names_of};
ghost use Rattle.text.specs.Reader.{left};
ghost use Rattle.values.specs.Fold.{all};

use super::lines::part_length;
use super::names::Names;
use super::refusal::Refusal;
use std::alloc::AllocError;

const SPACE: u8 = 32;

// A word of one byte, as its place in the row from `first` to `last`.
#[tactic(auto, unfolding(crate::specs::Words::one_of))]
fn one_of(first: u8, last: u8, word: &[u8]) -> Option<u32>
    ensures value { result ≡ one_of first last word.now }
    ensures small { IfSome result (λ x. x < 256) }
{
    let [b] = word else {
        return None;
    };
    if first <= *b && *b <= last {
        Some((*b - first) as u32)
    } else {
        None
    }
}

// Compared in turn: a match on byte strings leaves a goal open for each byte. A number and no enum, here and in the next, since it is
// the word of a call.
#[tactic(auto, unfolding(crate::specs::Words::kind))]
fn kind_of(word: &[u8]) -> Option<u32>
    ensures { result ≡ kind word.now }
{
    if word == b"land".as_slice() {
        Some(0)
    } else if word == b"coast".as_slice() {
        Some(1)
    } else if word == b"sea".as_slice() {
        Some(2)
    } else {
        None
    }
}

#[tactic(auto, unfolding(crate::specs::Words::arm))]
fn arm_of(word: &[u8]) -> Option<u32>
    ensures { result ≡ arm word.now }
{
    if word == b"army".as_slice() {
        Some(0)
    } else if word == b"fleet".as_slice() {
        Some(1)
    } else {
        None
    }
}

#[tactic(auto, using(values::proofs::Chains::all_is))]
fn letters(word: &[u8]) -> bool
    ensures { result ≡ all is_letter word.now }
{
    word.iter().all(|b| b.is_ascii_lowercase())
}

fn is_name(word: &[u8]) -> bool
    ensures { result ≡ is_name word.now }
{
    1 <= word.len() && word.len() <= 16 && letters(word)
}

// A number as a word of a call. No file within its limit has so many lines that it doesn't fit; one that doesn't is
// answered like want of memory. No `try_from`: that takes one number more, and `from_word` adds one.
pub(super) fn word(n: usize) -> Result<u32, AllocError>
    ensures { IfOk result (λ w. (w ≡ n) × (w + 1 < 2 ^ 32)) }
{
    if n < u32::MAX as usize {
        Ok(n as u32)
    } else {
        Err(AllocError)
    }
}

// The words of one line that are still to be read, and the line's number.
#[derive(Clone, Copy)]
pub struct Words<'a> {
    pub(super) rest: &'a [u8],
    // Whether a word is left: behind a space there is always one, if only an empty one.
    pub(super) more: bool,
    pub(super) line: u32,
}

impl<'a> Words<'a> {
    // The next word; the empty word where none is left. What is left is one list to the definitions, so `more` stands beside it. As
    // in `Lines::next`, but that a last empty word counts: one for both would give back which it was.
    pub(super) fn take(&mut self) -> &'a [u8]
        ensures word { result.now ≡ front (left self.old) }
        ensures rest { left self.new ≡ behind (left self.old) }
        ensures line { self.new.line ≡ self.old.line }
    {
        if !self.more {
            return b"";
        }
        let rest = self.rest;
        let n = part_length(rest, SPACE);
        let next = if n < rest.len() { n + 1 } else { n };
        self.more = n < rest.len();
        self.rest = &rest[next..];
        &rest[0..n]
    }

    pub(super) fn unreadable(&self) -> Refusal
        ensures { result ≡ unreadable self.now.line }
    {
        Refusal::unreadable(self.line)
    }

    // This and the next three read one word each: one over a closure would repeat their clauses.
    pub(super) fn power(&mut self) -> Result<u32, Refusal>
        ensures value { Reads (λ x. x) (power (front (left self.old))) self.old.line result }
        ensures small { IfOk result (λ x. x < 256) }
        ensures rest { left self.new ≡ behind (left self.old) }
        ensures line { self.new.line ≡ self.old.line }
    {
        one_of(b'a', b'g', self.take()).ok_or(self.unreadable())
    }

    // A phase, and no word behind it.
    pub(super) fn phase_alone(mut self) -> Result<u32, Refusal>
        ensures { Reads (λ x. x) (phase_alone (left self.entry)) self.entry.line result }
    {
        let n = one_of(b'0', b'4', self.take()).ok_or(self.unreadable())?;
        self.end()?;
        Ok(n)
    }

    pub(super) fn kind(&mut self) -> Result<u32, Refusal>
        ensures value { Reads (λ x. x) (kind (front (left self.old))) self.old.line result }
        ensures rest { left self.new ≡ behind (left self.old) }
        ensures line { self.new.line ≡ self.old.line }
    {
        kind_of(self.take()).ok_or(self.unreadable())
    }

    pub(super) fn arm(&mut self) -> Result<u32, Refusal>
        ensures value { Reads (λ x. x) (arm (front (left self.old))) self.old.line result }
        ensures rest { left self.new ≡ behind (left self.old) }
        ensures line { self.new.line ≡ self.old.line }
    {
        arm_of(self.take()).ok_or(self.unreadable())
    }

    // A name that stands above.
    pub(super) fn name(&mut self, names: &Names) -> Result<usize, Refusal>
        ensures value { Reads (λ x. x) (place (names_of names.now) (front (left self.old))) self.old.line result }
        ensures rest { left self.new ≡ behind (left self.old) }
        ensures line { self.new.line ≡ self.old.line }
    {
        names.find(self.take()).ok_or(self.unreadable())
    }

    // A name that no region has yet.
    #[tactic(auto, unfolding(crate::specs::Words::new_name))]
    pub(super) fn new_name(&mut self, names: &Names) -> Result<&'a [u8], Refusal>
        ensures value { Reads (λ x. x.now) (new_name (names_of names.now) (front (left self.old))) self.old.line result }
        ensures rest { left self.new ≡ behind (left self.old) }
        ensures line { self.new.line ≡ self.old.line }
    {
        let word = self.take();
        if is_name(word) && names.find(word).is_none() {
            Ok(word)
        } else {
            Err(self.unreadable())
        }
    }

    // Whether the next word is this one; then it is taken.
    pub(super) fn skip(&mut self, text: &[u8]) -> bool
        ensures value { result ≡ begins text.now (left self.old) }
        ensures rest { left self.new ≡ (if result then behind (left self.old) else left self.old) }
        ensures line { self.new.line ≡ self.old.line }
    {
        let mut ahead = *self;
        if ahead.take() != text {
            return false;
        }
        *self = ahead;
        true
    }

    // No word is left.
    pub(super) fn end(&self) -> Result<(), Refusal>
        ensures { Passes (is_end (left self.now)) self.now.line result }
    {
        if self.more {
            Err(self.unreadable())
        } else {
            Ok(())
        }
    }
}
