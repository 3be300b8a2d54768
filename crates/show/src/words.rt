// Words of a line, each put behind the bytes that stand.
// They are bytes and no `String`, since what is read and named is a file's bytes, and the clauses speak of these.
ghost use Rattle.std.specs.Prelude.{◌≡◌, ℕ, List, [], ◌∷◌, ◌++◌, cond, codes, OnOk};
ghost use Rattle.show.specs.Words.{name, letter, arm, then, order_words};

use super::printer::{Named, Printer};
use board::Order;
use std::alloc::AllocError;

pub(super) fn push(out: &mut Vec<u8>, word: &[u8]) -> Result<(), AllocError>
    ensures { OnOk result (out.new.items ≡ out.old.items ++ word.now) }
{
    out.extend_from_slice(word)
}

// A word and the space behind it.
pub(super) fn push_word(out: &mut Vec<u8>, word: &[u8]) -> Result<(), AllocError>
    ensures { OnOk result (out.new.items ≡ out.old.items ++ then word.now []) }
{
    push(out, word)?;
    push(out, b" ")
}

// The letter of a power and the space behind it.
pub(super) fn push_letter(out: &mut Vec<u8>, p: u8) -> Result<(), AllocError>
    ensures { OnOk result (out.new.items ≡ out.old.items ++ then (letter p) []) }
{
    let c = if p < 7 { b'a' + p } else { b'?' };
    push(out, &[c, b' '])
}

pub(super) fn arm(fleet: bool) -> &'static [u8]
    ensures { result.now ≡ arm fleet }
{
    if fleet { b"fleet" } else { b"army" }
}

fn go_word(convoyed: bool) -> &'static [u8]
    ensures { result.now ≡ cond convoyed (codes "water") (codes "move") }
{
    if convoyed { b"water" } else { b"move" }
}

impl<'a, N: Named> Printer<'a, N> {
    // One word and two names.
    fn push_joined(
        &self,
        out: &mut Vec<u8>,
        word: &[u8],
        from: u8,
        to: u8,
    ) -> Result<(), AllocError>
        ensures { OnOk result (out.new.items ≡ out.old.items ++ then word.now (then (name (N.named self.now.names.now) from) (name (N.named self.now.names.now) to))) }
    {
        push_word(out, word)?;
        self.push_named(out, self.names.name(from), to)
    }

    pub(super) fn push_order(&self, out: &mut Vec<u8>, o: Order) -> Result<(), AllocError>
        ensures { OnOk result (out.new.items ≡ out.old.items ++ order_words (N.named self.now.names.now) o) }
    {
        match o {
            Order::Hold => push(out, b"hold"),
            Order::Move { to, convoyed } => self.push_named(out, go_word(convoyed), to),
            Order::SupportHold { at } => self.push_named(out, b"holds", at),
            Order::SupportMove { from, to } => self.push_joined(out, b"helps", from, to),
            Order::Convoy { from, to } => self.push_joined(out, b"carries", from, to),
        }
    }
}
