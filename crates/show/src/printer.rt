// What prints: what it knows of the board stays the same while the bytes grow, so that a clause speaks of the bytes alone.
ghost use Rattle.std.specs.Prelude.{◌≡◌, ℕ, ◌<◌, List, ◌++◌, Ok, OnOk, vec_items};
ghost use Rattle.show.specs.Words.{Names, name, end, then};
ghost use Rattle.show.specs.Game.{by_region};

use super::words::{push, push_word};
use std::alloc::AllocError;

// The names of the regions, whoever keeps them.
pub trait Named {
    ghost named: { Self → Names };

    fn name(&self, r: u8) -> &[u8]
        ensures { result.now ≡ name (named self.now) r };
}

// The board's names, and how many regions it has.
#[derive(Drop)]
pub struct Printer<'a, N> {
    pub names: &'a N,
    pub regions: u8,
}

impl<'a, N: Named> Printer<'a, N> {
    // A name that ends a line.
    pub(super) fn end_name(&self, out: &mut Vec<u8>, r: u8) -> Result<(), AllocError>
        ensures { OnOk result (out.new.items ≡ out.old.items ++ end (name (N.named self.now.names.now) r)) }
    {
        push(out, self.names.name(r))?;
        push(out, b"\n")
    }

    // One word and a name.
    pub(super) fn push_named(&self, out: &mut Vec<u8>, word: &[u8], r: u8) -> Result<(), AllocError>
        ensures { OnOk result (out.new.items ≡ out.old.items ++ then word.now (name (N.named self.now.names.now) r)) }
    {
        push_word(out, word)?;
        push(out, self.names.name(r))
    }

    // What each region gives, in their order.
    pub(super) fn push_each<F: Fn(&mut Vec<u8>, u8) -> Result<(), AllocError>>(
        &self,
        out: &mut Vec<u8>,
        push_one: F,
    ) -> Result<(), AllocError>
        requires { F.IsAlwaysCallable push_one }
        ensures { (give : ℕ → List ℕ) → ((r : ℕ) (before after : _) → r < self.now.regions → r < 256 → F.post push_one before r (Ok tt) after → vec_items after.now ≡ vec_items before.now ++ give r) → OnOk result (out.new.items ≡ out.old.items ++ by_region self.now.regions give) }
    {
        for r in 0..self.regions {
            push_one(out, r)?;
        }
        Ok(())
    }
}
