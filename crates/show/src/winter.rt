// What is told of a winter: a line for each unit that went, and for each that came.
ghost use Rattle.std.specs.Prelude.{◌≡◌, Bool, List, [], ◌++◌, OnOk};
ghost use Rattle.show.specs.Words.{name, letter, then, end};
ghost use Rattle.show.specs.Reports.{of_same_power, went_line, came_line, winter_lines};

use super::printer::{Named, Printer};
use super::words::{arm, push, push_letter, push_word};
use board::Unit;
use std::alloc::AllocError;
use tables::by_region;

fn of_same_power(p: u8, u: Option<Unit>) -> bool
    ensures { result ≡ of_same_power p u }
{
    u.is_some_and(|u| u.power == p)
}

impl<'a, N: Named> Printer<'a, N> {
    // Its power, its region, and what happened.
    fn push_change(&self, out: &mut Vec<u8>, u: Unit, word: &[u8]) -> Result<(), AllocError>
        ensures { OnOk result (out.new.items ≡ out.old.items ++ then (letter u.power) (then (name (N.named self.now.names.now) u.region) (end word.now))) }
    {
        push_letter(out, u.power)?;
        push_word(out, self.names.name(u.region))?;
        push(out, word)?;
        push(out, b"\n")
    }

    // This and the next are two lines of the format, each with its own word: one for both would take what tells them apart.
    fn push_went(
        &self,
        out: &mut Vec<u8>,
        before: Option<Unit>,
        after: Option<Unit>,
    ) -> Result<(), AllocError>
        ensures { OnOk result (out.new.items ≡ out.old.items ++ went_line (N.named self.now.names.now) before after) }
    {
        match before {
            Some(u) if !of_same_power(u.power, after) => self.push_change(out, u, b"gone"),
            _ => Ok(()),
        }
    }

    fn push_came(
        &self,
        out: &mut Vec<u8>,
        before: Option<Unit>,
        after: Option<Unit>,
    ) -> Result<(), AllocError>
        ensures { OnOk result (out.new.items ≡ out.old.items ++ came_line (N.named self.now.names.now) before after) }
    {
        match after {
            Some(u) if !of_same_power(u.power, before) => self.push_change(out, u, arm(u.fleet)),
            _ => Ok(()),
        }
    }

    fn push_changes(
        &self,
        out: &mut Vec<u8>,
        before: Option<Unit>,
        after: Option<Unit>,
    ) -> Result<(), AllocError>
        ensures { OnOk result (out.new.items ≡ out.old.items ++ (went_line (N.named self.now.names.now) before after ++ came_line (N.named self.now.names.now) before after)) }
    {
        self.push_went(out, before, after)?;
        self.push_came(out, before, after)
    }

    // The units before and after a winter: two lists, so two tables by region. Lines are told of both, so what prints them takes both.
    pub fn push_winter(
        &self,
        out: &mut Vec<u8>,
        before: &[Unit],
        after: &[Unit],
    ) -> Result<(), AllocError>
        ensures { OnOk result (out.new.items ≡ out.old.items ++ winter_lines (N.named self.now.names.now) self.now.regions before.now after.now) }
    {
        let heap = *out.allocator();
        let (old, new) = (by_region(heap, before)?, by_region(heap, after)?);
        let (old, new) = (old.as_slice(), new.as_slice());
        self.push_each(
            out,
            |out, r| self.push_changes(out, old[r as usize], new[r as usize]),
        )
    }
}
