// A game as lines: phase, units, those dislodged, barred regions, owners, each in the order of regions.
ghost use Rattle.std.specs.Prelude.{◌≡◌, ℕ, Bool, List, [], ◌++◌, OnOk, slice_index_or, None};
ghost use Rattle.values.specs.Fold.{those};
ghost use Rattle.geography.specs.RegionSet.{has};
ghost use Rattle.show.specs.Words.{name, letter, arm, then, end};
ghost use Rattle.show.specs.Game.{phase_line, unit_line, from_words, out_line, barred_line, owner_line, unit_lines, out_lines, barred_lines, owner_lines, game_bytes};

use super::printer::{Named, Printer};
use super::words::{arm, push, push_letter, push_word};
use board::Unit;
use game::{Dislodged, Phase};
use geography::RegionSet;
use std::alloc::AllocError;
use tables::by_region;

fn push_phase(out: &mut Vec<u8>, phase: Phase) -> Result<(), AllocError>
    ensures { OnOk result (out.new.items ≡ out.old.items ++ phase_line phase) }
{
    push_word(out, b"phase")?;
    push(out, &[b'0' + u8::from(phase), b'\n'])
}

// The word of its line, its power, and army or fleet.
fn push_kind(out: &mut Vec<u8>, word: &[u8], u: Unit) -> Result<(), AllocError>
    ensures { OnOk result (out.new.items ≡ out.old.items ++ then word.now (then (letter u.power) (then (arm u.fleet) []))) }
{
    push_word(out, word)?;
    push_letter(out, u.power)?;
    push_word(out, arm(u.fleet))
}

// Nobody owns a region that has no place in the list.
fn owner_of(owners: &[Option<u8>], r: u8) -> Option<u8>
    ensures { result ≡ slice_index_or owners.now r None }
{
    owners.get(r as usize).copied().flatten()
}

impl<'a, N: Named> Printer<'a, N> {
    fn push_unit(&self, out: &mut Vec<u8>, u: Option<Unit>) -> Result<(), AllocError>
        ensures { OnOk result (out.new.items ≡ out.old.items ++ unit_line (N.named self.now.names.now) u) }
    {
        let Some(u) = u else {
            return Ok(());
        };
        push_kind(out, b"unit", u)?;
        self.end_name(out, u.region)
    }

    fn push_units(&self, out: &mut Vec<u8>, units: &[Unit]) -> Result<(), AllocError>
        ensures { OnOk result (out.new.items ≡ out.old.items ++ unit_lines (N.named self.now.names.now) self.now.regions units.now) }
    {
        let table = by_region(*out.allocator(), units)?;
        let table = table.as_slice();
        self.push_each(out, |out, r| self.push_unit(out, table[r as usize]))
    }

    // The name of its region, and where the attack came from.
    fn push_from(&self, out: &mut Vec<u8>, r: u8, from: Option<u8>) -> Result<(), AllocError>
        ensures { OnOk result (out.new.items ≡ out.old.items ++ from_words (N.named self.now.names.now) (name (N.named self.now.names.now) r) from) }
    {
        let Some(f) = from else {
            return push(out, self.names.name(r));
        };
        push_word(out, self.names.name(r))?;
        self.push_named(out, b"from", f)
    }

    fn push_out(&self, out: &mut Vec<u8>, d: Option<Dislodged>) -> Result<(), AllocError>
        ensures { OnOk result (out.new.items ≡ out.old.items ++ out_line (N.named self.now.names.now) d) }
    {
        let Some(d) = d else {
            return Ok(());
        };
        push_kind(out, b"out", d.unit)?;
        self.push_from(out, d.unit.region, d.from)?;
        push(out, b"\n")
    }

    // Like `push_units` but for the line: one for both would only hand the table on.
    fn push_outs(&self, out: &mut Vec<u8>, dislodged: &[Dislodged]) -> Result<(), AllocError>
        ensures { OnOk result (out.new.items ≡ out.old.items ++ out_lines (N.named self.now.names.now) self.now.regions dislodged.now) }
    {
        let table = by_region(*out.allocator(), dislodged)?;
        let table = table.as_slice();
        self.push_each(out, |out, r| self.push_out(out, table[r as usize]))
    }

    fn push_barred(&self, out: &mut Vec<u8>, r: u8, barred: bool) -> Result<(), AllocError>
        ensures { OnOk result (out.new.items ≡ out.old.items ++ barred_line (N.named self.now.names.now) r barred) }
    {
        if !barred {
            return Ok(());
        }
        push_word(out, b"barred")?;
        self.end_name(out, r)
    }

    fn push_barred_set(&self, out: &mut Vec<u8>, barred: RegionSet) -> Result<(), AllocError>
        ensures { OnOk result (out.new.items ≡ out.old.items ++ barred_lines (N.named self.now.names.now) self.now.regions (those self.now.regions (has barred))) }
    {
        self.push_each(out, |out, r| self.push_barred(out, r, barred.contains(r)))
    }

    fn push_owner(&self, out: &mut Vec<u8>, r: u8, owner: Option<u8>) -> Result<(), AllocError>
        ensures { OnOk result (out.new.items ≡ out.old.items ++ owner_line (N.named self.now.names.now) r owner) }
    {
        let Some(p) = owner else {
            return Ok(());
        };
        push_word(out, b"owner")?;
        push_letter(out, p)?;
        self.end_name(out, r)
    }

    fn push_owners(&self, out: &mut Vec<u8>, owners: &[Option<u8>]) -> Result<(), AllocError>
        ensures { OnOk result (out.new.items ≡ out.old.items ++ owner_lines (N.named self.now.names.now) self.now.regions owners.now) }
    {
        self.push_each(out, |out, r| self.push_owner(out, r, owner_of(owners, r)))
    }

    // A game's parts and no `Position`, which stands in a crate above this one.
    pub fn push_game(
        &self,
        out: &mut Vec<u8>,
        phase: Phase,
        units: &[Unit],
        dislodged: &[Dislodged],
        barred: RegionSet,
        owners: &[Option<u8>],
    ) -> Result<(), AllocError>
        ensures { OnOk result (out.new.items ≡ out.old.items ++ game_bytes (N.named self.now.names.now) self.now.regions (record { phase = phase; units = units.now; dislodged = dislodged.now; barred = those self.now.regions (has barred); owners = owners.now })) }
    {
        push_phase(out, phase)?;
        self.push_units(out, units)?;
        self.push_outs(out, dislodged)?;
        self.push_barred_set(out, barred)?;
        self.push_owners(out, owners)
    }
}
