// One power's part of a winter: disbands with more units than centres, builds with fewer.
ghost use Rattle.std.specs.Prelude.{◌≡◌, ℕ, ◌<◌, true, not, ◌&&◌, take, IfOk, None, slice_index_or};
ghost use Rattle.std.specs.Option.{option_to_list};
ghost use Rattle.values.specs.Fold.{all};
ghost use Rattle.geography.specs.RegionSet.{has, Holds};
ghost use Rattle.board.specs.Board.{stands, can_stand, region_at};
ghost use Rattle.board.specs.Atlas.{board_of};
ghost use Rattle.game.specs.Texts.{text_for};
ghost use Rattle.game.specs.Retreats.{is_just, occupied};
ghost use Rattle.game.specs.Winter.{of_power, units_of, centres_of, has_unit, struck, is_disband, disband_order, disbanded, build_in, may_build, built, winter_of};

use board::{Atlas, Unit};
use game::Text;
use geography::RegionSet;
use std::alloc::{AllocError, Global};
use texts::Texts;

// What a text asks to build: a fleet, or else an army. Each case is written out, as the rules do.
fn build_in(text: Option<Text>) -> Option<bool>
    ensures { result ≡ build_in text }
{
    match text {
        None => None,
        Some(Text::Command(_)) => None,
        Some(Text::Build { fleet }) => Some(fleet),
        Some(Text::Disband) => None,
    }
}

// The club: struck, `gone`.
fn is_disband(text: Option<Text>) -> bool
    ensures { result ≡ is_disband text }
{
    match text {
        None => false,
        Some(Text::Command(_)) => false,
        Some(Text::Build { .. }) => false,
        Some(Text::Disband) => true,
    }
}

// What one power meets in a winter, and what it wrote.
#[derive(Clone, Copy)]
pub struct Adjustment<'a> {
    pub atlas: &'a Atlas,
    pub texts: &'a Texts,
    pub owners: &'a [Option<u8>],
    pub units: &'a [Unit],
    pub power: u8,
    // The regions of all units.
    pub taken: RegionSet,
    ghost power_known: { power < 7 },
    ghost units_stand: { all (stands (board_of atlas.now)) units.now ≡ true },
    ghost taken_known: { (r : ℕ) → has taken r ≡ occupied r units.now },
}

impl Adjustment<'_> {
    fn unit_count(&self) -> usize
        ensures { result ≡ units_of self.now.power self.now.units.now }
    {
        self.units.iter().filter(|u| self.power == u.power).count()
    }

    fn centre_count(&self) -> usize
        ensures { result ≡ centres_of self.now.power self.now.owners.now }
    {
        self.owners
            .iter()
            .filter(|owner| **owner == Some(self.power))
            .count()
    }

    // The regions of the power's units.
    fn held(&self) -> RegionSet
        ensures { (r : ℕ) → has result r ≡ has_unit self.now.power self.now.units.now r }
    {
        let mut held = RegionSet::EMPTY;
        for u in self.units {
            if self.power == u.power {
                held.insert(u.region);
            }
        }
        held
    }

    fn strikes(&self, r: u8) -> bool
        ensures { result ≡ struck self.now.power self.now.texts.now.list.items r }
    {
        is_disband(self.texts.text_for(self.power, r))
    }

    // Who goes: first those struck, then the others, the lower regions first.
    fn goers(&self, most: usize) -> RegionSet
        ensures { Holds result (take most (disband_order (board_of self.now.atlas.now) self.now.power self.now.texts.now.list.items self.now.units.now)) }
    {
        let held = self.held();
        let n = self.atlas.regions.len() as u8;
        let struck = (0..n).filter(|r| held.contains(*r) && self.strikes(*r));
        let others = (0..n).filter(|r| held.contains(*r) && !self.strikes(*r));
        let mut gone = RegionSet::EMPTY;
        for r in struck.chain(others).take(most) {
            gone.insert(r);
        }
        gone
    }

    fn disband(&self, heap: Global, most: usize) -> Result<Vec<Unit>, AllocError>
        ensures { IfOk result (λ v. v.items ≡ disbanded (board_of self.now.atlas.now) self.now.power self.now.texts.now.list.items most self.now.units.now) }
    {
        let gone = self.goers(most);
        self.units
            .iter()
            .filter(|u| !(self.power == u.power && gone.contains(u.region)))
            .copied()
            .collect(heap)
    }

    fn is_home(&self, r: u8) -> bool
        ensures { result ≡ is_just self.now.power (region_at (board_of self.now.atlas.now) r).home }
    {
        let home = self
            .atlas
            .regions
            .get(r as usize)
            .and_then(|region| region.home);
        home == Some(self.power)
    }

    // As `owner_of` of `show` looks an owner up: the crates share none that has owners.
    fn owns(&self, r: u8) -> bool
        ensures { result ≡ is_just self.now.power (slice_index_or self.now.owners.now r None) }
    {
        self.owners.get(r as usize).copied().flatten() == Some(self.power)
    }

    // A home of the power that it owns, that is empty and where such a unit can be.
    fn is_site(&self, r: u8, fleet: bool) -> bool
        ensures { result ≡ (can_stand (board_of self.now.atlas.now) fleet r && (is_just self.now.power (region_at (board_of self.now.atlas.now) r).home && (is_just self.now.power (slice_index_or self.now.owners.now r None) && not (has self.now.taken r)))) }
    {
        self.atlas.can_stand(fleet, r) && self.is_home(r) && self.owns(r) && !self.taken.contains(r)
    }

    // What the power asks to build in `r`, where it may.
    fn may_build(&self, r: u8) -> Option<Unit>
        ensures { option_to_list result ≡ may_build (board_of self.now.atlas.now) self.now.power self.now.owners.now self.now.units.now r (build_in (text_for self.now.power r self.now.texts.now.list.items)) }
    {
        let fleet = build_in(self.texts.text_for(self.power, r))?;
        self.is_site(r, fleet).then_some(Unit {
            power: self.power,
            region: r,
            fleet,
        })
    }

    fn build(&self, heap: Global, most: usize) -> Result<Vec<Unit>, AllocError>
        ensures { IfOk result (λ v. v.items ≡ built (board_of self.now.atlas.now) self.now.power self.now.owners.now self.now.texts.now.list.items most self.now.units.now) }
    {
        let n = self.atlas.regions.len() as u8;
        let mut out = Vec::from_slice(heap, self.units)?;
        out.extend((0..n).filter_map(|r| self.may_build(r)).take(most))?;
        Ok(out)
    }

    // The units that stand when the power is done.
    pub fn units_after(&self, heap: Global) -> Result<Vec<Unit>, AllocError>
        ensures { IfOk result (λ v. v.items ≡ winter_of (board_of self.now.atlas.now) self.now.owners.now self.now.texts.now.list.items self.now.power self.now.units.now) }
    {
        let have = self.unit_count();
        let may = self.centre_count();
        if may < have {
            self.disband(heap, have - may)
        } else {
            self.build(heap, may - have)
        }
    }
}
