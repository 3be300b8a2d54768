// A chain of fleets from coast to coast, found by a flood over sets of regions.
ghost use Rattle.std.specs.Prelude.{◌≡◌, ℕ, ◌<◌, ◌&&◌, List, [], ◌∷◌, length, get_or, slice_index_or};
ghost use Rattle.geography.specs.RegionSet.{Holds};
ghost use Rattle.board.specs.Order.{convoys};
ghost use Rattle.board.specs.Atlas.{board_of};
ghost use Rattle.assignment.specs.Assignment.{nobody};
ghost use Rattle.paths.specs.Paths.{carrier, reached, flood, lands, chain};
ghost use Rattle.paths.specs.Flood.{counts};

use super::crossing::Crossing;
use super::staying::Staying;
use super::water::Water;
use geography::RegionSet;

impl<'a, S: Staying> Crossing<'a, S> {
    // Whether the fleet in place `i` carries this army, and counts. By its place, so that a table is read only where a fleet carries.
    fn carries(&self, i: usize) -> bool
        requires { i < length self.now.water.xs.now }
        ensures { result ≡ (convoys self.now.from self.now.to (get_or self.now.water.xs.now i nobody).order && counts (S.stays self.now.fleets) self.now.water.xs.now (slice_index_or self.now.water.xs.now i nobody)) }
    {
        self.water.xs[i].order.convoys(self.from, self.to)
            && self.fleets.stays(self.water.dislodged[i])
    }

    // Whether it lies beside what is reached so far, too.
    fn reaches(&self, i: usize, seen: RegionSet) -> bool
        requires { i < length self.now.water.xs.now }
        ensures { (qs : List ℕ) → Holds seen qs → result ≡ carrier (board_of self.now.water.atlas.now) (counts (S.stays self.now.fleets) self.now.water.xs.now) self.now.from self.now.to qs (slice_index_or self.now.water.xs.now i nobody) }
    {
        self.carries(i)
            && self
                .water
                .atlas
                .sail
                .beside(self.water.xs[i].unit.region)
                .touches(seen)
    }

    // What is reached so far, and all fleets beside it that carry and count.
    fn grow(&self, seen: RegionSet) -> RegionSet
        ensures { (qs : List ℕ) → Holds seen qs → Holds result (reached (board_of self.now.water.atlas.now) (counts (S.stays self.now.fleets) self.now.water.xs.now) self.now.from self.now.to qs self.now.water.xs.now) }
    {
        let mut next = seen;
        for (i, x) in self.water.xs.iter().enumerate() {
            if self.reaches(i, seen) {
                next.insert(x.unit.region);
            }
        }
        next
    }

    // All that is reached: at most as many times over as there are units, and no more than it takes.
    fn flood(&self) -> RegionSet
        ensures { Holds result (flood (length self.now.water.xs.now) (board_of self.now.water.atlas.now) (counts (S.stays self.now.fleets) self.now.water.xs.now) self.now.from self.now.to self.now.water.xs.now (self.now.from ∷ [])) }
    {
        let mut seen = RegionSet::EMPTY;
        seen.insert(self.from);
        for _ in 0..self.water.xs.len() {
            let next = self.grow(seen);
            if next == seen {
                break;
            }
            seen = next;
        }
        seen
    }

    fn lands(&self, seen: RegionSet) -> bool
        ensures { (qs : List ℕ) → Holds seen qs → result ≡ lands (board_of self.now.water.atlas.now) (counts (S.stays self.now.fleets) self.now.water.xs.now) self.now.from self.now.to qs self.now.water.xs.now }
    {
        for (i, x) in self.water.xs.iter().enumerate() {
            if self.reaches(i, seen) && self.water.atlas.sail.joined(x.unit.region, self.to) {
                return true;
            }
        }
        false
    }
}

impl<'a> Water<'a> {
    // Whether the fleets that carry and count make a chain from `from` to `to`.
    pub fn chain<S: Staying>(self, from: u8, to: u8, fleets: S) -> bool
        requires from { from < 128 }
        ensures { result ≡ chain (board_of self.entry.atlas.now) (counts (S.stays fleets) self.entry.xs.now) from to self.entry.xs.now }
    {
        let crossing = Crossing {
            water: self,
            from,
            to,
            fleets,
        };
        crossing.lands(crossing.flood())
    }
}
