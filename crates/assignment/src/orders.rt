// Units with their orders and the tables of just this list: how one looks things up.
ghost use Rattle.std.specs.Prelude.{◌≡◌, ◌<◌, length};
ghost use Rattle.std.specs.List.{All};
ghost use Rattle.assignment.specs.Lookup.{Indexed, Indexed-prop};

use super::lookup::Lookup;
use super::resolution::Resolution;
use values::Tri;

#[derive(Clone, Copy)]
pub struct Orders<'a> {
    pub list: &'a [Resolution],
    pub(super) lookup: &'a Lookup,
    ghost indexed: { Indexed lookup.now list.now } by { Indexed-prop lookup.now list.now },
}

impl<'a> Orders<'a> {
    ghost use Rattle.assignment.specs.Assignment.{who, entered, dislodged};
    ghost use Rattle.assignment.specs.Places.{places_aimed};

    pub fn new(lookup: &'a Lookup, list: &'a [Resolution]) -> Orders<'a>
        requires indexed { Indexed lookup.now list.now }
        ensures { result.list.now ≡ list.now }
    {
        Orders { list, lookup }
    }

    // Who stands in `r`.
    pub fn who(self, r: u8) -> Option<Resolution>
        ensures { result ≡ who r self.entry.list.now }
    {
        let i = self.lookup.place[r as usize]?;
        Some(self.list[i as usize])
    }

    // The places of the orders aimed at `r`, the last first.
    pub fn aimed_at(self, r: u8) -> &'a [u8]
        ensures places { result.now ≡ places_aimed r self.entry.list.now }
        ensures within { All (λ i. i < length self.entry.list.now) result.now }
    {
        &self.lookup.aimed[r as usize]
    }

    // Whether some move into `r` succeeds. A loop, as the three in `strength`: each turn reads a place of the list, whose bound a
    // closure would have to ask for again.
    pub fn entered(self, r: u8) -> Tri
        ensures { result ≡ entered r self.entry.list.now }
    {
        let mut acc = Tri::No;
        for &i in self.aimed_at(r) {
            let x = self.list[i as usize];
            if x.order.goes_to(r) {
                acc = x.value.or(acc);
            }
        }
        acc
    }

    // Whether `x` is dislodged.
    pub fn dislodged(self, x: Resolution) -> Tri
        ensures { result ≡ dislodged x self.entry.list.now }
    {
        let entered = self.entered(x.unit.region);
        if x.order.is_move() {
            x.value.not().and(entered)
        } else {
            entered
        }
    }
}
