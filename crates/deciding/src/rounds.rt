// Rounds: all orders decided anew, until nothing changes.
ghost use Rattle.std.specs.Prelude.{◌≡◌, ◌≤◌, false, length, vec_len, vec_capacity};
ghost use Rattle.board.specs.Atlas.{board_of};
ghost use Rattle.assignment.specs.Places.{Inside};
ghost use Rattle.assignment.specs.Lookup.{Indexed};
ghost use Rattle.paths.specs.Paths.{paths_of};
ghost use Rattle.deciding.specs.Rounds.{round, decided};

use super::slate::Slate;
use assignment::{Lookup, Orders, Resolution};
use board::Atlas;
use paths::paths_into;
use std::mem::swap;
use strength::Round;
use values::Tri;

// What a round knows of `orders`, with a table of their paths.
pub(super) fn known<'a>(atlas: &'a Atlas, orders: Orders<'a>, paths: &'a [Tri]) -> Round<'a>
    requires paths { paths.now ≡ paths_of (board_of atlas.now) orders.list.now }
    ensures atlas { result.atlas.now ≡ atlas.now }
    ensures orders { result.orders.list.now ≡ orders.entry.list.now }
{
    Round {
        atlas,
        orders,
        paths,
    }
}

// One round into `out`; whether something changed.
pub fn round_into(known: Round, out: &mut Vec<Resolution>) -> bool
    requires room { 128 ≤ vec_capacity out.old }
    ensures items { out.new.items ≡ round (board_of known.entry.atlas.now) known.entry.orders.list.now }
    ensures still { result ≡ false → out.new.items ≡ known.entry.orders.list.now }
    ensures len { vec_len out.new ≡ length known.entry.orders.list.now }
    ensures cap { vec_capacity out.new ≡ vec_capacity out.old }
{
    // No `refill`: whether something changed is found on the way.
    let mut changed = false;
    out.clear();
    for (i, x) in known.orders.list.iter().enumerate() {
        let value = known.decides(i);
        if value != x.value {
            changed = true;
        }
        out.push_reserved(Resolution { value, ..*x });
    }
    changed
}

// As many rounds as units and one more, or until one changes nothing.
pub fn decide_all(
    atlas: &Atlas,
    lookup: &Lookup,
    xs: &mut Vec<Resolution>,
    spare: &mut Vec<Resolution>,
    dislodged: &mut Vec<Tri>,
    paths: &mut Vec<Tri>,
)
    requires indexed { Indexed lookup.now xs.old.items }
    requires inside { Inside xs.old.items }
    requires room { 128 ≤ vec_capacity xs.old }
    requires spare { 128 ≤ vec_capacity spare.old }
    requires dislodged { 128 ≤ vec_capacity dislodged.old }
    requires paths { 128 ≤ vec_capacity paths.old }
    ensures items { xs.new.items ≡ decided (board_of atlas.now) xs.old.items }
    ensures indexed { Indexed lookup.now xs.new.items }
    ensures inside { Inside xs.new.items }
    ensures room { (128 ≤ vec_capacity xs.new) × (128 ≤ vec_capacity spare.new) }
    ensures tables { (128 ≤ vec_capacity dislodged.new) × (128 ≤ vec_capacity paths.new) }
{
    for _ in 0..=xs.len() {
        let orders = Orders::new(lookup, xs.as_slice());
        paths_into(atlas, orders, dislodged, paths);
        let known = known(atlas, orders, paths.as_slice());
        let changed = round_into(known, spare);
        swap(xs, spare);
        if !changed {
            break;
        }
    }
}

impl Slate {
    pub fn decide_all(&mut self, atlas: &Atlas)
        ensures { self.new.orders.items ≡ decided (board_of atlas.now) self.old.orders.items }
    {
        decide_all(
            atlas,
            &self.lookup,
            &mut self.orders,
            &mut self.spare,
            &mut self.dislodged,
            &mut self.paths,
        );
    }
}
