// Who is dislodged and who has a path, for all units at once, as each round needs it.
ghost use Rattle.std.specs.Prelude.{◌≡◌, ℕ, ◌<◌, ◌≤◌, length, vec_len, vec_capacity};
ghost use Rattle.board.specs.Atlas.{board_of};
ghost use Rattle.assignment.specs.Places.{Inside};
ghost use Rattle.paths.specs.Paths.{path, paths_of, dislodged_of};

use super::filling::refill;
use super::staying::{Perhaps, Surely};
use super::water::Water;
use assignment::{Orders, Resolution};
use board::Atlas;
use values::Tri;

// Room is asked for, here and below, since the list is lent: who lends it keeps the room as a fact.
pub fn dislodged_into(orders: Orders, out: &mut Vec<Tri>)
    requires room { 128 ≤ vec_capacity out.old }
    ensures items { out.new.items ≡ dislodged_of orders.entry.list.now }
    ensures len { vec_len out.new ≡ length orders.entry.list.now }
    ensures cap { vec_capacity out.new ≡ vec_capacity out.old }
{
    refill(out, orders.list.iter().map(|x| orders.dislodged(*x)));
}

impl<'a> Water<'a> {
    fn path(self, x: &Resolution) -> Tri
        requires from { x.now.unit.region < 128 }
        ensures { result ≡ path (board_of self.entry.atlas.now) x.now self.entry.xs.now }
    {
        let from = x.unit.region;
        let to = x.order.aim();
        if !x.order.is_convoyed() {
            Tri::Yes
        } else if x.stranded {
            Tri::No
        } else if self.chain(from, to, Surely) {
            Tri::Yes
        } else if self.chain(from, to, Perhaps) {
            Tri::Open
        } else {
            Tri::No
        }
    }
}

// Every path into `out`; `dislodged` is filled on the way.
pub fn paths_into(atlas: &Atlas, orders: Orders, dislodged: &mut Vec<Tri>, out: &mut Vec<Tri>)
    requires inside { Inside orders.list.now }
    requires scratch { 128 ≤ vec_capacity dislodged.old }
    requires room { 128 ≤ vec_capacity out.old }
    ensures items { out.new.items ≡ paths_of (board_of atlas.now) orders.entry.list.now }
    ensures len { vec_len out.new ≡ length orders.entry.list.now }
    ensures cap { vec_capacity out.new ≡ vec_capacity out.old }
    ensures table { dislodged.new.items ≡ dislodged_of orders.entry.list.now }
    ensures scratch { vec_capacity dislodged.new ≡ vec_capacity dislodged.old }
{
    dislodged_into(orders, dislodged);
    let water = Water {
        atlas,
        xs: orders.list,
        dislodged: dislodged.as_slice(),
    };
    refill(out, water.xs.iter().map(|x| water.path(x)));
}
