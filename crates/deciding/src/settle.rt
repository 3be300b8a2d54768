// Rounds, and after a paradox rounds once more.
ghost use Rattle.std.specs.Prelude.{◌≡◌, ◌≤◌, vec_capacity};
ghost use Rattle.board.specs.Atlas.{board_of};
ghost use Rattle.assignment.specs.Places.{Inside};
ghost use Rattle.assignment.specs.Lookup.{Indexed};
ghost use Rattle.deciding.specs.Outcome.{settle};

use super::paradox::{paradox, strand_into};
use super::rounds::decide_all;
use super::slate::Slate;
use assignment::{Lookup, Orders, Resolution};
use board::Atlas;
use paths::paths_into;
use std::mem::swap;
use values::Tri;

pub fn settle(
    atlas: &Atlas,
    lookup: &Lookup,
    xs: &mut Vec<Resolution>,
    spare: &mut Vec<Resolution>,
    dislodged: &mut Vec<Tri>,
    paths: &mut Vec<Tri>,
)
    requires indexed { Indexed lookup.now xs.old.items }
    requires inside { Inside xs.old.items }
    requires room { 128 ≤ vec_capacity xs.old }
    requires spare { 128 ≤ vec_capacity spare.old }
    requires dislodged { 128 ≤ vec_capacity dislodged.old }
    requires paths { 128 ≤ vec_capacity paths.old }
    ensures items { xs.new.items ≡ settle (board_of atlas.now) xs.old.items }
    ensures indexed { Indexed lookup.now xs.new.items }
    ensures inside { Inside xs.new.items }
    ensures room { (128 ≤ vec_capacity xs.new) × (128 ≤ vec_capacity spare.new) }
    ensures tables { (128 ≤ vec_capacity dislodged.new) × (128 ≤ vec_capacity paths.new) }
{
    decide_all(atlas, lookup, xs, spare, dislodged, paths);
    let orders = Orders::new(lookup, xs.as_slice());
    paths_into(atlas, orders, dislodged, paths);
    if !paradox(atlas, paths.as_slice(), xs.as_slice()) {
        return;
    }
    strand_into(atlas, paths.as_slice(), xs.as_slice(), spare);
    swap(xs, spare);
    decide_all(atlas, lookup, xs, spare, dislodged, paths);
}

impl Slate {
    pub fn settle(&mut self, atlas: &Atlas)
        ensures { self.new.orders.items ≡ settle (board_of atlas.now) self.old.orders.items }
    {
        settle(
            atlas,
            &self.lookup,
            &mut self.orders,
            &mut self.spare,
            &mut self.dislodged,
            &mut self.paths,
        );
    }
}
