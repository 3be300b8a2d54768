// What was resolved, with the table of which move came into each region.
ghost use Rattle.std.specs.Prelude.{◌≡◌, IfOk, vec_len};
ghost use Rattle.game.specs.AfterMoves.{standing, displaced};
ghost use Rattle.aftermath.specs.Arrivals.{Arrived, Arrived-prop};

use super::after_moves::{Arrival, arrivals, displaced, standing};
use assignment::Resolution;
use board::Unit;
use game::Dislodged;
use std::alloc::{AllocError, Global};

#[derive(Drop)]
pub struct Arrivals<'a> {
    pub xs: &'a [Resolution],
    pub table: Vec<Option<Arrival>>,
    pub ghost long: { vec_len table ≡ 256 },
    pub ghost arrived: { Arrived table.items xs.now } by { Arrived-prop table.items xs.now },
}

impl<'a> Arrivals<'a> {
    pub fn of(heap: Global, xs: &'a [Resolution]) -> Result<Arrivals<'a>, AllocError>
        ensures { IfOk result (λ a. a.xs.now ≡ xs.now) }
    {
        let table = arrivals(heap, xs)?;
        Ok(Arrivals { xs, table })
    }

    pub fn standing(&self, heap: Global) -> Result<Vec<Unit>, AllocError>
        ensures { IfOk result (λ v. v.items ≡ standing self.now.xs.now) }
    {
        standing(heap, self.table.as_slice(), self.xs)
    }

    pub fn displaced(&self, heap: Global) -> Result<Vec<Dislodged>, AllocError>
        ensures { IfOk result (λ v. v.items ≡ displaced self.now.xs.now) }
    {
        displaced(heap, self.table.as_slice(), self.xs)
    }
}
