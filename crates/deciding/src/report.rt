// What is told of a unit after a phase of moves.
ghost use Rattle.std.specs.Prelude.{◌≡◌, map, IfOk};
ghost use Rattle.deciding.specs.Outcome.{report_one};

use super::ring::{close_one, in_ring};
use assignment::{Orders, Resolution};
use board::{Order, Unit};
use std::alloc::{AllocError, Global};

#[derive(Clone, Copy)]
pub struct Report {
    // Where it stood before.
    pub unit: Unit,
    // The order as played.
    pub order: Order,
    // The move or support succeeded; false for holds and convoys.
    pub success: bool,
    pub dislodged: bool,
    // The move succeeded by closing a circular movement (the club: a ring).
    pub ring: bool,
    // The paradox rule took the move's path (the club: it was kept).
    pub stranded: bool,
}

// Of `x`, as it was settled.
pub fn report_one(outcome: Orders, x: Resolution) -> Report
    ensures { result ≡ report_one outcome.entry.list.now x }
{
    let closed = close_one(x);
    Report {
        unit: x.unit,
        order: x.order,
        success: closed.value.is_yes(),
        dislodged: outcome.dislodged(closed).is_yes(),
        ring: in_ring(x),
        stranded: x.stranded,
    }
}

pub fn reports(
    heap: Global,
    outcome: Orders,
    settled: &[Resolution],
) -> Result<Vec<Report>, AllocError>
    ensures { IfOk result (λ v. v.items ≡ map (report_one outcome.entry.list.now) settled.now) }
{
    settled
        .iter()
        .map(|x| report_one(outcome, *x))
        .collect(heap)
}
