// A phase of moves from orders as played to what has become of each.
ghost use Rattle.std.specs.Prelude.{◌≤◌, IfOk, vec_len};
ghost use Rattle.board.specs.Atlas.{board_of};
ghost use Rattle.assignment.specs.Places.{Inside};
ghost use Rattle.deciding.specs.Adjudicated.{Adjudicated};

use super::report::{Report, reports};
use super::ring::close_into;
use super::slate::Slate;
use assignment::{Orders, Resolution};
use board::Atlas;
use paths::paths_into;
use std::alloc::{AllocError, Global};
use values::Tri;

#[derive(Drop)]
pub struct Adjudication {
    // Before circular movements are closed, and after.
    pub settled: Vec<Resolution>,
    pub outcome: Vec<Resolution>,
    pub reports: Vec<Report>,
    // For each unit of the outcome whether it is dislodged, and whether it had a path: apart, since a round takes its paths as a slice.
    pub dislodged: Vec<Tri>,
    pub paths: Vec<Tri>,
}

pub fn adjudicate(
    heap: Global,
    atlas: &Atlas,
    fresh: Vec<Resolution>,
) -> Result<Adjudication, AllocError>
    requires few { vec_len fresh ≤ 128 }
    requires inside { Inside fresh.items }
    ensures { IfOk result (Adjudicated (board_of atlas.now) fresh.items) }
{
    let mut slate = Slate::new(heap, fresh)?;
    slate.settle(atlas);
    let Slate {
        lookup,
        orders: settled,
        spare: mut outcome,
        mut dislodged,
        mut paths,
    } = slate;
    close_into(settled.as_slice(), &mut outcome);
    let orders = Orders::new(&lookup, outcome.as_slice());
    paths_into(atlas, orders, &mut dislodged, &mut paths);
    let reports = reports(heap, orders, settled.as_slice())?;
    Ok(Adjudication {
        settled,
        outcome,
        reports,
        dislodged,
        paths,
    })
}
