// The board after a phase of moves: who stands where, who was dislodged, and which regions were contested.
ghost use Rattle.std.specs.Prelude.{◌≡◌, ◌&&◌, List, length, IfOk, vec_len};
ghost use Rattle.geography.specs.RegionSet.{Holds};
ghost use Rattle.board.specs.Board.{on_board};
ghost use Rattle.board.specs.Order.{aim};
ghost use Rattle.board.specs.Atlas.{board_of};
ghost use Rattle.assignment.specs.declared.resolution.Resolution.{Resolution as Resolved};
ghost use Rattle.game.specs.AfterMoves.{moved_unit, is_dislodged, standing, displaced, contested};
ghost use Rattle.aftermath.specs.Arrivals.{arrival_of, origin, Arrived, succeeded, repelled, paths_of};

use assignment::Resolution;
use board::{Atlas, Order, Unit};
use game::Dislodged;
use geography::RegionSet;
use std::alloc::{AllocError, Global};
use values::Tri;

// The move that came into a region: named cases, since an `Option` in the table's `Option` would not say which none is over water.
#[derive(Clone, Copy)]
pub enum Arrival {
    From(u8),
    OverWater,
}

impl Arrival {
    fn of(x: Resolution) -> Arrival
        ensures { result ≡ arrival_of x }
    {
        if x.order.is_convoyed() {
            Arrival::OverWater
        } else {
            Arrival::From(x.unit.region)
        }
    }

    // The region that it came from, unless it came over water.
    fn origin(self) -> Option<u8>
        ensures { result ≡ origin self }
    {
        match self {
            Arrival::From(region) => Some(region),
            Arrival::OverWater => None,
        }
    }
}

fn succeeded(x: Resolution) -> bool
    ensures { result ≡ succeeded x }
{
    x.order.is_move() && x.value.is_yes()
}

// For each region which move came into it: from the last to the first, so that the first one to come in stays.
pub fn arrivals(heap: Global, xs: &[Resolution]) -> Result<Vec<Option<Arrival>>, AllocError>
    ensures { IfOk result (λ v. (vec_len v ≡ 256) × Arrived v.items xs.now) }
{
    let mut table = vec![in heap; None; 256]?;
    for x in xs.iter().rev() {
        if succeeded(*x) {
            table[x.order.aim() as usize] = Some(Arrival::of(*x));
        }
    }
    Ok(table)
}

// Some move came into its region, and its own move, if it has one, came to nothing.
fn is_dislodged(table: &[Option<Arrival>], x: Resolution) -> bool
    requires { length table.now ≡ 256 }
    ensures { (xs : List Resolved) → Arrived table.now xs → result ≡ is_dislodged xs x }
{
    let entered = table[x.unit.region as usize].is_some();
    let failed = x.value.is_no();
    if x.order.is_move() {
        failed && entered
    } else {
        entered
    }
}

fn moved_unit(x: Resolution) -> Unit
    ensures { result ≡ moved_unit x }
{
    if succeeded(x) {
        Unit {
            power: x.unit.power,
            region: x.order.aim(),
            fleet: x.unit.fleet,
        }
    } else {
        x.unit
    }
}

pub fn standing(
    heap: Global,
    table: &[Option<Arrival>],
    xs: &[Resolution],
) -> Result<Vec<Unit>, AllocError>
    requires long { length table.now ≡ 256 }
    requires arrived { Arrived table.now xs.now }
    ensures { IfOk result (λ v. v.items ≡ standing xs.now) }
{
    let mut out = Vec::new(heap);
    for x in xs {
        if !is_dislodged(table, *x) {
            out.push(moved_unit(*x))?;
        }
    }
    Ok(out)
}

// Who was dislodged, with the region that the attack came from.
pub fn displaced(
    heap: Global,
    table: &[Option<Arrival>],
    xs: &[Resolution],
) -> Result<Vec<Dislodged>, AllocError>
    requires long { length table.now ≡ 256 }
    requires arrived { Arrived table.now xs.now }
    ensures { IfOk result (λ v. v.items ≡ displaced xs.now) }
{
    let mut out = Vec::new(heap);
    for x in xs {
        if is_dislodged(table, *x) {
            let from = table[x.unit.region as usize].and_then(Arrival::origin);
            out.push(Dislodged { unit: x.unit, from })?;
        }
    }
    Ok(out)
}

// A move within the board that has a path and came to nothing.
fn is_repelled(atlas: &Atlas, x: Resolution, path: Tri) -> bool
    ensures { result ≡ (repelled x path && on_board (board_of atlas.now) (aim x.order)) }
{
    x.order.is_move() && x.value.is_no() && path.is_yes() && atlas.on_board(x.order.aim())
}

// Each region to which some move with a path came to nothing.
pub fn contested(atlas: &Atlas, xs: &[Resolution], paths: &[Tri]) -> RegionSet
    requires { paths.now ≡ paths_of (board_of atlas.now) xs.now }
    ensures { Holds result (contested (board_of atlas.now) xs.now) }
{
    let mut s = RegionSet::EMPTY;
    for (mover, path) in xs.iter().zip(paths) {
        if is_repelled(atlas, *mover, *path) {
            s.insert(mover.order.aim());
        }
    }
    s
}
