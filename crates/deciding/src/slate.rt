// The orders of a phase while they are decided, and the room in which each round is worked out.
ghost use Rattle.std.specs.Prelude.{◌≡◌, ◌≤◌, IfOk, vec_len, vec_capacity};
ghost use Rattle.assignment.specs.Places.{Inside};
ghost use Rattle.assignment.specs.Lookup.{Indexed, Indexed-prop};
ghost use Rattle.paths.specs.Once.{Inside-prop};

use assignment::{Lookup, Resolution};
use std::alloc::{AllocError, Global};
use values::Tri;

#[derive(Drop)]
pub struct Slate {
    // The tables of these orders.
    pub(super) lookup: Lookup,
    pub orders: Vec<Resolution>,
    // For what the orders become next, and what is found of them in a round: apart from them, since these lists serve round after round.
    pub(super) spare: Vec<Resolution>,
    pub(super) dislodged: Vec<Tri>,
    pub(super) paths: Vec<Tri>,
    ghost indexed: { Indexed lookup orders.items } by { Indexed-prop lookup orders.items },
    ghost inside: { Inside orders.items } by { Inside-prop orders.items },
    ghost room: { 128 ≤ vec_capacity orders },
    ghost spare_room: { 128 ≤ vec_capacity spare },
    ghost dislodged_room: { 128 ≤ vec_capacity dislodged },
    ghost paths_room: { 128 ≤ vec_capacity paths },
}

impl Slate {
    pub fn new(heap: Global, fresh: Vec<Resolution>) -> Result<Slate, AllocError>
        requires few { vec_len fresh ≤ 128 }
        requires inside { Inside fresh.items }
        ensures { IfOk result (λ s. s.orders.items ≡ fresh.items) }
    {
        let lookup = Lookup::new(heap, fresh.as_slice())?;
        let mut orders = fresh;
        orders.reserve(128 - orders.len())?;
        let spare = Vec::with_capacity(heap, 128)?;
        let dislodged = Vec::with_capacity(heap, 128)?;
        let paths = Vec::with_capacity(heap, 128)?;
        Ok(Slate {
            lookup,
            orders,
            spare,
            dislodged,
            paths,
        })
    }
}
