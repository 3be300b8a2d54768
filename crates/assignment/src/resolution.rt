// A unit with its order as played, and what is decided of it.
use board::{Order, Unit};
use values::Tri;

#[derive(Clone, Copy)]
pub struct Resolution {
    pub unit: Unit,
    pub order: Order,
    // Whether the move or the support succeeds (the club: comes about). Holds and convoys are never asked.
    pub value: Tri,
    // The paradox rule took this army's path (the club: it was kept).
    pub stranded: bool,
}
