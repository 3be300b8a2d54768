// Who was dislodged, and where it goes.
ghost use Rattle.board.specs.declared.unit.Unit.{Unit as Piece};

use board::Unit;
use tables::Standing;

#[derive(Clone, Copy)]
pub struct Leaving {
    pub unit: Unit,
    pub goal: Option<u8>,
}

impl Standing for Leaving {
    ghost piece = { λ x. x.unit };

    fn unit(self) -> Unit {
        self.unit
    }
}
