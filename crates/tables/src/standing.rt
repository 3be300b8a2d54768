// Whoever stands in a region, or stood there: units, those dislodged, and units that are told of.
ghost use Rattle.std.specs.Prelude.{◌≡◌};
ghost use Rattle.board.specs.declared.unit.Unit.{Unit as Piece};

use board::Unit;
use deciding::Report;
use game::Dislodged;

pub trait Standing: Copy {
    ghost piece: { Self → Piece };

    fn unit(self) -> Unit
        ensures { result ≡ piece self };
}

impl Standing for Unit {
    ghost piece = { λ u. u };

    fn unit(self) -> Unit {
        self
    }
}

impl Standing for Dislodged {
    ghost piece = { λ d. d.unit };

    fn unit(self) -> Unit {
        self.unit
    }
}

impl Standing for Report {
    ghost piece = { λ x. x.unit };

    fn unit(self) -> Unit {
        self.unit
    }
}
