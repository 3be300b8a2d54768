// The fleets of an assignment, and which of them are dislodged: what a path over water depends on.
ghost use Rattle.std.specs.Prelude.{◌≡◌};
ghost use Rattle.assignment.specs.Places.{Inside};
ghost use Rattle.paths.specs.Paths.{dislodged_of};
ghost use Rattle.paths.specs.Once.{Inside-prop};

use assignment::Resolution;
use board::Atlas;
use values::Tri;

// Whether each is dislodged stands beside the list, since one table of it serves all paths of a round.
#[derive(Clone, Copy)]
pub struct Water<'a> {
    pub atlas: &'a Atlas,
    pub xs: &'a [Resolution],
    // For each of them whether it is dislodged.
    pub dislodged: &'a [Tri],
    ghost inside: { Inside xs.now } by { Inside-prop xs.now },
    ghost table: { dislodged.now ≡ dislodged_of xs.now },
}
