// A lawful game on a good board: who stands where, who waits to retreat, and who owns what.
ghost use Rattle.std.specs.Prelude.{◌≡◌, Bool, true};
ghost use Rattle.board.specs.Atlas.{board_of};
ghost use Rattle.game.specs.Lawful.{lawful};
ghost use Rattle.position.specs.Tables.{game_on};

use board::{Atlas, Unit};
use game::{Dislodged, Phase};
use geography::RegionSet;

#[derive(Drop)]
pub struct Position {
    pub atlas: Atlas,
    pub phase: Phase,
    pub units: Vec<Unit>,
    pub dislodged: Vec<Dislodged>,
    // Regions closed to retreats.
    pub barred: RegionSet,
    // For each region its owner, or nobody: a list of its own, as the definitions have it.
    pub owners: Vec<Option<u8>>,
    ghost legal: { lawful (board_of atlas) (game_on atlas phase units.items dislodged.items barred owners.items) ≡ true },
}
