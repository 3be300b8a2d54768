// A way over water that is asked for, and which fleets count for it.
ghost use Rattle.std.specs.Prelude.{◌<◌};

use super::staying::Staying;
use super::water::Water;

#[derive(Drop)]
pub struct Crossing<'a, S: Staying> {
    pub(super) water: Water<'a>,
    pub(super) from: u8,
    pub(super) to: u8,
    pub(super) fleets: S,
    ghost start: { from < 128 },
}
