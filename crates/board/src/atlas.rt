// A good board as the code holds it: its regions, and its edges as lists with the sets of neighbours beside them.
ghost use Rattle.std.specs.Prelude.{◌≡◌, Bool, true, vec_len};
ghost use Rattle.board.specs.Board.{good_board};

use super::region::Region;
use geography::Links;

#[derive(Drop)]
pub struct Atlas {
    pub regions: Vec<Region>,
    pub march: Links,
    pub sail: Links,
    ghost good: { good_board (record { regions = regions.items; march = march.edges.items; sail = sail.edges.items }) ≡ true },
}
