// Those dislodged, and where each of them goes.
ghost use Rattle.std.specs.Prelude.{◌≡◌, ◌<◌, true, map, length, IfOk, vec_len};
ghost use Rattle.values.specs.Fold.{all};
ghost use Rattle.board.specs.Board.{stands};
ghost use Rattle.board.specs.Atlas.{board_of};
ghost use Rattle.game.specs.Game.{Game};
ghost use Rattle.game.specs.Lawful.{units_in};
ghost use Rattle.game.specs.Retreats.{may_retreat, retreat_of};
ghost use Rattle.retreats.specs.Retreating.{Closed};

use board::{Atlas, Order};
use game::Dislodged;
use geography::RegionSet;
use std::alloc::{AllocError, Global};
use texts::{Texts, order_for};

// Those dislodged, what players wrote for them, and the regions that nobody may retreat to.
#[derive(Clone, Copy)]
pub struct Pending<'a> {
    pub atlas: &'a Atlas,
    pub texts: &'a Texts,
    pub dislodged: &'a [Dislodged],
    pub closed: RegionSet,
    ghost units_stand: { all (stands (board_of atlas.now)) (units_in dislodged.now) ≡ true },
}

impl Pending<'_> {
    fn may_retreat(&self, d: Dislodged, to: u8) -> bool
        ensures { (g : Game) → Closed self.now.closed g → result ≡ may_retreat (board_of self.now.atlas.now) g d to }
    {
        self.atlas.steps(d.unit, to) && !self.closed.contains(to) && d.from != Some(to)
    }

    // Only a step by land or sea is a retreat; every other order, or none, is none. Each case is written out, as the rules do.
    fn retreat_of(&self, d: Dislodged) -> Option<u8>
        requires { d.unit.power < 7 }
        ensures { (g : Game) → Closed self.now.closed g → result ≡ retreat_of (board_of self.now.atlas.now) g self.now.texts.now.list.items d }
    {
        match order_for(self.texts, d.unit) {
            Order::Hold => None,
            Order::Move { to, convoyed } => (!convoyed && self.may_retreat(d, to)).then_some(to),
            Order::SupportHold { .. } => None,
            Order::SupportMove { .. } => None,
            Order::Convoy { .. } => None,
        }
    }

    // Where each of those dislodged retreats to, if it does.
    pub fn goals(&self, heap: Global) -> Result<Vec<Option<u8>>, AllocError>
        ensures { IfOk result (λ v. (vec_len v ≡ length self.now.dislodged.now) × ((g : Game) → Closed self.now.closed g → v.items ≡ map (retreat_of (board_of self.now.atlas.now) g self.now.texts.now.list.items) self.now.dislodged.now)) }
    {
        self.dislodged
            .iter()
            .map(|d| self.retreat_of(*d))
            .collect(heap)
    }
}
