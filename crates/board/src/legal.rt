// What the board lets a unit do.
ghost use Rattle.std.specs.Prelude.{◌≡◌, Bool, ◌&&◌};
ghost use Rattle.board.specs.Board.{Board, on_board, coastal, at_sea, can_stand, region_at};
ghost use Rattle.board.specs.Legal.{steps, crosses, apart, legal, as_played};
ghost use Rattle.board.specs.Atlas.{board_of};

use super::atlas::Atlas;
use super::order::Order;
use super::region::can_stand;
use super::unit::Unit;

impl Atlas {
    pub fn on_board(&self, r: u8) -> bool
        ensures { result ≡ on_board (board_of self.now) r }
    {
        (r as usize) < self.regions.len()
    }

    // This and the next are two tests of the rules, each with its name.
    pub fn coastal(&self, r: u8) -> bool
        ensures { result ≡ coastal (board_of self.now) r }
    {
        self.regions
            .get(r as usize)
            .is_some_and(|region| region.kind.is_coast())
    }

    pub fn at_sea(&self, r: u8) -> bool
        ensures { result ≡ at_sea (board_of self.now) r }
    {
        self.regions
            .get(r as usize)
            .is_some_and(|region| region.kind.is_sea())
    }

    // Whether a fleet, or else an army, can be in `r`.
    pub fn can_stand(&self, fleet: bool, r: u8) -> bool
        ensures { result ≡ can_stand (board_of self.now) fleet r }
    {
        can_stand(self.regions.as_slice(), fleet, r)
    }

    pub fn steps(&self, u: Unit, t: u8) -> bool
        ensures { result ≡ steps (board_of self.now) u t }
    {
        if u.fleet {
            self.sail.joined(u.region, t)
        } else {
            self.march.joined(u.region, t)
        }
    }

    fn crosses(&self, u: Unit, t: u8) -> bool
        ensures { result ≡ crosses (board_of self.now) u t }
    {
        !u.fleet && self.coastal(u.region) && self.coastal(t) && t != u.region
    }

    fn apart(&self, f: u8, t: u8) -> bool
        ensures { result ≡ apart (board_of self.now) f t }
    {
        self.on_board(f) && self.on_board(t) && f != t
    }

    pub fn legal(&self, u: Unit, o: Order) -> bool
        ensures { result ≡ legal (board_of self.now) u o }
    {
        match o {
            Order::Hold => true,
            Order::Move { to, convoyed } => {
                if convoyed {
                    self.crosses(u, to)
                } else {
                    self.steps(u, to)
                }
            }
            Order::SupportHold { at } => self.steps(u, at),
            Order::SupportMove { from, to } => self.steps(u, to)
                && from != u.region
                && self.apart(from, to),
            Order::Convoy { from, to } => u.fleet && self.at_sea(u.region) && self.apart(from, to),
        }
    }

    // The order as played: what can't be carried out is a hold.
    pub fn as_played(&self, u: Unit, o: Order) -> Order
        ensures { result ≡ as_played (board_of self.now) u o }
    {
        if self.legal(u, o) { o } else { Order::Hold }
    }
}
