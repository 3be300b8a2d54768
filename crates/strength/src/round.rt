// All that one round knows: the map, the orders, and how far each unit has a path. One move or support decided by all the others.
ghost use Rattle.std.specs.Prelude.{◌≡◌, ◌<◌, length, get_or, slice_index_or};
ghost use Rattle.values.specs.Span.{either, exactly};
ghost use Rattle.board.specs.Atlas.{board_of};
ghost use Rattle.assignment.specs.Assignment.{nobody};
ghost use Rattle.paths.specs.Paths.{path, paths_of};
ghost use Rattle.strength.specs.Strength.{attack, prevent};
ghost use Rattle.strength.specs.Decide.{rival, beats_rivals, move_succeeds, cuts, cut, support_stands, decides};

use super::strengths::{attack_on, prevent_of, to_beat};
use assignment::{Orders, Resolution};
use board::{Atlas, Order};
use values::{Span, Tri};

// Whether `y` is another move to the region that `x` goes to.
pub fn rival(x: Resolution, y: Resolution) -> bool
    ensures { result ≡ rival x y }
{
    y.order.goes_to(x.order.aim()) && x.unit.region != y.unit.region
}

// Whether `y`, if it has an attack, cuts the support `x`.
pub fn cuts(x: Resolution, y: Resolution) -> bool
    ensures { result ≡ cuts x y }
{
    y.order.goes_to(x.unit.region) && x.unit.power != y.unit.power && y.unit.region != x.order.aim()
}

// The path of the unit in place `i`, from the table of a round. No method of `Round`, since it asks for no tables of the orders.
pub fn path_at(atlas: &Atlas, paths: &[Tri], i: usize, xs: &[Resolution]) -> Tri
    requires paths { paths.now ≡ paths_of (board_of atlas.now) xs.now }
    requires place { i < length xs.now }
    ensures { result ≡ path (board_of atlas.now) (slice_index_or xs.now i nobody) xs.now }
{
    paths[i]
}

// Paths stand beside the orders, since one list of them serves round after round.
#[derive(Clone, Copy)]
pub struct Round<'a> {
    pub atlas: &'a Atlas,
    pub orders: Orders<'a>,
    pub paths: &'a [Tri],
    ghost known: { paths.now ≡ paths_of (board_of atlas.now) orders.list.now },
}

impl<'a> Round<'a> {
    // The strength of the move in place `i`, which without a path is nothing.
    fn over_path(self, i: usize, strength: Span) -> Span
        requires place { i < length self.orders.list.now }
        ensures { result ≡ either (path (board_of self.entry.atlas.now) (slice_index_or self.entry.orders.list.now i nobody) self.entry.orders.list.now) strength (exactly 0) }
    {
        let path = path_at(self.atlas, self.paths, i, self.orders.list);
        Span::either(path, strength, Span::exactly(0))
    }

    // The attack of the unit in place `i`, whose order is a move. Each method asks of its own `i` that there is such a place: no fact
    // about the round.
    pub fn attack(self, i: usize) -> Span
        requires place { i < length self.orders.list.now }
        ensures { result ≡ attack (board_of self.entry.atlas.now) (slice_index_or self.entry.orders.list.now i nobody) self.entry.orders.list.now }
    {
        let x = self.orders.list[i];
        let there = self.orders.who(x.order.aim());
        self.over_path(i, attack_on(self.orders, x, there))
    }

    // How much the move in place `i` keeps others out of the region that it goes to.
    pub fn prevent(self, i: usize) -> Span
        requires place { i < length self.orders.list.now }
        ensures { result ≡ prevent (board_of self.entry.atlas.now) (slice_index_or self.entry.orders.list.now i nobody) self.entry.orders.list.now }
    {
        let x = self.orders.list[i];
        let there = self.orders.who(x.order.aim());
        self.over_path(i, prevent_of(self.orders, x, there))
    }

    // Whether the attack `a` of `x` is greater than what every rival prevents.
    pub fn beats_rivals(self, a: Span, x: Resolution) -> Tri
        ensures { result ≡ beats_rivals (board_of self.entry.atlas.now) a x self.entry.orders.list.now self.entry.orders.list.now }
    {
        let mut acc = Tri::Yes;
        for &i in self.orders.aimed_at(x.order.aim()) {
            let i = i as usize;
            if rival(x, self.orders.list[i]) {
                acc = a.greater(self.prevent(i)).and(acc);
            }
        }
        acc
    }

    // Whether the move in place `i` succeeds.
    pub fn move_succeeds(self, i: usize) -> Tri
        requires place { i < length self.orders.list.now }
        ensures { result ≡ move_succeeds (board_of self.entry.atlas.now) (slice_index_or self.entry.orders.list.now i nobody) self.entry.orders.list.now }
    {
        let x = self.orders.list[i];
        let a = self.attack(i);
        let b = to_beat(self.orders, x, self.orders.who(x.order.aim()));
        match a.greater(b) {
            Tri::No => Tri::No,
            wins => wins.and(self.beats_rivals(a, x)),
        }
    }

    // Whether the support `x` is cut.
    pub fn cut(self, x: Resolution) -> Tri
        ensures { result ≡ cut (board_of self.entry.atlas.now) x self.entry.orders.list.now self.entry.orders.list.now }
    {
        let mut acc = Tri::No;
        for &i in self.orders.aimed_at(x.unit.region) {
            let i = i as usize;
            if cuts(x, self.orders.list[i]) {
                acc = self.attack(i).greater(Span::exactly(0)).or(acc);
            }
        }
        acc
    }

    // A support stands unless it is cut or its unit dislodged.
    pub fn support_stands(self, x: Resolution) -> Tri
        ensures { result ≡ support_stands (board_of self.entry.atlas.now) x self.entry.orders.list.now }
    {
        self.cut(x).or(self.orders.dislodged(x)).not()
    }

    // What the others decide of the order in place `i`.
    pub fn decides(self, i: usize) -> Tri
        requires place { i < length self.orders.list.now }
        ensures { result ≡ decides (board_of self.entry.atlas.now) (slice_index_or self.entry.orders.list.now i nobody) self.entry.orders.list.now (get_or self.entry.orders.list.now i nobody).order }
    {
        let x = self.orders.list[i];
        match x.order {
            Order::Move { .. } => self.move_succeeds(i),
            Order::SupportHold { .. } | Order::SupportMove { .. } => self.support_stands(x),
            Order::Hold | Order::Convoy { .. } => Tri::No,
        }
    }
}
