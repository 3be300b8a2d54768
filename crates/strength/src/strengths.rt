// Strengths of moves as far as they are decided: what attacks, what prevents, what has to be beaten.
ghost use Rattle.std.specs.Prelude.{◌≡◌};
ghost use Rattle.strength.specs.Strength.{head_to_head, vacates, against, attack_on, prevent_of, hold_of, to_beat};

use super::support::{full, full_but, one_and_support};
use assignment::{Orders, Resolution};
use values::{Span, Tri};

// Two units that move to each other's region, neither over water (the club: they meet).
pub fn head_to_head(x: Resolution, y: Resolution) -> bool
    ensures { result ≡ head_to_head x y }
{
    y.order.goes_to(x.unit.region)
        && x.order.goes_to(y.unit.region)
        && !x.order.is_convoyed()
        && !y.order.is_convoyed()
}

// Whether `y`, in the region that `x` goes to, makes room for `x`.
pub fn vacates(x: Resolution, y: Resolution) -> Tri
    ensures { result ≡ vacates x y }
{
    if y.order.is_move() && !head_to_head(x, y) {
        y.value
    } else {
        Tri::No
    }
}

// The attack of `x` on `y`, if `y` stays.
pub fn against(orders: Orders, x: Resolution, y: Resolution) -> Span
    ensures { result ≡ against x orders.entry.list.now y }
{
    if x.unit.power == y.unit.power {
        Span::exactly(0)
    } else {
        full_but(orders, y.unit.power, x)
    }
}

// This, `prevent_of` and `to_beat` take the mover and who stands there, as the rules have it: a struct would be made for one call.
pub fn attack_on(orders: Orders, x: Resolution, there: Option<Resolution>) -> Span
    ensures { result ≡ attack_on x orders.entry.list.now there }
{
    match there {
        None => full(orders, x),
        // Only what is needed is added up.
        Some(y) => match vacates(x, y) {
            Tri::Yes => full(orders, x),
            Tri::No => against(orders, x, y),
            Tri::Open => Span::either(Tri::Open, full(orders, x), against(orders, x, y)),
        },
    }
}

pub fn prevent_of(orders: Orders, x: Resolution, there: Option<Resolution>) -> Span
    ensures { result ≡ prevent_of x orders.entry.list.now there }
{
    match there {
        Some(y) if head_to_head(x, y) => {
            Span::either(y.value, Span::exactly(0), full(orders, x))
        }
        _ => full(orders, x),
    }
}

// The strength of `y` in its own region.
pub fn hold_of(orders: Orders, y: Resolution) -> Span
    ensures { result ≡ hold_of orders.entry.list.now y }
{
    if y.order.is_move() {
        Span::either(y.value, Span::exactly(0), Span::exactly(1))
    } else {
        let at = y.unit.region;
        one_and_support(orders, at, |z| z.order.supports_hold(at))
    }
}

// What `x` has to beat in the region that it goes to.
pub fn to_beat(orders: Orders, x: Resolution, there: Option<Resolution>) -> Span
    ensures { result ≡ to_beat x orders.entry.list.now there }
{
    match there {
        None => Span::exactly(0),
        Some(y) if head_to_head(x, y) => full(orders, y),
        Some(y) => hold_of(orders, y),
    }
}
