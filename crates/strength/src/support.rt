// One, and the supports that count: what stands behind a move, or behind whoever stays.
ghost use Rattle.std.specs.Prelude.{◌≡◌, Bool};
ghost use Rattle.std.specs.Fn.{FnReturnsAt};
ghost use Rattle.values.specs.Span.{sum, exactly};
ghost use Rattle.assignment.specs.declared.resolution.Resolution.{Resolution as ResolutionOf};
ghost use Rattle.strength.specs.Counting.{Counts};
ghost use Rattle.strength.specs.Strength.{support, support_but, full};

use assignment::{Orders, Resolution};
use values::Span;

// One, and the supports aimed at `r` that count.
pub fn one_and_support<F: Fn(&Resolution) -> bool>(orders: Orders, r: u8, counts: F) -> Span
    requires { F.IsAlwaysCallable counts }
    ensures { (test : ResolutionOf → Bool) → Counts (FnReturnsAt F.Fn counts) r test → result ≡ sum (exactly 1) (support test orders.entry.list.now) }
{
    let mut acc = Span::exactly(0);
    for &i in orders.aimed_at(r) {
        let x = orders.list[i as usize];
        if counts(&x) {
            acc = Span::counted(x.value).sum(acc);
        }
    }
    Span::exactly(1).sum(acc)
}

// One, and the support of the move `x`.
pub fn full(orders: Orders, x: Resolution) -> Span
    ensures { result ≡ full x orders.entry.list.now }
{
    let from = x.unit.region;
    let to = x.order.aim();
    one_and_support(orders, to, |y| y.order.supports_move(from, to))
}

// The same without what `power` supports.
pub fn full_but(orders: Orders, power: u8, x: Resolution) -> Span
    ensures { result ≡ sum (exactly 1) (support_but power x orders.entry.list.now) }
{
    let from = x.unit.region;
    let to = x.order.aim();
    one_and_support(
        orders,
        to,
        |y| y.order.supports_move(from, to) && power != y.unit.power,
    )
}
