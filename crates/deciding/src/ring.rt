// Circular movement (the club: a ring): moves that wait only for one another all succeed.
ghost use Rattle.std.specs.Prelude.{◌≡◌, ◌≤◌, length, vec_len, vec_capacity};
ghost use Rattle.deciding.specs.Outcome.{in_ring, close_one, close};

use assignment::Resolution;
use paths::refill;
use values::Tri;

// Whether a unit, as it was settled, goes round in a ring.
pub fn in_ring(x: Resolution) -> bool
    ensures { result ≡ in_ring x }
{
    x.order.is_move() && x.value.is_open()
}

pub fn close_one(x: Resolution) -> Resolution
    ensures { result ≡ close_one x }
{
    let value = if in_ring(x) { Tri::Yes } else { x.value };
    Resolution { value, ..x }
}

// Each of the three that fill a list lent to them asks for room in it: `Slate`, which lends it, keeps the room as a fact.
pub fn close_into(xs: &[Resolution], out: &mut Vec<Resolution>)
    requires few { length xs.now ≤ 128 }
    requires room { 128 ≤ vec_capacity out.old }
    ensures items { out.new.items ≡ close xs.now }
    ensures len { vec_len out.new ≡ length xs.now }
    ensures cap { vec_capacity out.new ≡ vec_capacity out.old }
{
    refill(out, xs.iter().map(|x| close_one(*x)));
}
