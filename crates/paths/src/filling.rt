// An `extend` that cannot fail: what an iterator gives takes the place of what a vector held, which has room for it.
ghost use Rattle.std.specs.Prelude.{◌≡◌, ◌≤◌, vec_capacity};
ghost use Rattle.std.specs.Iterator.{IsFinite};
ghost use Rattle.std.specs.Iterator.Runs.{EachRunFrom, WholeRun};

pub fn refill<T: Drop, I: Iterator<Item = T> + Drop>(out: &mut Vec<T>, items: I)
    requires can { I.can_next items }
    requires finite { IsFinite (I.remaining items) }
    requires room { EachRunFrom I.next_gives items (λ p. p.len ≤ vec_capacity out.old) }
    ensures items { WholeRun I.next_gives items (λ p. out.new.items ≡ p.items) }
    ensures cap { vec_capacity out.new ≡ vec_capacity out.old }
{
    out.clear();
    for x in items {
        out.push_reserved(x);
    }
}
