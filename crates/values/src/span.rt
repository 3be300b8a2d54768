// A strength as far as it is decided: the least and the greatest that it can be.
ghost use Rattle.std.specs.Prelude.{◌≡◌, ℕ, ◌+◌, ◌<◌, ◌≤◌};
ghost use Rattle.values.specs.Span.{sum, exactly, greater, either, counted};

use super::tri::Tri;

#[derive(Clone, Copy)]
pub struct Span {
    pub least: u8,
    pub greatest: u8,
}

// Methods and no operators, as docs/DECISIONS.md has them.
impl Span {
    pub fn exactly(n: u8) -> Span
        ensures { result ≡ exactly n }
    {
        Span {
            least: n,
            greatest: n,
        }
    }

    pub fn sum(self, other: Span) -> Span
        requires least { self.least + other.least < 256 }
        requires greatest { self.greatest + other.greatest < 256 }
        ensures { result ≡ sum self other }
    {
        Span {
            least: self.least + other.least,
            greatest: self.greatest + other.greatest,
        }
    }

    // Whether this strength is above the other.
    pub fn greater(self, other: Span) -> Tri
        ensures { result ≡ greater self other }
    {
        if other.greatest < self.least {
            Tri::Yes
        } else if self.greatest <= other.least {
            Tri::No
        } else {
            Tri::Open
        }
    }

    // `a` if `t`, else `b`; while `t` is open, whatever either of them may be.
    pub fn either(t: Tri, a: Span, b: Span) -> Span
        ensures { result ≡ either t a b }
    {
        match t {
            Tri::Yes => a,
            Tri::No => b,
            Tri::Open => Span {
                least: a.least.min(b.least),
                greatest: a.greatest.max(b.greatest),
            },
        }
    }

    // What one support counts.
    pub fn counted(t: Tri) -> Span
        ensures { result ≡ counted t }
    {
        match t {
            Tri::No => Span::exactly(0),
            Tri::Open => Span {
                least: 0,
                greatest: 1,
            },
            Tri::Yes => Span::exactly(1),
        }
    }
}
