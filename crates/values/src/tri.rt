// Yes, no and open: what is known of a move or a support while the others are still being decided.
ghost use Rattle.std.specs.Prelude.{◌≡◌, Bool};
ghost use Rattle.values.specs.Tri.{not_tri, and_tri, or_tri, sure, is_yes, is_no, is_open};

#[derive(Clone, Copy, PartialEq, Eq, PartialOrd, Ord)]
pub enum Tri {
    No,
    Open,
    Yes,
}

// What is known for sure.
impl From<bool> for Tri {
    ghost from_gives = { λ b t. t ≡ sure b };

    fn from(b: bool) -> Tri {
        if b { Tri::Yes } else { Tri::No }
    }
}

// Methods and no operators, as docs/DECISIONS.md has them.
impl Tri {
    pub fn not(self) -> Tri
        ensures { result ≡ not_tri self }
    {
        match self {
            Tri::No => Tri::Yes,
            Tri::Open => Tri::Open,
            Tri::Yes => Tri::No,
        }
    }

    pub fn and(self, other: Tri) -> Tri
        ensures { result ≡ and_tri self other }
    {
        self.min(other)
    }

    pub fn or(self, other: Tri) -> Tri
        ensures { result ≡ or_tri self other }
    {
        self.max(other)
    }

    pub fn is_yes(self) -> bool
        ensures { result ≡ is_yes self }
    {
        matches!(self, Tri::Yes)
    }

    pub fn is_no(self) -> bool
        ensures { result ≡ is_no self }
    {
        matches!(self, Tri::No)
    }

    pub fn is_open(self) -> bool
        ensures { result ≡ is_open self }
    {
        matches!(self, Tri::Open)
    }
}
