// Which fleets are taken to stay, by what is known so far of whether they are dislodged.
ghost use Rattle.std.specs.Prelude.{◌≡◌, Bool, not};
ghost use Rattle.values.specs.declared.tri.Tri.{Tri as TriOf};
ghost use Rattle.values.specs.Tri.{is_yes, is_no};

use values::Tri;

// A trait and no closure: the ghost fields of a crossing cannot say that a closure may be called.
pub trait Staying: Copy {
    ghost stays: { Self → TriOf → Bool };

    fn stays(self, dislodged: Tri) -> bool
        ensures { result ≡ stays self dislodged };
}

// Those that are surely not dislodged.
#[derive(Clone, Copy)]
pub struct Surely;

impl Staying for Surely {
    ghost stays = { λ s d. is_no d };

    fn stays(self, dislodged: Tri) -> bool {
        dislodged.is_no()
    }
}

// Those that are not surely dislodged.
#[derive(Clone, Copy)]
pub struct Perhaps;

impl Staying for Perhaps {
    ghost stays = { λ s d. not (is_yes d) };

    fn stays(self, dislodged: Tri) -> bool {
        !dislodged.is_yes()
    }
}
