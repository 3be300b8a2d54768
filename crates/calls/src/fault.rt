// Why a call came to nothing: a refusal, or want of memory. The one of files is another: the two crates share none that knows of either.
ghost use Rattle.std.specs.Prelude.{◌≡◌};
ghost use Rattle.calls.specs.declared.fault.Fault.TheVariants.{Refused, NoMemory};

use super::verdict::Refusal;
use std::alloc::{AllocError, AllocFailed as NoRoom};

#[derive(Clone, Copy)]
pub enum Fault {
    Refused(Refusal),
    NoMemory,
}

impl From<Refusal> for Fault {
    ghost from_gives = { λ e f. f ≡ Refused e };

    fn from(e: Refusal) -> Fault {
        Fault::Refused(e)
    }
}

impl From<AllocError> for Fault {
    ghost from_gives = { λ e f. f ≡ NoMemory };

    fn from(_e: AllocError) -> Fault {
        Fault::NoMemory
    }
}

impl<T: Drop> From<NoRoom<T>> for Fault {
    ghost from_gives = { λ e f. f ≡ NoMemory };

    fn from(_e: NoRoom<T>) -> Fault {
        Fault::NoMemory
    }
}
