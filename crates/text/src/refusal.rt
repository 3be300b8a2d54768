// Why a file is refused, and at which line.
ghost use Rattle.std.specs.Prelude.{◌≡◌};
ghost use Rattle.text.specs.declared.refusal.Fault.TheVariants.{At, NoMemory};
ghost use Rattle.text.specs.Refusal.{number, unreadable, misfit};

use std::alloc::{AllocError, AllocFailed};

// What is printed of a reason is its number. Files have one more than calls, and this crate knows of no calls.
#[derive(Clone, Copy, PartialEq, Eq)]
pub enum Reason {
    // The file is too long, or its words don't fit their counts.
    Misfit = 1,
    // A text with a power, region or kind that isn't there.
    BadText = 2,
    // A board or game that isn't lawful.
    Unlawful = 3,
    // The line is of no known form.
    Unreadable = 4,
}

impl From<Reason> for u8 {
    ghost from_gives = { λ reason n. n ≡ number reason };

    fn from(reason: Reason) -> u8 {
        reason as u8
    }
}

// Lines count from 1; line 0 is the file as a whole.
#[derive(Clone, Copy, PartialEq, Eq)]
pub struct Refusal {
    pub reason: Reason,
    pub line: u32,
}

impl Refusal {
    pub(super) fn unreadable(line: u32) -> Refusal
        ensures { result ≡ unreadable line }
    {
        Refusal {
            reason: Reason::Unreadable,
            line,
        }
    }

    pub(super) fn misfit() -> Refusal
        ensures { result ≡ misfit }
    {
        Refusal {
            reason: Reason::Misfit,
            line: 0,
        }
    }
}

#[derive(Clone, Copy)]
pub enum Fault {
    At(Refusal),
    NoMemory,
}

impl From<Refusal> for Fault {
    ghost from_gives = { λ e f. f ≡ At e };

    fn from(e: Refusal) -> Fault {
        Fault::At(e)
    }
}

impl From<AllocError> for Fault {
    ghost from_gives = { λ e f. f ≡ NoMemory };

    fn from(_e: AllocError) -> Fault {
        Fault::NoMemory
    }
}

impl<T: Drop> From<AllocFailed<T>> for Fault {
    ghost from_gives = { λ e f. f ≡ NoMemory };

    fn from(_e: AllocFailed<T>) -> Fault {
        Fault::NoMemory
    }
}
