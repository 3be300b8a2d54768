// The answer to a call.
ghost use Rattle.std.specs.Prelude.{◌≡◌};
ghost use Rattle.calls.specs.Verdict.{number, is_accepted, verdict_of};

// No `Result`: a call is answered by one of four numbers, and that of an acceptance is printed like the others.
#[derive(Clone, Copy, PartialEq, Eq)]
pub enum Verdict {
    Accepted,
    // The words don't fit their counts, or a count is above its limit.
    Misfit,
    // A text with a power, region or kind that isn't there.
    BadText,
    // A board or game that isn't lawful.
    Unlawful,
}

impl Verdict {
    // A method and no `From`: the definition that its contract cites has this name.
    pub fn number(self) -> u8
        ensures { result ≡ number self }
    {
        match self {
            Verdict::Accepted => 0,
            Verdict::Misfit => 1,
            Verdict::BadText => 2,
            Verdict::Unlawful => 3,
        }
    }

    pub fn is_accepted(self) -> bool
        ensures { result ≡ is_accepted self }
    {
        matches!(self, Verdict::Accepted)
    }
}

// Why words were not accepted: apart from `Verdict`, so that a fault can't hold an acceptance.
#[derive(Clone, Copy, Debug, PartialEq, Eq)]
pub enum Refusal {
    Misfit,
    BadText,
    Unlawful,
}

impl From<Refusal> for Verdict {
    ghost from_gives = { λ refusal verdict. verdict ≡ verdict_of refusal };

    fn from(refusal: Refusal) -> Verdict {
        match refusal {
            Refusal::Misfit => Verdict::Misfit,
            Refusal::BadText => Verdict::BadText,
            Refusal::Unlawful => Verdict::Unlawful,
        }
    }
}
