// A refusal of words, as one of the files that they are made of.
ghost use Rattle.std.specs.Prelude.{◌≡◌};
ghost use Rattle.calls.specs.Verdict.{verdict_of};
ghost use Rattle.session.specs.Session.{refusal};

use calls::Refusal as Refused;
use text::{Reason, Refusal};

// The words are refused as a whole, at no line. No `From`, since neither type is of this crate.
pub(super) fn whole(refused: Refused) -> Refusal
    ensures { result ≡ refusal (verdict_of refused) }
{
    let reason = match refused {
        Refused::Misfit => Reason::Misfit,
        Refused::BadText => Reason::BadText,
        Refused::Unlawful => Reason::Unlawful,
    };
    Refusal { reason, line: 0 }
}
