// What was told of the last phase of moves, as words.
ghost use Rattle.std.specs.Prelude.{◌≡◌, ℕ, ◌≤◌, IfOk};
ghost use Rattle.answers.specs.Words.{last_words};

use super::ordered::push_in_order;
use deciding::Report;
use std::alloc::{AllocError, Global};

// On a board of `n` regions: up to 256, as it was promised, so no byte.
pub fn last_words(heap: Global, n: usize, reports: &[Report]) -> Result<Vec<usize>, AllocError>
    requires { n ≤ 256 }
    ensures { IfOk result (λ v. v.items ≡ last_words n reports.now) }
{
    let mut out = Vec::new(heap);
    push_in_order(&mut out, n, reports)?;
    Ok(out)
}
