// Tables by region, and one that begins with the same entry everywhere.
ghost use Rattle.std.specs.Prelude.{◌≡◌, replicate, IfOk, vec_len};
ghost use Rattle.tables.specs.Stands.{Tabled};

use super::standing::Standing;
use std::alloc::{AllocError, Global};

// Who stands in each region: from the last to the first, so that the first one stays.
pub fn by_region<X: Standing>(heap: Global, xs: &[X]) -> Result<Vec<Option<X>>, AllocError>
    ensures { IfOk result (λ v. (vec_len v ≡ 256) × Tabled X.piece v.items xs.now) }
{
    let mut table = vec![in heap; None; 256]?;
    for x in xs.iter().rev() {
        table[x.unit().region as usize] = Some(*x);
    }
    Ok(table)
}

// The same entry `n` times, of any type that copies: `vec!` promises as much only where clones are equal.
pub fn filled<T: Copy>(heap: Global, x: T, n: usize) -> Result<Vec<T>, AllocError>
    ensures { IfOk result (λ v. (v.items ≡ replicate n x) × (vec_len v ≡ n)) }
{
    let mut table = Vec::with_capacity(heap, n)?;
    for i in 0..n {
        table.push(x)?;
    }
    Ok(table)
}
