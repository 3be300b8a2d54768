// A game as words.
ghost use Rattle.std.specs.Prelude.{◌≡◌, ℕ, ◌≤◌, List, ◌∷◌, ◌++◌, map, length, IfOk, OnOk};
ghost use Rattle.values.specs.Fold.{those};
ghost use Rattle.geography.specs.RegionSet.{has};
ghost use Rattle.position.specs.Position.{board_of, game_of};
ghost use Rattle.answers.specs.Words.{one_more, game_words};

use super::ordered::push_in_order;
use super::worded::one_more;
use geography::RegionSet;
use position::Position;
use std::alloc::{AllocError, Global};

fn push_owners(out: &mut Vec<usize>, owners: &[Option<u8>]) -> Result<(), AllocError>
    ensures { OnOk result (out.new.items ≡ out.old.items ++ map one_more owners.now) }
{
    out.extend(owners.iter().map(|owner| one_more(*owner)))
}

// The regions of a set, ascending. Their number is a `usize`, as that of any list: what is asked of it makes each a byte.
fn regions_in(heap: Global, n: usize, set: RegionSet) -> Result<Vec<usize>, AllocError>
    requires { n ≤ 256 }
    ensures { IfOk result (λ v. v.items ≡ those n (has set)) }
{
    (0..n).filter(|r| set.contains(*r as u8)).collect(heap)
}

// Their count, and each.
fn push_regions(out: &mut Vec<usize>, n: usize, set: RegionSet) -> Result<(), AllocError>
    requires { n ≤ 256 }
    ensures { OnOk result (out.new.items ≡ out.old.items ++ length (those n (has set)) ∷ those n (has set)) }
{
    let regions = regions_in(*out.allocator(), n, set)?;
    out.push(regions.len())?;
    out.extend_from_slice(regions.as_slice())
}

pub fn game_words(heap: Global, p: &Position) -> Result<Vec<usize>, AllocError>
    ensures { IfOk result (λ v. v.items ≡ game_words (length (board_of p.now).regions) (game_of p.now)) }
{
    let n = p.atlas.regions.len();
    let mut out = Vec::new(heap);
    out.push(p.units.len())?;
    push_in_order(&mut out, n, p.units.as_slice())?;
    push_owners(&mut out, p.owners.as_slice())?;
    out.push(usize::from(u8::from(p.phase)))?;
    out.push(p.dislodged.len())?;
    push_in_order(&mut out, n, p.dislodged.as_slice())?;
    push_regions(&mut out, n, p.barred)?;
    Ok(out)
}
