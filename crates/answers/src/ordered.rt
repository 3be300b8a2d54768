// Words in the order of regions.
ghost use Rattle.std.specs.Prelude.{◌≡◌, ◌≤◌, List, ◌++◌, OnOk};
ghost use Rattle.answers.specs.Words.{words_if, in_order};

use super::worded::Worded;
use std::alloc::AllocError;
use tables::by_region;

fn push_if<X: Worded>(out: &mut Vec<usize>, o: Option<X>) -> Result<(), AllocError>
    ensures { OnOk result (out.new.items ≡ out.old.items ++ words_if X.words_of o) }
{
    match o {
        None => Ok(()),
        Some(x) => x.push_to(out),
    }
}

pub fn push_in_order<X: Worded>(out: &mut Vec<usize>, n: usize, xs: &[X]) -> Result<(), AllocError>
    requires { n ≤ 256 }
    ensures { OnOk result (out.new.items ≡ out.old.items ++ in_order X.words_of X.piece n xs.now) }
{
    let table = by_region(*out.allocator(), xs)?;
    for o in &table[..n] {
        push_if(out, *o)?;
    }
    Ok(())
}
