// Lines of a key and words.
ghost use Rattle.std.specs.Prelude.{◌≡◌, ◌++◌, string_bytes, OnOk};
ghost use Rattle.values.specs.Fold.{each};
ghost use Rattle.lines.specs.Print.{word_bytes, line_bytes};

use std::alloc::AllocError;
use std::fmt::Write;

#[tactic(auto, using(crate::proofs::Steps::steps), unfolding(values::specs::Fold::each))]
fn push_words(out: &mut String, words: &[usize]) -> Result<(), AllocError>
    ensures { OnOk result (string_bytes out.new ≡ string_bytes out.old ++ each word_bytes words.now) }
{
    for w in words {
        write!(out, " {w}")?;
    }
    Ok(())
}

#[tactic(auto, using(crate::proofs::Steps::steps))]
pub fn push_line(out: &mut String, key: &str, words: &[usize]) -> Result<(), AllocError>
    ensures { OnOk result (string_bytes out.new ≡ string_bytes out.old ++ line_bytes key.now words.now) }
{
    out.push_str(key)?;
    push_words(out, words)?;
    out.push_str("\n")
}
