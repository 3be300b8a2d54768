// Lists of entries, read by whoever knows one entry.
ghost use Rattle.std.specs.Prelude.{◌≡◌, ℕ, Bool, List, map};
ghost use Rattle.values.specs.Fold.{all};
ghost use Rattle.calls.specs.Read.{ReadOr, read_if};

use super::fault::Fault;
use super::verdict::Refusal;
use std::alloc::Global;

// Reads one entry from its words.
pub trait Reader<const N: usize> {
    type Entry: Drop;

    ghost good: { Self → List ℕ → Bool };

    ghost meant: { Self → List ℕ → Self.Entry };

    // Nothing where a word means nothing.
    fn read(&self, words: [u32; N]) -> Option<Self::Entry>
        ensures { result ≡ read_if (good self.now words.entry) (meant self.now words.entry) };
}

// The entries, or the refusal where one is bad.
pub fn read_entries<const N: usize, R: Reader<N>>(
    heap: Global,
    reader: &R,
    entries: &[[u32; N]],
    refusal: Refusal,
) -> Result<Vec<R::Entry>, Fault>
    ensures { ReadOr (all (R.good reader.now) entries.now) (λ v. v.items ≡ map (R.meant reader.now) entries.now) refusal result }
{
    let mut out = Vec::new(heap);
    for words in entries {
        let entry = reader.read(*words).ok_or(refusal)?;
        out.push(entry)?;
    }
    Ok(out)
}
