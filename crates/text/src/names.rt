// The names of a board's regions, as parts of its file.
ghost use Rattle.std.specs.Prelude.{◌≡◌, ℕ, ◌<◌, Bool, List, [], ◌∷◌, ◌++◌, length, map, OnOk, slice_index_or};
ghost use Rattle.std.specs.Borrow.{Bor};
ghost use Rattle.std.specs.HashMap.{get};
ghost use Rattle.std.specs.Str.{bytes_eq};
ghost use Rattle.text.specs.Words.{place};

use std::alloc::{AllocError, Global};
use std::collections::HashMap;

#[derive(Drop)]
pub struct Names<'a> {
    pub(super) parts: Vec<&'a [u8]>,
    // Each name's place, so that a word is found without a walk over all names.
    pub(super) places: HashMap<&'a [u8], usize>,
    ghost placed: { (word : Bor (List ℕ)) → get (λ x y. bytes_eq x.now y.now) places word ≡ place (map (λ part. part.now) parts.items) word.now },
}

impl<'a> Names<'a> {
    ghost use Rattle.text.specs.Names.{names_of};

    pub fn new(heap: Global) -> Names<'a>
        ensures { names_of result ≡ [] }
    {
        Names {
            parts: Vec::new(heap),
            places: HashMap::new(heap),
        }
    }

    pub fn count(&self) -> usize
        ensures { result ≡ length (names_of self.now) }
    {
        self.parts.len()
    }

    pub fn get(&self, i: usize) -> &'a [u8]
        requires { i < length (names_of self.now) }
        ensures { result.now ≡ slice_index_or (names_of self.now) i [] }
    {
        self.parts[i]
    }

    // The region of this name; the first, if two have it.
    pub fn find(&self, word: &[u8]) -> Option<usize>
        ensures { result ≡ place (names_of self.now) word.now }
    {
        self.places.get(word).copied()
    }

    pub fn push(&mut self, name: &'a [u8]) -> Result<(), AllocError>
        ensures { OnOk result (names_of self.new ≡ names_of self.old ++ name.now ∷ []) }
    {
        self.parts.try_reserve(1)?;
        let place = self.parts.len();
        if !self.places.contains_key(name) {
            self.places.insert(name, place)?;
        }
        self.parts.push_reserved(name);
        Ok(())
    }
}
