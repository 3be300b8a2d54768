// Regions closed to retreats, from their words.
ghost use Rattle.std.specs.Prelude.{◌≡◌, ℕ, ◌≤◌, Bool, true, false, MatchOption, nat_lt};
ghost use Rattle.values.specs.Fold.{all};
ghost use Rattle.geography.specs.RegionSet.{Holds};

use geography::RegionSet;

// Nothing where a region isn't on a board of so many: no more than 128, which is what a set of regions holds, not a fact about words.
pub fn read_barred(regions: u8, words: &[u32]) -> Option<RegionSet>
    requires { regions ≤ 128 }
    ensures { MatchOption result (all (λ w. nat_lt w regions) words.now ≡ false) (λ s. (all (λ w. nat_lt w regions) words.now ≡ true) × Holds s words.now) }
{
    let mut barred = RegionSet::EMPTY;
    for word in words.iter().rev() {
        if *word >= regions as u32 {
            return None;
        }
        barred.insert(*word as u8);
    }
    Some(barred)
}
