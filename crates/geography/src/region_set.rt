// A set of regions below 128. Two words of the machine and no `u128`, as docs/DECISIONS.md has it: a test or a shift touches one word.
ghost use Rattle.std.specs.Prelude.{◌≡◌, ℕ, ◌<◌, Bool, true, false, ◌&&◌, ◌||◌, List, ◌==◌};
ghost use Rattle.values.specs.Fold.{any};
ghost use Rattle.geography.specs.RegionSet.{bit, has, Holds};

#[derive(Clone, Copy, PartialEq, Eq)]
pub struct RegionSet {
    low: u64,
    high: u64,
}

fn bit_of(w: u64, k: u8) -> bool
    requires { k < 64 }
    ensures { result ≡ bit w k }
{
    (w >> k) & 1 == 1
}

fn with_bit(w: u64, k: u8) -> u64
    requires { k < 64 }
    ensures { (j : ℕ) → bit result j ≡ (j == k || bit w j) }
{
    w | (1 << k)
}

// Whether two words have a bit in common.
fn share(a: u64, b: u64) -> bool
    ensures none { result ≡ false → (k : ℕ) → (bit a k && bit b k) ≡ false }
    ensures some { ((k : ℕ) → k < 64 → (bit a k && bit b k) ≡ false) → result ≡ false }
{
    a & b != 0
}

impl RegionSet {
    pub const EMPTY: RegionSet = RegionSet { low: 0, high: 0 };

    pub fn contains(self, r: u8) -> bool
        ensures { result ≡ has self r }
    {
        if r < 64 {
            bit_of(self.low, r)
        } else if r < 128 {
            bit_of(self.high, r - 64)
        } else {
            false
        }
    }

    pub fn insert(&mut self, r: u8)
        requires { r < 128 }
        ensures { (q : ℕ) → has self.new q ≡ (q == r || has self.old q) }
    {
        if r < 64 {
            self.low = with_bit(self.low, r);
        } else {
            self.high = with_bit(self.high, r - 64);
        }
    }

    // Whether some region of `other` is in `self`.
    pub fn touches(self, other: RegionSet) -> bool
        ensures { (qs : List ℕ) → Holds other qs → result ≡ any (has self) qs }
    {
        share(self.low, other.low) || share(self.high, other.high)
    }
}
