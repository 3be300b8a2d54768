// The words of a beginning, cut into their parts.
ghost use Rattle.std.specs.Prelude.{◌≡◌, ℕ, ◌+◌, ◌*◌, ◌<◌, ◌≤◌, Bool, true, false, length, drop, MatchOption};
ghost use Rattle.std.specs.Simd.{first_chunks};
ghost use Rattle.calls.specs.Begin.{words_fit};
ghost use Rattle.calls.specs.Sections.{front_fits, FrontCut, Cut};

// The parts whose counts stand in front, and what comes after them.
#[derive(Clone, Copy)]
pub struct Front<'a> {
    pub regions: &'a [[u32; 3]],
    pub march: &'a [[u32; 2]],
    pub sail: &'a [[u32; 2]],
    pub units: &'a [[u32; 3]],
    // As many as regions, and apart from them in the words.
    pub owners: &'a [[u32; 1]],
    pub rest: &'a [u32],
}

#[derive(Clone, Copy)]
pub struct Sections<'a> {
    pub front: Front<'a>,
    // A number still: whether it is a phase's is asked when the game is read.
    pub phase: u32,
    pub dislodged: &'a [[u32; 4]],
    pub barred: &'a [u32],
}

// So many entries from the front of the words, and what comes after them.
fn part<const N: usize>(words: &[u32], count: usize) -> (&[[u32; N]], &[u32])
    requires some { 0 < N }
    requires room { N * count ≤ length words.now }
    ensures entries { result.0.now ≡ first_chunks N count words.now }
    ensures rest { result.1.now ≡ drop (N * count) words.now }
    ensures long { length result.1.now + N * count ≡ length words.now }
{
    let (front, rest) = words.split_at(N * count);
    let (entries, _) = front.as_chunks();
    (entries, rest)
}

fn cut_front(words: &[u32]) -> Option<Front<'_>>
    ensures { MatchOption result (front_fits words.now ≡ false) (λ f. FrontCut words.now f) }
{
    let [regions, march, sail, units, body @ ..] = words else {
        return None;
    };
    if *regions > 128 || *march > 1024 || *sail > 1024 || *units > 128 {
        return None;
    }
    let count = *regions as usize;
    if body.len() < 4 * count + 2 * *march as usize + 2 * *sail as usize + 3 * *units as usize + 2 {
        return None;
    }
    let (regions, rest) = part::<3>(body, count);
    let (march, rest) = part::<2>(rest, *march as usize);
    let (sail, rest) = part::<2>(rest, *sail as usize);
    let (units, rest) = part::<3>(rest, *units as usize);
    let (owners, rest) = part::<1>(rest, count);
    Some(Front {
        regions,
        march,
        sail,
        units,
        owners,
        rest,
    })
}

// The parts, where the words fit their counts.
pub fn cut(words: &[u32]) -> Option<Sections<'_>>
    ensures { MatchOption result (words_fit words.now ≡ false) (λ s. Cut words.now s) }
{
    let front = cut_front(words)?;
    let [phase, dislodged, body @ ..] = front.rest else {
        return None;
    };
    if *dislodged > 128 || body.len() < 4 * *dislodged as usize + 1 {
        return None;
    }
    let (dislodged, rest) = part::<4>(body, *dislodged as usize);
    let [barred, body @ ..] = rest else {
        return None;
    };
    if *barred > 128 || body.len() != *barred as usize {
        return None;
    }
    Some(Sections {
        front,
        phase: *phase,
        dislodged,
        barred: body,
    })
}
