// A board from its words.
ghost use Rattle.std.specs.Prelude.{◌≡◌, ℕ, ◌≤◌, length, nat_lt};
ghost use Rattle.board.specs.Atlas.{board_of};
ghost use Rattle.calls.specs.declared.verdict.Refusal.TheVariants.{Unlawful};
ghost use Rattle.calls.specs.Words.{optional};
ghost use Rattle.calls.specs.Read.{read_if, ReadOr};
ghost use Rattle.calls.specs.Begin.{kind_in, region_in, good_region, edge_in};
ghost use Rattle.calls.specs.Strict.{ends_on, board_parts, board_good};

use super::fault::Fault;
use super::reader::{Reader, read_entries};
use super::sections::Sections;
use super::verdict::Refusal;
use board::{Atlas, Kind, Region};
use geography::Edge;
use position::chart;
use std::alloc::Global;

// 0 for none, else one more than what is meant.
pub fn optional(w: u32) -> Option<u8>
    requires { w ≤ 256 }
    ensures { result ≡ optional w }
{
    if w == 0 { None } else { Some((w - 1) as u8) }
}

// No `TryFrom`: a kind has a number in these words alone, and neither type is of this crate.
fn kind_of(w: u32) -> Option<Kind>
    ensures { result ≡ read_if (nat_lt w 3) (kind_in w) }
{
    match w {
        0 => Some(Kind::Land),
        1 => Some(Kind::Coast),
        2 => Some(Kind::Sea),
        _ => None,
    }
}

#[derive(Clone, Copy)]
struct Regions;

impl Reader<3> for Regions {
    type Entry = Region;

    ghost good = { λ s ws. good_region ws };

    ghost meant = { λ s ws. region_in ws };

    fn read(&self, words: [u32; 3]) -> Option<Region>
        ensures { result ≡ read_if (good_region words) (region_in words) }
    {
        let [kind, centre, home] = words;
        let kind = kind_of(kind)?;
        if centre > 1 || home > 7 {
            return None;
        }
        Some(Region {
            kind,
            centre: centre == 1,
            home: optional(home),
        })
    }
}

// The edges of a board of so many regions. Each kind of entry has a reader of its own, so that a call names what it reads.
#[derive(Clone, Copy)]
struct Edges {
    regions: u8,
}

impl Reader<2> for Edges {
    type Entry = Edge;

    ghost good = { λ s ws. ends_on s.regions ws };

    ghost meant = { λ s ws. edge_in ws };

    fn read(&self, words: [u32; 2]) -> Option<Edge>
        ensures { result ≡ read_if (ends_on self.now.regions words) (edge_in words) }
    {
        let [one, two] = words;
        if one >= self.regions as u32 || two >= self.regions as u32 {
            return None;
        }
        Some(Edge {
            one: one as u8,
            two: two as u8,
        })
    }
}

pub fn read_board(heap: Global, s: &Sections) -> Result<Atlas, Fault>
    requires { length s.now.front.regions.now ≤ 128 }
    ensures { ReadOr (board_good s.now) (λ a. board_of a ≡ board_parts s.now) Unlawful result }
{
    let front = s.front;
    let edges = Edges {
        regions: front.regions.len() as u8,
    };
    let regions = read_entries(heap, &Regions, front.regions, Refusal::Unlawful)?;
    let march = read_entries(heap, &edges, front.march, Refusal::Unlawful)?;
    let sail = read_entries(heap, &edges, front.sail, Refusal::Unlawful)?;
    let atlas = chart(heap, regions, march, sail)?;
    atlas.ok_or(Fault::Refused(Refusal::Unlawful))
}
