// What was written for a phase: texts of five words each.
ghost use Rattle.std.specs.Prelude.{◌≡◌, nat_lt};
ghost use Rattle.calls.specs.Read.{read_if, Answered};
ghost use Rattle.calls.specs.Turn.{text_in, written_in, good_text, texts_in, texts_verdict};

use super::fault::Fault;
use super::reader::{Reader, read_entries};
use super::verdict::Refusal;
use board::Order;
use game::{Text, Written};
use std::alloc::Global;

// The texts of a game on so many regions.
#[derive(Clone, Copy)]
struct Texts {
    regions: u8,
}

// No `TryFrom`: a text takes two regions beside its kind.
fn text_of(kind: u32, a: u8, b: u8) -> Option<Text>
    ensures { result ≡ read_if (nat_lt kind 9) (text_in kind a b) }
{
    match kind {
        0 => Some(Text::Command(Order::Hold)),
        1 => Some(Text::Command(Order::Move {
            to: a,
            convoyed: false,
        })),
        2 => Some(Text::Command(Order::Move {
            to: a,
            convoyed: true,
        })),
        3 => Some(Text::Command(Order::SupportHold { at: a })),
        4 => Some(Text::Command(Order::SupportMove { from: a, to: b })),
        5 => Some(Text::Command(Order::Convoy { from: a, to: b })),
        6 => Some(Text::Build { fleet: false }),
        7 => Some(Text::Build { fleet: true }),
        8 => Some(Text::Disband),
        _ => None,
    }
}

impl Reader<5> for Texts {
    type Entry = Written;

    ghost good = { λ s ws. good_text s.regions ws };

    ghost meant = { λ s ws. written_in ws };

    fn read(&self, words: [u32; 5]) -> Option<Written>
        ensures { result ≡ read_if (good_text self.now.regions words) (written_in words) }
    {
        // A slice pattern, as docs/DECISIONS.md has it for the words of a text.
        let [power, region, kind, a, b] = words.as_slice() else {
            return None;
        };
        if *power >= 7 || *region >= self.regions as u32 || *a >= 128 || *b >= 128 {
            return None;
        }
        let text = text_of(*kind, *a as u8, *b as u8)?;
        Some(Written {
            power: *power as u8,
            region: *region as u8,
            text,
        })
    }
}

// The texts for a board of so many regions, or the verdict on them.
pub fn read_texts(heap: Global, regions: u8, words: &[u32]) -> Result<Vec<Written>, Fault>
    ensures { Answered (texts_verdict regions words.now) (λ v. v.items ≡ texts_in words.now) result }
{
    if words.len() % 5 != 0 || words.len() > 2560 {
        return Err(Fault::Refused(Refusal::Misfit));
    }
    let (entries, _) = words.as_chunks();
    read_entries(heap, &Texts { regions }, entries, Refusal::BadText)
}
