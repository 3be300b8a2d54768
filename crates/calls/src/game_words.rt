// A game from its words.
ghost use Rattle.std.specs.Prelude.{◌≡◌, ℕ, ◌≤◌, ◌&&◌, length, nat_le, nat_lt};
ghost use Rattle.board.specs.Atlas.{board_of as atlas_board};
ghost use Rattle.board.specs.Board.{powers};
ghost use Rattle.position.specs.Position.{board_of, game_of};
ghost use Rattle.calls.specs.declared.verdict.Refusal.TheVariants.{Unlawful};
ghost use Rattle.calls.specs.Words.{at, is_one, optional as optional_in};
ghost use Rattle.calls.specs.Read.{read_if, ReadOr};
ghost use Rattle.calls.specs.Begin.{unit_in, dislodged_in};
ghost use Rattle.calls.specs.Strict.{unit_on, out_on, game_parts, game_good};

use super::barred_words::read_barred;
use super::board_words::optional;
use super::fault::Fault;
use super::reader::{Reader, read_entries};
use super::sections::Sections;
use super::verdict::Refusal;
use board::{Atlas, Unit};
use game::{Dislodged, Phase};
use position::Position;
use std::alloc::Global;

// A unit on a board of so many regions.
fn unit_of(regions: u8, power: u32, region: u32, fleet: u32) -> Option<Unit>
    ensures { result ≡ read_if (nat_lt fleet 2 && (nat_lt power 7 && nat_lt region regions)) (record { power = power; region = region; fleet = is_one fleet }) }
{
    if fleet >= 2 || power >= 7 || region >= regions as u32 {
        return None;
    }
    Some(Unit {
        power: power as u8,
        region: region as u8,
        fleet: fleet == 1,
    })
}

#[derive(Clone, Copy)]
struct Units {
    regions: u8,
}

impl Reader<3> for Units {
    type Entry = Unit;

    ghost good = { λ s ws. unit_on s.regions ws };

    ghost meant = { λ s ws. unit_in ws };

    fn read(&self, words: [u32; 3]) -> Option<Unit>
        ensures { result ≡ read_if (unit_on self.now.regions words) (unit_in words) }
    {
        let [power, region, fleet] = words;
        unit_of(self.regions, power, region, fleet)
    }
}

// Those that wait to retreat.
#[derive(Clone, Copy)]
struct Waiting {
    regions: u8,
}

impl Reader<4> for Waiting {
    type Entry = Dislodged;

    ghost good = { λ s ws. out_on s.regions ws };

    ghost meant = { λ s ws. dislodged_in ws };

    fn read(&self, words: [u32; 4]) -> Option<Dislodged>
        ensures { result ≡ read_if (out_on self.now.regions words) (dislodged_in words) }
    {
        let [power, region, fleet, from] = words;
        let unit = unit_of(self.regions, power, region, fleet)?;
        if from > self.regions as u32 {
            return None;
        }
        Some(Dislodged {
            unit,
            from: optional(from),
        })
    }
}

#[derive(Clone, Copy)]
struct Owners;

impl Reader<1> for Owners {
    type Entry = Option<u8>;

    ghost good = { λ s ws. nat_le (at ws 0) powers };

    ghost meant = { λ s ws. optional_in (at ws 0) };

    fn read(&self, words: [u32; 1]) -> Option<Option<u8>>
        ensures { result ≡ read_if (nat_le (at words 0) powers) (optional_in (at words 0)) }
    {
        let [owner] = words;
        if owner > 7 {
            return None;
        }
        Some(optional(owner))
    }
}

// The game on a board that was read from the same words.
pub fn read_game(heap: Global, atlas: Atlas, s: &Sections) -> Result<Position, Fault>
    requires few { length s.now.front.regions.now ≤ 128 }
    requires same { length atlas.regions.items ≡ length s.now.front.regions.now }
    ensures { ReadOr (game_good (atlas_board atlas) s.now) (λ p. (board_of p ≡ atlas_board atlas) × (game_of p ≡ game_parts s.now)) Unlawful result }
{
    let regions = s.front.regions.len() as u8;
    let phase = Phase::try_from(s.phase).map_err(|_| Refusal::Unlawful)?;
    let barred = read_barred(regions, s.barred).ok_or(Refusal::Unlawful)?;
    let units = read_entries(heap, &Units { regions }, s.front.units, Refusal::Unlawful)?;
    let owners = read_entries(heap, &Owners, s.front.owners, Refusal::Unlawful)?;
    let dislodged = read_entries(heap, &Waiting { regions }, s.dislodged, Refusal::Unlawful)?;
    let position = Position::new(atlas, phase, units, dislodged, barred, owners);
    position.ok_or(Fault::Refused(Refusal::Unlawful))
}
