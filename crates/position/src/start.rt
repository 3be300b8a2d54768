// Positions: from tables, where they are lawful, and the empty one.
ghost use Rattle.std.specs.Prelude.{◌≡◌, ℕ, ◌≤◌, Bool, true, false, ◌&&◌, ◌||◌, [], length, IfOk, MatchOption, ◌==◌};
ghost use Rattle.values.specs.Fold.{those};
ghost use Rattle.geography.specs.RegionSet.{has, empty};
ghost use Rattle.board.specs.Atlas.{board_of as atlas_board};
ghost use Rattle.game.specs.declared.phase.Phase.TheVariants.{SpringMoves};
ghost use Rattle.game.specs.Game.{is_retreats};
ghost use Rattle.game.specs.Lawful.{lawful};
ghost use Rattle.position.specs.Tables.{board_from, game_from, game_on, placed_on};
ghost use Rattle.position.specs.Position.{board_of, game_of};

use super::lawful::{all_from_board, good_owners, none_barred, well_placed};
use super::position::Position;
use board::{Atlas, Unit};
use game::{Dislodged, Phase};
use geography::{Links, RegionSet};
use std::alloc::{AllocError, Global};

// Nobody waits and nothing is barred, but where retreats come next.
fn calm(phase: Phase, dislodged: &[Dislodged], regions: usize, barred: RegionSet) -> bool
    requires { regions ≤ 128 }
    ensures { result ≡ (is_retreats phase || (length dislodged.now == 0 && length (those regions (has barred)) == 0)) }
{
    phase.is_retreats() || (dislodged.is_empty() && none_barred(regions, barred))
}

// Units and those dislodged, each where they can be.
fn peopled(atlas: &Atlas, units: &[Unit], dislodged: &[Dislodged]) -> bool
    ensures { result ≡ placed_on (atlas_board atlas.now) units.now dislodged.now }
{
    well_placed(atlas, units) && well_placed(atlas, dislodged) && all_from_board(atlas, dislodged)
}

// A game's parts, before there is a position that has them.
fn is_lawful(
    atlas: &Atlas,
    phase: Phase,
    units: &[Unit],
    dislodged: &[Dislodged],
    barred: RegionSet,
    owners: &[Option<u8>],
) -> bool
    ensures { result ≡ lawful (atlas_board atlas.now) (game_on atlas.now phase units.now dislodged.now barred owners.now) }
{
    peopled(atlas, units, dislodged)
        && good_owners(atlas.regions.as_slice(), owners)
        && calm(phase, dislodged, atlas.regions.len(), barred)
}

fn empty_atlas(heap: Global) -> Result<Atlas, AllocError>
    ensures { IfOk result (λ a. atlas_board a ≡ board_from [] [] []) }
{
    let march = Links::new(heap, Vec::new(heap))?;
    let sail = Links::new(heap, Vec::new(heap))?;
    Ok(Atlas {
        regions: Vec::new(heap),
        march,
        sail,
    })
}

impl Position {
    // The position, unless the game isn't lawful.
    pub fn new(
        atlas: Atlas,
        phase: Phase,
        units: Vec<Unit>,
        dislodged: Vec<Dislodged>,
        barred: RegionSet,
        owners: Vec<Option<u8>>,
    ) -> Option<Position>
        ensures { MatchOption result (lawful (atlas_board atlas) (game_on atlas phase units.items dislodged.items barred owners.items) ≡ false) (λ p. (board_of p ≡ atlas_board atlas) × (game_of p ≡ game_on atlas phase units.items dislodged.items barred owners.items)) }
    {
        if !is_lawful(
            &atlas,
            phase,
            units.as_slice(),
            dislodged.as_slice(),
            barred,
            owners.as_slice(),
        ) {
            return None;
        }
        Some(Position {
            atlas,
            phase,
            units,
            dislodged,
            barred,
            owners,
        })
    }

    // No region, nobody there, in the first phase of the year.
    pub fn empty(heap: Global) -> Result<Position, AllocError>
        ensures { IfOk result (λ p. (board_of p ≡ board_from [] [] []) × (game_of p ≡ game_from 0 SpringMoves [] [] empty [])) }
    {
        let atlas = empty_atlas(heap)?;
        Ok(Position {
            atlas,
            phase: Phase::SpringMoves,
            units: Vec::new(heap),
            dislodged: Vec::new(heap),
            barred: RegionSet::EMPTY,
            owners: Vec::new(heap),
        })
    }
}
