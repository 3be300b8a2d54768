// The barred regions of a position.
ghost use Rattle.std.specs.Prelude.{◌≡◌, ℕ};
ghost use Rattle.geography.specs.RegionSet.{Holds};
ghost use Rattle.position.specs.Position.{game_of};

use geography::RegionSet;
use position::Position;

// Just those of the board: a loop over numbers of regions, since a set is no list.
pub fn barred_regions(p: &Position) -> RegionSet
    ensures { Holds result (game_of p.now).barred }
{
    let mut barred = RegionSet::EMPTY;
    for r in 0..p.atlas.regions.len() as u8 {
        if p.barred.contains(r) {
            barred.insert(r);
        }
    }
    barred
}
