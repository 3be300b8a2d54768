// Winter, power by power.
ghost use Rattle.std.specs.Prelude.{◌≡◌, ◌<◌, true, IfOk};
ghost use Rattle.values.specs.Fold.{all};
ghost use Rattle.board.specs.Board.{stands};
ghost use Rattle.board.specs.Atlas.{board_of};
ghost use Rattle.game.specs.Winter.{winter_of, units_after_winter};

use super::adjustment::Adjustment;
use board::{Atlas, Unit};
use geography::RegionSet;
use retreats::with_units;
use std::alloc::{AllocError, Global};
use texts::Texts;

pub fn winter_of(
    heap: Global,
    atlas: &Atlas,
    texts: &Texts,
    owners: &[Option<u8>],
    power: u8,
    units: &[Unit],
) -> Result<Vec<Unit>, AllocError>
    requires power { power < 7 }
    requires stand { all (stands (board_of atlas.now)) units.now ≡ true }
    ensures { IfOk result (λ v. v.items ≡ winter_of (board_of atlas.now) owners.now texts.now.list.items power units.now) }
{
    let adjustment = Adjustment {
        atlas,
        texts,
        owners,
        units,
        power,
        taken: with_units(atlas, units, RegionSet::EMPTY),
    };
    adjustment.units_after(heap)
}

// Powers 0 to 6, one after the other on the same board.
pub fn units_after_winter(
    heap: Global,
    atlas: &Atlas,
    texts: &Texts,
    owners: &[Option<u8>],
    units: &[Unit],
) -> Result<Vec<Unit>, AllocError>
    requires { all (stands (board_of atlas.now)) units.now ≡ true }
    ensures { IfOk result (λ v. v.items ≡ units_after_winter (board_of atlas.now) owners.now texts.now.list.items units.now) }
{
    let mut standing = Vec::from_slice(heap, units)?;
    for power in 0..7u8 {
        standing = winter_of(heap, atlas, texts, owners, power, standing.as_slice())?;
    }
    Ok(standing)
}
