// Who owns the centres after the autumn's retreats.
ghost use Rattle.std.specs.Prelude.{◌≡◌, IfOk, if◌then◌else◌, None};
ghost use Rattle.std.specs.Option.{option_or, option_map};
ghost use Rattle.game.specs.Owners.{owners_from};

use board::{Atlas, Region, Unit};
use std::alloc::{AllocError, Global};
use tables::by_region;

// A centre belongs to whoever's unit stands there, else to whom it belonged; other regions to nobody.
fn owner_of(region: Region, unit: Option<Unit>, old: Option<u8>) -> Option<u8>
    ensures { result ≡ (if region.centre then option_or (option_map (λ u. u.power) unit) old else None) }
{
    if region.centre {
        unit.map(|unit| unit.power).or(old)
    } else {
        None
    }
}

pub fn new_owners(
    heap: Global,
    atlas: &Atlas,
    units: &[Unit],
    owners: &[Option<u8>],
) -> Result<Vec<Option<u8>>, AllocError>
    ensures { IfOk result (λ v. v.items ≡ owners_from 0 atlas.now.regions.items units.now owners.now) }
{
    let table = by_region(heap, units)?;
    let mut out = Vec::new(heap);
    for ((region, unit), old) in atlas.regions.iter().zip(&table).zip(owners) {
        out.push(owner_of(*region, *unit, *old))?;
    }
    Ok(out)
}
