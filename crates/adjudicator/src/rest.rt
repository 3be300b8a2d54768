// Retreats and winters on a position.
ghost use Rattle.std.specs.Prelude.{◌≡◌, IfOk};
ghost use Rattle.game.specs.Retreats.{units_after_retreats};
ghost use Rattle.game.specs.Winter.{units_after_winter};
ghost use Rattle.position.specs.Position.{board_of, game_of};

use super::barred::barred_regions;
use board::Unit;
use position::Position;
use retreats::units_after_retreats;
use std::alloc::{AllocError, Global};
use texts::Texts;
use winter::units_after_winter;

// All units after a phase of retreats.
pub fn retreat(heap: Global, p: &Position, texts: &Texts) -> Result<Vec<Unit>, AllocError>
    ensures { IfOk result (λ v. v.items ≡ units_after_retreats (board_of p.now) (game_of p.now) texts.now.list.items) }
{
    units_after_retreats(
        heap,
        &p.atlas,
        texts,
        p.units.as_slice(),
        p.dislodged.as_slice(),
        barred_regions(p),
    )
}

// All units after a winter.
pub fn winter(heap: Global, p: &Position, texts: &Texts) -> Result<Vec<Unit>, AllocError>
    ensures { IfOk result (λ v. v.items ≡ units_after_winter (board_of p.now) (game_of p.now).owners texts.now.list.items (game_of p.now).units) }
{
    units_after_winter(
        heap,
        &p.atlas,
        texts,
        p.owners.as_slice(),
        p.units.as_slice(),
    )
}
