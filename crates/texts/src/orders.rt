// Each unit with the order that its power wrote for it, before anything is decided.
ghost use Rattle.std.specs.Prelude.{◌≡◌, ◌<◌, true, IfOk};
ghost use Rattle.values.specs.Fold.{all};
ghost use Rattle.board.specs.Board.{stands};
ghost use Rattle.board.specs.Atlas.{board_of};
ghost use Rattle.deciding.specs.Outcome.{fresh_one, fresh};
ghost use Rattle.game.specs.Texts.{text_for, order_in, ordered_one, ordered};

use super::texts::{Texts, order_in};
use assignment::Resolution;
use board::{Atlas, Order, Unit};
use std::alloc::{AllocError, Global};
use values::Tri;

// What `u` was told to do: the one text of its power for its region, if that is an order.
pub fn order_for(texts: &Texts, u: Unit) -> Order
    requires { u.power < 7 }
    ensures { result ≡ order_in (text_for u.power u.region texts.now.list.items) }
{
    order_in(texts.text_for(u.power, u.region))
}

pub fn fresh_one(atlas: &Atlas, texts: &Texts, u: Unit) -> Resolution
    requires { u.power < 7 }
    ensures { result ≡ fresh_one (board_of atlas.now) (ordered_one texts.now.list.items u) }
{
    Resolution {
        unit: u,
        order: atlas.as_played(u, order_for(texts, u)),
        value: Tri::Open,
        stranded: false,
    }
}

pub fn fresh(
    heap: Global,
    atlas: &Atlas,
    texts: &Texts,
    units: &[Unit],
) -> Result<Vec<Resolution>, AllocError>
    requires { all (stands (board_of atlas.now)) units.now ≡ true }
    ensures { IfOk result (λ v. v.items ≡ fresh (board_of atlas.now) (ordered units.now texts.now.list.items)) }
{
    // A loop and no chain: `fresh_one` asks for a power that there is, which a closure would have to ask again.
    let mut out = Vec::new(heap);
    for u in units {
        out.push(fresh_one(atlas, texts, *u))?;
    }
    Ok(out)
}
