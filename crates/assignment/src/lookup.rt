// Tables by region, made once for all rounds: units and orders never change while they are decided.
ghost use Rattle.std.specs.Prelude.{◌≡◌, ℕ, ◌≤◌, [], ◌∷◌, ◌++◌, length, map, set, get_or, IfOk, OnOk, vec_len, vec_items};
ghost use Rattle.assignment.specs.Places.{acts};

use super::resolution::Resolution;
use board::Order;
use std::alloc::{AllocError, Global};

// Two tables, since a region's unit and the orders aimed at it are looked up apart.
#[derive(Drop)]
pub struct Lookup {
    // For each region the place of its unit in the list.
    pub(super) place: Vec<Option<u8>>,
    // For each region the places of the orders aimed at it, the last first.
    pub(super) aimed: Vec<Vec<u8>>,
    ghost places: { vec_len place ≡ 256 },
    ghost targets: { vec_len aimed ≡ 256 },
}

// Whether the order is a move or a support: only these are decided.
pub fn acts(o: Order) -> bool
    ensures { result ≡ acts o }
{
    match o {
        Order::Move { .. } | Order::SupportHold { .. } | Order::SupportMove { .. } => true,
        Order::Hold | Order::Convoy { .. } => false,
    }
}

// The place `i` behind those that are aimed at `to` so far.
fn file(aimed: &mut Vec<Vec<u8>>, to: u8, i: u8) -> Result<(), AllocError>
    requires { vec_len aimed.old ≡ 256 }
    ensures long { vec_len aimed.new ≡ 256 }
    ensures filed { OnOk result (map vec_items aimed.new.items ≡ set (map vec_items aimed.old.items) to (get_or (map vec_items aimed.old.items) to [] ++ i ∷ [])) }
{
    aimed[to as usize].push(i)?;
    Ok(())
}

impl Lookup {
    ghost use Rattle.assignment.specs.Lookup.{Indexed};

    pub fn new(heap: Global, xs: &[Resolution]) -> Result<Lookup, AllocError>
        requires few { length xs.now ≤ 128 }
        ensures { IfOk result (λ l. Indexed l xs.now) }
    {
        let mut place = vec![in heap; None; 256]?;
        let mut aimed = vec![in heap; Vec::new(heap); 256]?;
        for (i, x) in xs.iter().enumerate().rev() {
            let i = i as u8;
            if acts(x.order) {
                file(&mut aimed, x.order.aim(), i)?;
            }
            place[x.unit.region as usize] = Some(i);
        }
        Ok(Lookup { place, aimed })
    }
}
