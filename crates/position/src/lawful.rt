// Whether a game is lawful on its board.
ghost use Rattle.std.specs.Prelude.{◌≡◌, ℕ, ◌≤◌, Bool, true, false, not, ◌&&◌, ◌||◌, map, length, ◌==◌};
ghost use Rattle.values.specs.Fold.{all, distinct, those};
ghost use Rattle.geography.specs.RegionSet.{has};
ghost use Rattle.board.specs.Board.{stands};
ghost use Rattle.board.specs.Atlas.{board_of};
ghost use Rattle.game.specs.Lawful.{places, from_board, good_owner, good_owners, lawful};
ghost use Rattle.position.specs.Tables.{game_from};

use super::atlas::is_power;
use board::{Atlas, Region, Unit};
use game::Dislodged;
use geography::RegionSet;
use tables::Standing;

fn stands(atlas: &Atlas, u: Unit) -> bool
    ensures { result ≡ stands (board_of atlas.now) u }
{
    atlas.can_stand(u.fleet, u.region) && u.power < 7
}

// Where its kind can be, and in a region that none has taken.
fn fits(atlas: &Atlas, u: Unit, taken: RegionSet) -> bool
    ensures { result ≡ (stands (board_of atlas.now) u && not (has taken u.region)) }
{
    stands(atlas, u) && !taken.contains(u.region)
}

// No two in one region, and each where its kind can be.
pub fn well_placed<P: Standing>(atlas: &Atlas, pieces: &[P]) -> bool
    ensures { result ≡ (distinct (places (map P.piece pieces.now)) && all (stands (board_of atlas.now)) (map P.piece pieces.now)) }
{
    let mut taken = RegionSet::EMPTY;
    for piece in pieces.iter().rev() {
        let u = piece.unit();
        if !fits(atlas, u, taken) {
            return false;
        }
        taken.insert(u.region);
    }
    true
}

// The attack came from a region of the board, or over water.
fn from_board(atlas: &Atlas, from: Option<u8>) -> bool
    ensures { result ≡ from_board (board_of atlas.now) from }
{
    from.is_none_or(|r| atlas.on_board(r))
}

pub fn all_from_board(atlas: &Atlas, dislodged: &[Dislodged]) -> bool
    ensures { result ≡ all (λ d. from_board (board_of atlas.now) d.from) dislodged.now }
{
    dislodged.iter().all(|d| from_board(atlas, d.from))
}

fn good_owner(region: Region, owner: Option<u8>) -> bool
    ensures { result ≡ good_owner region owner }
{
    owner.is_none() || region.centre && is_power(owner)
}

pub fn good_owners(regions: &[Region], owners: &[Option<u8>]) -> bool
    ensures { result ≡ good_owners regions.now owners.now }
{
    regions.len() == owners.len()
        && regions
            .iter()
            .zip(owners.iter())
            .all(|(region, owner)| good_owner(*region, *owner))
}

// Up to 128 regions, which is what a set holds: no fact about a game.
pub fn none_barred(regions: usize, barred: RegionSet) -> bool
    requires { regions ≤ 128 }
    ensures { result ≡ (length (those regions (has barred)) == 0) }
{
    (0..regions as u8).all(|r| !barred.contains(r))
}
