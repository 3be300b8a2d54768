// A good board from its regions and edges.
ghost use Rattle.std.specs.Prelude.{◌≡◌, Bool, true, false, IfOk, MatchOption};
ghost use Rattle.values.specs.Fold.{all};
ghost use Rattle.board.specs.Board.{land, good_edge, good_board, is_power};
ghost use Rattle.board.specs.Atlas.{board_of};
ghost use Rattle.position.specs.Tables.{board_from};

use board::{Atlas, Region, can_stand};
use geography::{Edge, Links};
use std::alloc::{AllocError, Global};

// Nobody, or one of the seven powers.
pub fn is_power(power: Option<u8>) -> bool
    ensures { result ≡ is_power power }
{
    power.is_none_or(|p| p < 7)
}

fn good_homes(regions: &[Region]) -> bool
    ensures { result ≡ all (λ r. is_power r.home) regions.now }
{
    regions.iter().all(|region| is_power(region.home))
}

fn good_edge(regions: &[Region], fleet: bool, edge: Edge) -> bool
    ensures { result ≡ good_edge (land regions.now) fleet edge }
{
    can_stand(regions, fleet, edge.one)
        && can_stand(regions, fleet, edge.two)
        && edge.one != edge.two
}

fn good_edges(regions: &[Region], fleet: bool, edges: &[Edge]) -> bool
    ensures { result ≡ all (good_edge (land regions.now) fleet) edges.now }
{
    edges.iter().all(|edge| good_edge(regions, fleet, *edge))
}

fn good_board(regions: &[Region], march: &[Edge], sail: &[Edge]) -> bool
    ensures { result ≡ good_board (board_from regions.now march.now sail.now) }
{
    regions.len() <= 128
        && good_homes(regions)
        && good_edges(regions, false, march)
        && good_edges(regions, true, sail)
}

// The board, unless it isn't good.
pub fn chart(
    heap: Global,
    regions: Vec<Region>,
    march: Vec<Edge>,
    sail: Vec<Edge>,
) -> Result<Option<Atlas>, AllocError>
    ensures { IfOk result (λ o. MatchOption o (good_board (board_from regions.items march.items sail.items) ≡ false) (λ a. board_of a ≡ board_from regions.items march.items sail.items)) }
{
    if !good_board(regions.as_slice(), march.as_slice(), sail.as_slice()) {
        return Ok(None);
    }
    let march = Links::new(heap, march)?;
    let sail = Links::new(heap, sail)?;
    Ok(Some(Atlas {
        regions,
        march,
        sail,
    }))
}
