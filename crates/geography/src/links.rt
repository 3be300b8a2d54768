// Edges for one kind of unit: the list, which is what the definitions speak of, and beside it for each region the set of regions joined
// to it, which answers at once.
ghost use Rattle.std.specs.Prelude.{◌≡◌, ℕ, ◌<◌, ◌≤◌, ◌&&◌, ◌||◌, length, replicate, IfOk, vec_len, ◌==◌, slice_index_or};
ghost use Rattle.geography.specs.RegionSet.{has, empty};
ghost use Rattle.geography.specs.Links.{linked, Tied, Ends};

use super::region_set::RegionSet;
use std::alloc::{AllocError, Global};

#[derive(Clone, Copy)]
pub struct Edge {
    pub one: u8,
    pub two: u8,
}

#[derive(Drop)]
pub struct Links {
    pub edges: Vec<Edge>,
    neighbours: Vec<RegionSet>,
    ghost long: { vec_len neighbours ≡ 256 },
    ghost tied: { Tied edges.items neighbours.items },
}

// `b` becomes a neighbour of `a`.
fn join(neighbours: &mut Vec<RegionSet>, a: u8, b: u8)
    requires long { vec_len neighbours.old ≡ 256 }
    requires end { b < 128 }
    ensures long { vec_len neighbours.new ≡ 256 }
    ensures beside { (p q : ℕ) → has (slice_index_or neighbours.new.items p empty) q ≡ ((p == a && q == b) || has (slice_index_or neighbours.old.items p empty) q) }
{
    neighbours[a as usize].insert(b);
}

fn tie(neighbours: &mut Vec<RegionSet>, edges: &[Edge])
    requires blank { neighbours.old.items ≡ replicate 256 empty }
    requires long { vec_len neighbours.old ≡ 256 }
    requires ends { Ends edges.now }
    ensures long { vec_len neighbours.new ≡ 256 }
    ensures tied { Tied edges.now neighbours.new.items }
{
    for e in edges.iter().rev() {
        join(neighbours, e.one, e.two);
        join(neighbours, e.two, e.one);
    }
}

impl Links {
    pub fn new(heap: Global, edges: Vec<Edge>) -> Result<Links, AllocError>
        requires { Ends edges.items }
        ensures { IfOk result (λ s. s.edges.items ≡ edges.items) }
    {
        let mut neighbours = vec![in heap; RegionSet::EMPTY; 256]?;
        tie(&mut neighbours, edges.as_slice());
        Ok(Links { edges, neighbours })
    }

    // The regions joined to `a`.
    pub fn beside(&self, a: u8) -> RegionSet
        ensures { (b : ℕ) → has result b ≡ linked a b self.now.edges.items }
    {
        self.neighbours[a as usize]
    }

    pub fn joined(&self, a: u8, b: u8) -> bool
        ensures { result ≡ linked a b self.now.edges.items }
    {
        self.beside(a).contains(b)
    }
}
