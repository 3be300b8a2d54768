// Regions by number: sets of them, and the edges that join them.
#![tactic(auto)]

pub mod links;
pub mod region_set;

pub use links::{Edge, Links};
pub use region_set::RegionSet;
