// Paths over water: the fleets that carry an army, and how far they reach.
#![tactic(auto)]

pub mod crossing;
pub mod filling;
pub mod flood;
pub mod staying;
pub mod table;
pub mod water;

pub use filling::refill;
pub use table::{dislodged_into, paths_into};
