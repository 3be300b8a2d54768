// What moves leave behind: who stands, who is dislodged, what is contested, and who owns the centres.
#![tactic(auto)]

pub mod after_moves;
pub mod arrived;
pub mod owners;

pub use after_moves::{Arrival, arrivals, contested, displaced, standing};
pub use arrived::Arrivals;
pub use owners::new_owners;
