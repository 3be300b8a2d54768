// A lawful game on a good board, as the code holds it.
#![tactic(auto)]

pub mod atlas;
pub mod lawful;
pub mod position;
pub mod start;

pub use atlas::chart;
pub use position::Position;
