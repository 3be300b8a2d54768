// The programs as functions: from the bytes of a board's, a game's and an orders' file to the bytes printed.
#![tactic(auto, using(show::proofs::Lines::joins))]

pub mod names;
pub mod opening;
pub mod plan;
pub mod play;
pub mod program;
mod reasons;
pub mod session;
pub mod start;

pub use session::{record, referee, season};
