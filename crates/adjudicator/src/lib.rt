// A phase played on a position: moves, retreats or winter, and the next game; and the referee of the programs.
#![tactic(auto)]

pub mod advance;
pub mod barred;
pub mod moves;
pub mod promised;
pub mod referee;
pub mod rest;

pub use promised::{begin, turn};
pub use referee::Adjudicator;
