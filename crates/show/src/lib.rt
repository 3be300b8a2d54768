// What the programs print: games, and what is told of a phase, as bytes that grow.
#![tactic(auto, using(crate::proofs::Lines::joins))]

pub mod game_lines;
pub mod leaving;
pub mod moves;
pub mod printer;
pub mod refusal;
pub mod retreat_lines;
pub mod winter;
pub mod words;

pub use printer::{Named, Printer};
pub use refusal::push_refusal;
