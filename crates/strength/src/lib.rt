// Strengths, and one order decided by all the others.
#![tactic(auto)]

pub mod round;
pub mod strengths;
pub mod support;

pub use round::{Round, path_at};
