// What becomes of orders that all count at once: rounds, the paradox rule, circular movement.
#![tactic(auto)]

pub mod adjudication;
pub mod paradox;
pub mod report;
pub mod ring;
pub mod rounds;
pub mod settle;
pub mod slate;

pub use adjudication::{Adjudication, adjudicate};
pub use report::Report;
