// The board, the units on it, and the orders that a unit can carry out.
#![tactic(auto)]

pub mod atlas;
pub mod legal;
pub mod order;
pub mod region;
pub mod unit;

pub use atlas::Atlas;
pub use order::Order;
pub use region::{Kind, Region, can_stand};
pub use unit::Unit;
