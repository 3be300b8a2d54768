// Winter: disbands and builds.
#![tactic(auto)]

mod adjustment;
pub mod winter;

pub use winter::{units_after_winter, winter_of};
