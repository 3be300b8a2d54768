// Retreats of dislodged units.
#![tactic(auto)]

mod pending;
pub mod retreats;

pub use retreats::{goal_counts, retreat_goals, units_after_retreats, with_units};
