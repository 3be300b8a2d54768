// Tables by region.
#![tactic(auto)]

pub mod standing;
pub mod table;

pub use standing::Standing;
pub use table::{by_region, filled};
