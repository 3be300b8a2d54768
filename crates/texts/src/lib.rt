// What players wrote: the one text of a power for a region, and the orders that units begin a phase with.
#![tactic(auto)]

pub mod orders;
pub mod texts;

pub use orders::{fresh, fresh_one, order_for};
pub use texts::{Slot, Texts, order_in};
