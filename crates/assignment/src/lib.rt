// Units with their orders, what is decided of each so far, and the tables by which one finds them.
#![tactic(auto)]

pub mod lookup;
pub mod orders;
pub mod resolution;

pub use lookup::Lookup;
pub use orders::Orders;
pub use resolution::Resolution;
