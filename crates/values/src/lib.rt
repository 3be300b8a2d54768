// The values that deciding reckons with: yes, no and open, and strengths that are known only within bounds.
#![tactic(auto)]

pub mod laws;
pub mod span;
pub mod tri;

pub use span::Span;
pub use tri::Tri;
