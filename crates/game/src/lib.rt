// A game: its phase, its units, those dislodged, barred regions and owners; and what players write.
#![tactic(auto)]

pub mod phase;
pub mod text;

pub use phase::{Dislodged, NoPhase, Phase};
pub use text::{Text, Written};
