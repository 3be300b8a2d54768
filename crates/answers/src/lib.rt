// What the referee answers to calls in lines.
#![tactic(auto, using(crate::proofs::InOrder::joins))]

pub mod answering;
pub mod games;
pub mod ordered;
pub mod reports;
pub mod worded;

pub use answering::{answer, answer_all};
pub use games::game_words;
pub use reports::last_words;
