// The referee over words: what begins a game, what is written for a phase, and the verdict on each.
#![tactic(auto)]

pub mod barred_words;
pub mod begin;
pub mod board_words;
pub mod fault;
pub mod game_words;
pub mod reader;
pub mod referee;
pub mod sections;
pub mod texts;
pub mod verdict;

pub use begin::begin_from;
pub use fault::Fault;
pub use referee::{Referee, begin_anew};
pub use texts::read_texts;
pub use verdict::{Refusal, Verdict};
