// Files read: a board's, a game's and orders' bytes, to the words of a call or to a refusal with its line.
#![tactic(auto)]

pub mod board_file;
pub mod files;
pub mod game_file;
pub mod lines;
pub mod names;
pub mod orders_file;
mod reader;
pub mod refusal;
pub mod words;

pub use board_file::{BoardFile, read_board};
pub use files::begin_words;
pub use game_file::{GameFile, read_game};
pub use names::Names;
pub use orders_file::{Block, read_orders};
pub use refusal::{Fault, Reason, Refusal};
