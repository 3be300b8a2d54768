// Calls as lines of text: a key and numbers, one space apart.
#![tactic(auto)]

pub mod call;
pub mod numbers;
pub mod print;
pub mod split;

pub use call::{Call, Key, read_call};
pub use print::push_line;
pub use split::Lines;
