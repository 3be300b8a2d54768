// The three programs, by how many phases each plays and what it prints of them: an enum and no closures, since one definition,
// `program_bytes`, speaks of all three.

#[derive(Clone, Copy)]
pub enum Program {
    // One phase.
    Referee,
    // Up to and with the first winter.
    Season,
    // Until the last block of orders has been taken; games only.
    Record,
}
