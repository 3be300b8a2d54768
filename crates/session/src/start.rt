// What is played: a position, and the names of its board's regions.
use position::Position;
use text::Names;

// The names of the board's regions.
#[derive(Drop)]
pub struct Gazetteer<'a> {
    pub names: Names<'a>,
}

// A game, as it begins and as it goes on.
#[derive(Drop)]
pub struct Playing<'a> {
    pub places: Gazetteer<'a>,
    pub position: Position,
}
