// The referee of the programs: a position, and what was told of the last phase of moves.
ghost use Rattle.position.specs.Position.{board_of, game_of};

use super::advance::advance;
use calls::{Fault, Referee, Verdict, begin_anew, read_texts};
use deciding::Report;
use position::Position;
use std::alloc::{AllocError, Global};
use texts::Texts;

#[derive(Drop)]
pub struct Adjudicator {
    pub heap: Global,
    pub position: Position,
    pub last: Vec<Report>,
}

impl Referee for Adjudicator {
    ghost board = { λ s. board_of s.position };

    ghost game = { λ s. game_of s.position };

    ghost last = { λ s. s.last.items };

    fn begin(&mut self, words: &[u32]) -> Result<Verdict, AllocError> {
        begin_anew(self.heap, &mut self.position, words)
    }

    fn turn(&mut self, words: &[u32]) -> Result<Verdict, AllocError> {
        let regions = self.position.atlas.regions.len() as u8;
        match read_texts(self.heap, regions, words) {
            Ok(list) => {
                let texts = Texts::new(self.heap, list)?;
                if let Some(reports) = advance(self.heap, &mut self.position, &texts)? {
                    self.last = reports;
                }
                Ok(Verdict::Accepted)
            }
            Err(Fault::Refused(refusal)) => Ok(refusal.into()),
            Err(Fault::NoMemory) => Err(AllocError {}),
        }
    }
}
