// The five phases of a year, and who waits between them.
ghost use Rattle.std.specs.Prelude.{◌≡◌};
ghost use Rattle.game.specs.Game.{is_moves, is_retreats, next};
ghost use Rattle.game.specs.Number.{phase_number, Numbered};

use board::Unit;

#[derive(Clone, Copy, Debug, PartialEq, Eq)]
pub enum Phase {
    SpringMoves = 0,
    SpringRetreats = 1,
    AutumnMoves = 2,
    AutumnRetreats = 3,
    Winter = 4,
}

// A number that is no phase's.
#[derive(Clone, Copy, Debug, PartialEq, Eq)]
pub struct NoPhase;

impl Phase {
    pub fn next(self) -> Phase
        ensures { result ≡ next self }
    {
        match self {
            Phase::SpringMoves => Phase::SpringRetreats,
            Phase::SpringRetreats => Phase::AutumnMoves,
            Phase::AutumnMoves => Phase::AutumnRetreats,
            Phase::AutumnRetreats => Phase::Winter,
            Phase::Winter => Phase::SpringMoves,
        }
    }

    pub fn is_moves(self) -> bool
        ensures { result ≡ is_moves self }
    {
        matches!(self, Phase::SpringMoves | Phase::AutumnMoves)
    }

    pub fn is_retreats(self) -> bool
        ensures { result ≡ is_retreats self }
    {
        matches!(self, Phase::SpringRetreats | Phase::AutumnRetreats)
    }
}

impl From<Phase> for u8 {
    ghost from_gives = { λ phase number. number ≡ phase_number phase };

    fn from(phase: Phase) -> u8 {
        phase as u8
    }
}

impl TryFrom<u32> for Phase {
    type Error = NoPhase;

    ghost try_from_gives = { Numbered };

    fn try_from(number: u32) -> Result<Phase, NoPhase> {
        match number {
            0 => Ok(Phase::SpringMoves),
            1 => Ok(Phase::SpringRetreats),
            2 => Ok(Phase::AutumnMoves),
            3 => Ok(Phase::AutumnRetreats),
            4 => Ok(Phase::Winter),
            _ => Err(NoPhase),
        }
    }
}

// A unit that was dislodged and may still retreat (the club: thrown out, `out`).
#[derive(Clone, Copy)]
pub struct Dislodged {
    pub unit: Unit,
    // Where the attack came from, unless it came over water.
    pub from: Option<u8>,
}
