// One region of the board.
ghost use Rattle.std.specs.Prelude.{◌≡◌};
ghost use Rattle.board.specs.Board.{marchable, sailable, is_coast, is_sea, can_stand, land};

#[derive(Clone, Copy, PartialEq, Eq)]
pub enum Kind {
    Land,
    Coast,
    Sea,
}

#[derive(Clone, Copy)]
pub struct Region {
    pub kind: Kind,
    // A supply centre (the club: a centre).
    pub centre: bool,
    // The power that may build here: a number, as in `Unit`.
    pub home: Option<u8>,
}

impl Kind {
    pub fn marchable(self) -> bool
        ensures { result ≡ marchable self }
    {
        self != Kind::Sea
    }

    pub fn sailable(self) -> bool
        ensures { result ≡ sailable self }
    {
        self != Kind::Land
    }

    pub fn is_coast(self) -> bool
        ensures { result ≡ is_coast self }
    {
        self == Kind::Coast
    }

    pub fn is_sea(self) -> bool
        ensures { result ≡ is_sea self }
    {
        self == Kind::Sea
    }
}

// Whether a fleet, or else an army, can be in `r`: told apart as in `Unit`.
pub fn can_stand(regions: &[Region], fleet: bool, r: u8) -> bool
    ensures { result ≡ can_stand (land regions.now) fleet r }
{
    regions.get(r as usize).is_some_and(|region| {
        if fleet {
            region.kind.sailable()
        } else {
            region.kind.marchable()
        }
    })
}
