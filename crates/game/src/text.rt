// What a power wrote for a region. Powers and kinds of units are as in `board::Unit`.
use board::Order;

#[derive(Clone, Copy)]
pub enum Text {
    Command(Order),
    // A new army or fleet.
    Build { fleet: bool },
    // The club: struck, `gone`.
    Disband,
}

#[derive(Clone, Copy)]
pub struct Written {
    pub power: u8,
    pub region: u8,
    pub text: Text,
}
