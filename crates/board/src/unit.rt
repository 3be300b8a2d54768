// A unit: an army, or a fleet. Power, region and kind are as the definitions and the words have them: a type for each would narrow
// what a reader may be given to test.
#[derive(Clone, Copy)]
pub struct Unit {
    pub power: u8,
    pub region: u8,
    pub fleet: bool,
}
