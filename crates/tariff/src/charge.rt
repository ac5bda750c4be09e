// Charges, and the answers about them.

// Key presses, and tenths of a second; fewer presses are less, and then fewer tenths.
#[derive(Clone, Copy, PartialEq, Eq, PartialOrd, Ord, Default, Debug)]
pub struct Pressed {
    pub presses: u32,
    pub tenths: u64,
}

// Why a row of action numbers has no sum: it is over the bound; the place of the first number that
// names no action; or there are over 65,536 numbers.
#[derive(Clone, Copy, PartialEq, Eq, Debug)]
pub enum TotalError {
    Over,
    NoAction(usize),
    TooMany,
}
