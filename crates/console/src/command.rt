// What a line asks for.
#[derive(Clone, Copy, Debug, PartialEq, Eq)]
pub enum Command {
    Begin { bound: u64, start: [u8; 64] },
    Advance { steps: u32 },
    Take,
    Abandon,
}
