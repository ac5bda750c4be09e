// The rows of a search.

// A setting that was reached, its charge, whether it was expanded, the row it came from and the action
// between.
#[derive(Clone, Copy)]
pub struct Row<C> {
    pub setting: [u8; 64],
    pub charge: C,
    pub closed: bool,
    pub origin: u16,
    pub action: u16,
}
