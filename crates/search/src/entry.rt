// The queue's table.

// A row that waits, and its charge.
#[derive(Clone, Copy)]
pub struct Waiting<C> {
    pub charge: C,
    pub row: u16,
}

// A waiting row; and, at the index that is a row's number, the place where that row waits.
#[derive(Clone, Copy)]
pub struct Entry<C> {
    pub waiting: Waiting<C>,
    pub place: u16,
}
