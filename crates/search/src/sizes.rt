// The numbers of a search, and how it stands.
ghost use Rattle.std.specs.Prelude.{◌≡◌};
ghost use Rattle.search.specs.declared.sizes.Progress.TheVariants.{Crowded};

// How many rows are used, and how many of them wait in the queue.
#[derive(Clone, Copy)]
pub struct Sizes {
    pub used: usize,
    pub waiting: usize,
}

// What no charge and no number of rows may exceed.
#[derive(Clone, Copy)]
pub struct Limits<C> {
    pub bound: C,
    pub capacity: usize,
}

// No row was left for one more.
#[derive(Clone, Copy)]
pub struct Full;

// The row that is expanded: its number, its setting and its charge.
#[derive(Clone, Copy)]
pub struct Source<C> {
    pub row: u16,
    pub setting: [u8; 64],
    pub charge: C,
}

// How a search stands: going on, the least open row is a goal row, no row is open, no row is left.
#[derive(Clone, Copy)]
pub enum Progress {
    Going,
    AtGoal(u16),
    Exhausted,
    Crowded,
}

impl From<Full> for Progress {
    ghost from_gives = { λ _ end. end ≡ Crowded };

    fn from(_full: Full) -> Progress {
        Progress::Crowded
    }
}

// What some steps came to: the sizes, how many rows were expanded, and how the search stands.
#[derive(Clone, Copy)]
pub struct Ran {
    pub sizes: Sizes,
    pub expanded: usize,
    pub progress: Progress,
}
