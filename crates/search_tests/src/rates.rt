// Rates of a room's own.
ghost use Rattle.std.specs.Prelude.{◌≤◌};

// So much for a tenth of a second, so much for a press.
#[derive(Clone, Copy)]
pub struct Rates {
    pub tenth: u32,
    pub press: u32,
    ghost low: { (tenth ≤ 1000) × (press ≤ 1000) },
}
