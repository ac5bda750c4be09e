// Numbers without much pattern, the same in every run.
ghost use Rattle.std.specs.Prelude.{◌<◌};

#[derive(Drop)]
pub(crate) struct Chance {
    state: u64,
}

impl Chance {
    pub(crate) fn new(seed: u64) -> Chance {
        Chance { state: seed }
    }

    // A number below `n`; 0 where `n` is 0.
    pub(crate) fn below(&mut self, n: u32) -> u32
        ensures { 0 < n → result < n }
    {
        let next = self.state.wrapping_mul(6_364_136_223_846_793_005);
        self.state = next.wrapping_add(1_442_695_040_888_963_407);
        let high = ((self.state >> 33) & 0x7fff_ffff) as u32;
        high.checked_rem(n).unwrap_or(0)
    }

    // True once in `n` times.
    pub(crate) fn once_in(&mut self, n: u32) -> bool {
        self.below(n) == 0
    }
}
