// A tariff and a rule of a user's own.
#![tactic(auto)]

ghost use Rattle.std.specs.Prelude.{◌≡◌, ℕ, ◌+◌, ◌%◌, ◌<◌, length, if◌then◌else◌, nat_eq, slice_index};
ghost use Rattle.task.specs.Benches.{act_of};
ghost use Rattle.search_tests.specs.Rates.{rate, rated};
ghost use Rattle.search_tests.specs.Noise.{noisy_marking};

use rules::{Atoms, Rule};
use std::cmp::Ordering;
use tariff::Tariff;
use task::{Action, Setting, Task};

mod rates;

pub use rates::Rates;

impl Rates {
    // What the action costs by these rates.
    fn of(&self, action: &Action) -> u64
        ensures { result ≡ rate self.now.tenth self.now.press (act_of action.now) }
    {
        self.tenth as u64 * action.tenths as u64 + self.press as u64 * action.presses as u64
    }
}

impl Tariff for Rates {
    type Charge = u64;

    ghost charges = { λ r. rated r.tenth r.press };

    fn zero(&self) -> u64 {
        0
    }

    fn most(&self) -> u64 {
        (self.tenth as u64 * 1_000_000 + self.press as u64 * 1_000) * 65_536
    }

    fn compare(&self, a: u64, b: u64) -> Ordering {
        a.cmp(&b)
    }

    // Time adds alike over its own charge; a tariff of a user's own brings its whole `add`.
    fn add(&self, charge: u64, action: &Action, bound: u64) -> Option<u64> {
        charge
            .checked_add(self.of(action))
            .filter(|sum| *sum <= bound)
    }
}

// Marks what Atoms marks, and every third action besides.
#[derive(Clone, Copy)]
pub struct Noisy;

impl Rule for Noisy {
    ghost marking = { λ _. noisy_marking };

    fn mark(
        &self,
        task: &Task,
        actions: &[Action],
        setting: Setting,
        marks: &mut [u8],
        work: &mut [u8],
    ) {
        Atoms.mark(task, actions, setting, marks, work);
        disturb(setting[0] as usize, marks);
    }
}

// Marks every third action, from a place that the offset fixes.
fn disturb(offset: usize, marks: &mut [u8])
    requires { offset < 256 }
    ensures { (k : ℕ) → k < length marks.new → slice_index marks.new k ≡ (if nat_eq ((offset + k % 3) % 3) 0 then 1 else slice_index marks.old k) }
{
    for (k, mark) in marks.iter_mut().enumerate() {
        if (offset + k % 3) % 3 == 0 {
            *mark = 1;
        }
    }
}

#[cfg(test)]
mod tests;
