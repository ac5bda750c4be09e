// Tariffs: what an action costs, and what a row of actions costs together.
#![tactic(auto)]

ghost use Rattle.std.specs.Prelude.{◌≡◌, ◌≤◌, map, length, None};
ghost use Rattle.task.specs.Benches.{act_of};
ghost use Rattle.tariff.specs.Charges.{Charges};
ghost use Rattle.tariff.specs.Totals.{ordered, against, Adding, charge_of, stray, totalled};
ghost use Rattle.tariff.specs.Time.{time};
ghost use Rattle.tariff.specs.Presses.{pressing};

mod charge;

pub use charge::{Pressed, TotalError};
use std::cmp::Ordering;
use task::Action;

// A kind of charge, and a charge for each action.
pub trait Tariff {
    type Charge: Copy;

    ghost charges: { Self → Charges Self.Charge };

    // The charge of no actions.
    fn zero(&self) -> Self::Charge
        ensures { result ≡ (charges self.now).zero };

    // A charge that no sum of up to 65,536 charges of actions exceeds.
    fn most(&self) -> Self::Charge
        ensures { result ≡ (charges self.now).greatest };

    // How the charges stand to each other.
    fn compare(&self, a: Self::Charge, b: Self::Charge) -> Ordering
        ensures { result ≡ ordered (charges self.now).le a b };

    // The charge and the action's charge together, if that is at most the bound. The answer is free where
    // they are no sum of up to 65,536 charges of actions.
    fn add(
        &self,
        charge: Self::Charge,
        action: &Action,
        bound: Self::Charge,
    ) -> Option<Self::Charge>
        ensures { Adding (charges self.now) charge (act_of action.now) bound result };
}

// Tenths of a second.
#[derive(Clone, Copy)]
pub struct Time;

impl Tariff for Time {
    type Charge = u64;

    ghost charges = { λ _. time };

    fn zero(&self) -> u64 {
        0
    }

    fn most(&self) -> u64 {
        65_536 * 1_000_000
    }

    fn compare(&self, a: u64, b: u64) -> Ordering {
        a.cmp(&b)
    }

    fn add(&self, charge: u64, action: &Action, bound: u64) -> Option<u64> {
        charge
            .checked_add(action.tenths as u64)
            .filter(|sum| *sum <= bound)
    }
}

// Key presses first, tenths of a second second.
#[derive(Clone, Copy)]
pub struct Presses;

impl Tariff for Presses {
    type Charge = Pressed;

    ghost charges = { λ _. pressing };

    fn zero(&self) -> Pressed {
        Pressed::default()
    }

    fn most(&self) -> Pressed {
        Pressed {
            presses: 65_536 * 1_000,
            tenths: 65_536 * 1_000_000,
        }
    }

    fn compare(&self, a: Pressed, b: Pressed) -> Ordering {
        a.cmp(&b)
    }

    #[tactic(auto, using(crate::specs::Presses::tenths_few))]
    fn add(&self, charge: Pressed, action: &Action, bound: Pressed) -> Option<Pressed> {
        let presses = charge.presses.checked_add(action.presses as u32)?;
        let tenths = charge.tenths.checked_add(action.tenths as u64)?;
        let sum = Pressed { presses, tenths };
        (sum <= bound).then_some(sum)
    }
}

// The place of the first number that is not below the limit.
fn first_stray(numbers: &[u16], limit: usize) -> Option<usize>
    ensures { result ≡ stray limit 0 numbers.now }
{
    numbers.iter().position(|number| *number as usize >= limit)
}

// What the named actions cost together, if that is at most the bound.
#[tactic(auto, using(crate::proofs::Totals::none_stray, crate::proofs::Totals::fold_over))]
fn add_up<T: Tariff>(
    tariff: &T,
    actions: &[Action],
    numbers: &[u16],
    bound: T::Charge,
) -> Option<T::Charge>
    requires few { length numbers.now ≤ 65536 }
    requires known { stray (length actions.now) 0 numbers.now ≡ None }
    ensures { result ≡ against (T.charges tariff.now).le bound (charge_of (T.charges tariff.now) (map act_of actions.now) numbers.now) }
{
    let mut sum = tariff.zero();
    for number in numbers {
        sum = tariff.add(sum, &actions[*number as usize], bound)?;
    }
    Some(sum)
}

// What the actions of the table that the numbers name cost together, if that is at most the bound.
#[tactic(auto, using(crate::proofs::Totals::totalled_few))]
pub fn total<T: Tariff>(
    tariff: &T,
    actions: &[Action],
    numbers: &[u16],
    bound: T::Charge,
) -> Result<T::Charge, TotalError>
    ensures { result ≡ totalled (T.charges tariff.now) (map act_of actions.now) numbers.now bound }
{
    if numbers.len() > 65_536 {
        return Err(TotalError::TooMany);
    }
    if let Some(place) = first_stray(numbers, actions.len()) {
        return Err(TotalError::NoAction(place));
    }
    add_up(tariff, actions, numbers, bound).ok_or(TotalError::Over)
}

#[cfg(test)]
mod tests;
