// Searches by the session.
use crate::chance::Chance;
use crate::made::Made;
use crate::plain::{Cost, Prices, SETTINGS, STEPS, Step};
use arrayvec::ArrayVec;
use rules::Rule;
use search::{
    Advanced, Ended, Entry, Refused, Rest, Row, Search, Tables, Taken, Waiting, advance, begin,
    take,
};
use std::ops::ControlFlow;
use tariff::{Pressed, Presses, Tariff, Time};
use task::{Action, Setting};

// A tariff whose charges can be written as costs, with its prices in plain numbers. No `From`: what a number says
// in costs hangs on the tariff, and two tariffs may share a kind of charge.
pub(crate) trait Billed: Tariff + Prices {
    fn charge_of(&self, cost: Cost) -> Self::Charge;

    fn cost_of(&self, charge: Self::Charge) -> Cost;
}

impl Prices for Time {
    fn price(&self, step: &Step) -> Cost {
        Cost {
            first: u64::from(step.tenths),
            second: 0,
        }
    }
}

impl Billed for Time {
    fn charge_of(&self, cost: Cost) -> u64 {
        cost.first
    }

    fn cost_of(&self, charge: u64) -> Cost {
        Cost {
            first: charge,
            second: 0,
        }
    }
}

impl Prices for Presses {
    fn price(&self, step: &Step) -> Cost {
        Cost {
            first: u64::from(step.presses),
            second: u64::from(step.tenths),
        }
    }
}

impl Billed for Presses {
    fn charge_of(&self, cost: Cost) -> Pressed {
        Pressed {
            presses: (cost.first & 0xffff_ffff) as u32,
            tenths: cost.second,
        }
    }

    fn cost_of(&self, charge: Pressed) -> Cost {
        Cost {
            first: u64::from(charge.presses),
            second: charge.tenths,
        }
    }
}

// An action that was taken, and the cost of what remained.
#[derive(Clone, Copy, Default)]
pub(crate) struct Went {
    pub(crate) action: usize,
    pub(crate) remaining: Cost,
}

// How a search ended: with a plan of a cost, with no plan, with no row left.
#[derive(Clone, Copy)]
pub(crate) enum End {
    Found(Cost),
    NoPlan,
    Full,
}

// Why a search did not end.
#[derive(Clone, Copy)]
pub(crate) enum Failure {
    Refused,
    Endless,
}

// Takes the plan's actions one by one, and gives the search up; the last Take is refused.
fn take_all<B: Billed>(
    tariff: &B,
    actions: &[Action],
    plan: &[u16],
    ended: Ended<B::Charge>,
    went: &mut ArrayVec<Went, SETTINGS>,
) {
    let mut phase = ended;
    for _ in 0..SETTINGS {
        match take(tariff, actions, plan, phase) {
            Ok(taken) => {
                let Taken {
                    ended,
                    action,
                    remaining,
                } = taken;
                let remaining = tariff.cost_of(remaining);
                let action = action as usize;
                phase = ended;
                // It fits: there are no more rounds than places.
                let _fits = went.try_push(Went { action, remaining });
            }
            Err(refused) => {
                let Refused { phase, refusal: _ } = refused;
                let _ = phase.abandon().into_task();
                return;
            }
        }
    }
    let _ = phase.abandon().into_task();
}

// What an Advance came to: the search goes on, or is over.
fn outcome<B: Billed>(
    tariff: &B,
    actions: &[Action],
    plan: &[u16],
    advanced: Advanced<B::Charge>,
    went: &mut ArrayVec<Went, SETTINGS>,
) -> ControlFlow<Result<End, Failure>, Search<B::Charge>> {
    match advanced {
        Advanced::Working(search, _) => ControlFlow::Continue(search),
        Advanced::Found(ended, charge, _) => {
            let cost = tariff.cost_of(charge);
            take_all(tariff, actions, plan, ended, went);
            ControlFlow::Break(Ok(End::Found(cost)))
        }
        Advanced::NoPlan(ended, _) => {
            let _ = ended.abandon().into_task();
            ControlFlow::Break(Ok(End::NoPlan))
        }
        Advanced::Full(ended, _) => {
            let _ = ended.abandon().into_task();
            ControlFlow::Break(Ok(End::Full))
        }
    }
}

// A tariff, tables for its searches, and the actions that were taken of the last plan. The rows and the queue keep what
// the last search left in them.
#[derive(Drop)]
pub(crate) struct Planner<B: Billed> {
    pub(crate) tariff: B,
    rows: [Row<B::Charge>; SETTINGS],
    queue: [Entry<B::Charge>; SETTINGS],
    plan: [u16; SETTINGS],
    marks: [u8; STEPS],
    work: [u8; 4096],
    pub(crate) went: ArrayVec<Went, SETTINGS>,
}

impl<B: Billed> Planner<B> {
    pub(crate) fn new(tariff: B) -> Self {
        let charge = tariff.zero();
        let row = Row {
            setting: [7; 64],
            charge,
            closed: true,
            origin: 9,
            action: 9,
        };
        let waiting = Waiting { charge, row: 9 };
        let entry = Entry { waiting, place: 9 };
        Planner {
            tariff,
            rows: [row; SETTINGS],
            queue: [entry; SETTINGS],
            plan: [0; SETTINGS],
            marks: [9; STEPS],
            work: [9; 4096],
            went: ArrayVec::new(),
        }
    }

    // Advances a search by chance amounts of steps until it ends. Its parameters are those of `search`.
    fn run_out<R: Rule>(
        &mut self,
        rule: &R,
        made: &Made,
        begun: Search<B::Charge>,
        places: usize,
        chance: &mut Chance,
    ) -> Result<End, Failure> {
        let mut search = begun;
        for _ in 0..2000 {
            let rows = &mut self.rows[..];
            let lent = Tables {
                rows: &mut rows[0..places.min(SETTINGS)],
                queue: &mut self.queue,
                plan: &mut self.plan,
                marks: &mut self.marks,
                work: &mut self.work,
            };
            let steps = chance.below(6) as usize;
            match advance(&self.tariff, rule, &made.table, search, lent, steps) {
                Ok(advanced) => {
                    match outcome(
                        &self.tariff,
                        &made.table,
                        &self.plan,
                        advanced,
                        &mut self.went,
                    ) {
                        ControlFlow::Continue(next) => search = next,
                        ControlFlow::Break(end) => return end,
                    }
                }
                Err(refused) => {
                    let Refused { phase, refusal: _ } = refused;
                    let _ = phase.abandon().into_task();
                    return Err(Failure::Refused);
                }
            }
        }
        let _ = search.abandon().into_task();
        Err(Failure::Endless)
    }

    // One search of the task from the start, over the first rows. Each parameter is another at each call.
    pub(crate) fn search<R: Rule>(
        &mut self,
        rule: &R,
        made: &Made,
        start: Setting,
        bound: Cost,
        places: usize,
        chance: &mut Chance,
    ) -> Result<End, Failure> {
        self.plan = [0; SETTINGS];
        self.marks = [9; STEPS];
        self.work = [9; 4096];
        self.went.clear();
        let charge = self.tariff.charge_of(bound);
        let rows = &mut self.rows[..];
        let lent = Tables {
            rows: &mut rows[0..places.min(SETTINGS)],
            queue: &mut self.queue,
            plan: &mut self.plan,
            marks: &mut self.marks,
            work: &mut self.work,
        };
        match begin(&self.tariff, Rest::new(made.task), lent, start, charge) {
            Ok(search) => self.run_out(rule, made, search, places, chance),
            Err(refused) => {
                let Refused { phase, refusal: _ } = refused;
                let _ = phase.into_task();
                Err(Failure::Refused)
            }
        }
    }
}
