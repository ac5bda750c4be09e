// compare: random small tasks, searched by the session and by an exhaustive search; their marks, by the rules and
// by a plain closure; their books, whole and damaged. It says what it compared and how many answers differ.
#![tactic(auto)]

use chance::Chance;
use damage::{Fate, book_of, damaged, reread};
use judge::{ended_rightly, marks_so};
use made::{Made, setting, some_task, some_values, task_of};
use plain::{Cost, Costs, SETTINGS, Small, cheapest, exhaust};
use rules::{Actions, All, Atoms, Rule};
use runs::{Billed, End, Failure, Planner};
use tariff::{Presses, Time};

mod chance;
mod damage;
mod judge;
mod made;
mod plain;
mod runs;

const TASKS: u32 = 2500;

const DAMAGES: u32 = 4;

// How often each thing came about.
#[derive(Clone, Copy, Default)]
struct Tally {
    searches: u32,
    found: u32,
    none: u32,
    full: u32,
    markings: u32,
    refused: u32,
    read_back: u32,
    differences: u32,
}

impl Tally {
    fn ended(&mut self, ended: &Result<End, Failure>) {
        self.searches = self.searches.saturating_add(1);
        match ended {
            Ok(End::Found(_)) => self.found = self.found.saturating_add(1),
            Ok(End::NoPlan) => self.none = self.none.saturating_add(1),
            Ok(End::Full) => self.full = self.full.saturating_add(1),
            Err(_) => {}
        }
    }

    fn read(&mut self, fate: Fate) {
        match fate {
            Fate::Refused => self.refused = self.refused.saturating_add(1),
            Fate::ReadBack => self.read_back = self.read_back.saturating_add(1),
            Fate::Wrong => self.differences = self.differences.saturating_add(1),
        }
    }

    fn judge(&mut self, right: bool) {
        if !right {
            self.differences = self.differences.saturating_add(1);
        }
    }
}

// A bound: the least cost of a plan, a little less, or any other.
fn some_bound(small: &Small, costs: &Costs, chance: &mut Chance) -> Cost {
    let best = cheapest(small, costs).unwrap_or_default();
    // Four ways of equal chance, and no kinds with names: what is drawn is only done here.
    match chance.below(4) {
        0 => best,
        1 if best.second > 0 => Cost {
            first: best.first,
            second: best.second - 1,
        },
        1 => Cost {
            first: best.first.saturating_sub(1),
            second: best.second,
        },
        2 => Cost {
            first: u64::from(chance.below(100_000)),
            second: 0,
        },
        _ => Cost {
            first: u64::from(chance.below(20)),
            second: u64::from(chance.below(20)),
        },
    }
}

// A task, and the same as the planner's data.
#[derive(Drop)]
struct Case {
    small: Small,
    made: Made,
}

// The comparison so far.
#[derive(Drop)]
struct Comparison {
    chance: Chance,
    tally: Tally,
}

impl Comparison {
    // One search by one rule.
    fn search<B: Billed, R: Rule>(
        &mut self,
        planner: &mut Planner<B>,
        rule: &R,
        case: &Case,
        costs: &Costs,
    ) {
        let small = &case.small;
        let chance = &mut self.chance;
        let bound = some_bound(small, costs, chance);
        let places = if chance.once_in(2) {
            1 + chance.below(4) as usize
        } else {
            SETTINGS
        };
        let start = setting(small.start);
        let ended = planner.search(rule, &case.made, start, bound, places, chance);
        self.tally.ended(&ended);
        let right = ended_rightly(small, planner, costs, bound, places, &ended);
        self.tally.judge(right);
    }

    // The task by every rule under one tariff.
    fn searches<B: Billed>(&mut self, planner: &mut Planner<B>, case: &Case) {
        let costs = exhaust(&case.small, &planner.tariff);
        self.search(planner, &All, case, &costs);
        self.search(planner, &Actions, case, &costs);
        self.search(planner, &Atoms, case, &costs);
    }

    // The task's marks by both rules, in its start and in a setting of chance.
    fn markings(&mut self, case: &Case) {
        let Case { small, made } = case;
        let mut values = small.start;
        for _ in 0..2 {
            self.tally.markings = self.tally.markings.saturating_add(2);
            let by_actions = marks_so(&Actions, small, made, values, &mut self.chance);
            self.tally.judge(by_actions);
            let by_atoms = marks_so(&Atoms, small, made, values, &mut self.chance);
            self.tally.judge(by_atoms);
            values = some_values(&mut self.chance, small.sizes);
        }
    }

    // The task's book, whole and damaged. The table that it is read into holds the first action, which has effects.
    fn books(&mut self, made: &Made) {
        let Some(book) = book_of(made) else {
            self.tally.judge(false);
            return;
        };
        let held = made.table[0];
        self.tally.read(reread(&book, held));
        for _ in 0..DAMAGES {
            let hurt = damaged(&book, &mut self.chance);
            self.tally.read(reread(&hurt, held));
        }
    }

    // Makes the tasks, and compares.
    fn tasks(&mut self) {
        let mut by_time = Planner::new(Time);
        let mut by_presses = Planner::new(Presses);
        for _ in 0..TASKS {
            let small = some_task(&mut self.chance);
            let made = task_of(&small);
            let case = Case { small, made };
            self.searches(&mut by_time, &case);
            self.searches(&mut by_presses, &case);
            self.markings(&case);
            self.books(&case.made);
        }
    }
}

fn run(rt: &HostRuntime) -> anyhow::Result<()> {
    let mut comparison = Comparison {
        chance: Chance::new(20),
        tally: Tally::default(),
    };
    comparison.tasks();
    told(rt, comparison.tally)
}

// What was compared. How many of each kind there were is said on standard error; that none is rare, here.
fn told(rt: &HostRuntime, tally: Tally) -> anyhow::Result<()> {
    let Tally {
        searches,
        found,
        none,
        full,
        markings,
        refused,
        read_back,
        differences,
    } = tally;
    let books = refused.saturating_add(read_back);
    eprintln!(rt;
        "found {found}, none {none}, full {full}, refused {refused}, read back {read_back}"
    )?;
    let often = found >= 2000
        && none >= 2000
        && full >= 500
        && refused >= 2000
        && read_back >= 2000;
    println!(rt; "{TASKS} tasks, {searches} searches, {markings} markings, {books} books")?;
    println!(rt; "each end of a search and each fate of a book often: {often}")?;
    println!(rt; "differences: {differences}")?;
    Ok(())
}

fn main(rt: HostRuntime) -> anyhow::Result<()> {
    run(&rt)
}
