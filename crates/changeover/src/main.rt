// A whole changeover: reads the book `bench.bk`, searches from the setting 0 1 0 0 for a cheapest plan of at
// most 23 tenths, takes its actions one by one, and gives the search up.
#![tactic(auto)]

use book::read;
use rules::Atoms;
use search::{
    Advanced, Ended, Entry, Refused, Rest, Row, Tables, Taken, Waiting, advance, begin, take,
};
use std::{fs, io};
use tariff::Time;
use task::{Action, Task};

const ROWS: usize = 64;

const BOUND: u64 = 23;

// The tables that a search is lent at each call: of fixed lengths, where the tests of `search` choose theirs.
#[derive(Drop)]
struct OwnTables {
    rows: [Row<u64>; ROWS],
    queue: [Entry<u64>; ROWS],
    plan: [u16; ROWS],
    marks: [u8; 1024],
    work: [u8; 4096],
}

impl OwnTables {
    fn new() -> OwnTables {
        let row = Row {
            setting: [0; 64],
            charge: 0,
            closed: false,
            origin: 0,
            action: 0,
        };
        let waiting = Waiting { charge: 0, row: 0 };
        OwnTables {
            rows: [row; ROWS],
            queue: [Entry { waiting, place: 0 }; ROWS],
            plan: [0; ROWS],
            marks: [0; 1024],
            work: [0; 4096],
        }
    }

    fn lend(&mut self) -> Tables<u64> {
        let OwnTables {
            rows,
            queue,
            plan,
            marks,
            work,
        } = self;
        Tables {
            rows,
            queue,
            plan,
            marks,
            work,
        }
    }
}

// Takes the plan's actions one by one, tells each, and gives the search up.
fn tell_steps(
    rt: &HostRuntime,
    actions: &[Action],
    plan: &[u16],
    ended: Ended<u64>,
) -> io::Result<()> {
    let mut phase = ended;
    // a plan has at most as many actions as its list has places
    for _ in plan {
        match take(&Time, actions, plan, phase) {
            Ok(
                Taken {
                    ended,
                    action,
                    remaining,
                },
            ) => {
                phase = ended;
                if let Err(error) = println!(rt; "do {action}, {remaining} tenths remain") {
                    let _ = phase.abandon().into_task();
                    return Err(error);
                }
            }
            Err(Refused { phase, refusal: _ }) => {
                let _ = phase.abandon().into_task();
                return Ok(());
            }
        }
    }
    let _ = phase.abandon().into_task();
    Ok(())
}

// Tells what the search came to, and gives it up.
fn tell(
    rt: &HostRuntime,
    actions: &[Action],
    plan: &[u16],
    advanced: Advanced<u64>,
) -> io::Result<()> {
    match advanced {
        Advanced::Found(ended, charge, count) => {
            tell_steps(rt, actions, plan, ended)?;
            println!(rt; "{charge} tenths in all, {count} settings expanded")
        }
        Advanced::NoPlan(ended, count) => {
            let _ = ended.abandon().into_task();
            println!(rt; "no plan within the bound, {count} settings expanded")
        }
        Advanced::Full(ended, count) => {
            let _ = ended.abandon().into_task();
            println!(rt; "no row left, {count} settings expanded")
        }
        Advanced::Working(search, count) => {
            let _ = search.abandon().into_task();
            println!(rt; "not ended, {count} settings expanded")
        }
    }
}

// Plans the changeover, and tells how it came out.
fn plan_changeover(rt: &HostRuntime, task: Task, actions: &[Action]) -> io::Result<()> {
    let mut tables = OwnTables::new();
    let mut start = [0; 64];
    start[1] = 1;
    let search = match begin(&Time, Rest::new(task), tables.lend(), start, BOUND) {
        Ok(search) => search,
        Err(Refused { phase, refusal }) => {
            let _ = phase.into_task();
            return println!(rt; "{refusal}");
        }
    };
    match advance(&Time, &Atoms, actions, search, tables.lend(), ROWS) {
        Ok(advanced) => tell(rt, actions, &tables.plan, advanced),
        Err(Refused { phase, refusal }) => {
            let _ = phase.abandon().into_task();
            println!(rt; "{refusal}")
        }
    }
}

fn run(rt: &HostRuntime) -> anyhow::Result<()> {
    let bytes = fs::read(rt, "bench.bk")?;
    let mut actions = [Action::default(); 1024];
    match read(bytes.as_slice(), &mut actions) {
        Ok(task) => plan_changeover(rt, task, &actions)?,
        Err(refusal) => println!(rt; "{refusal}")?,
    }
    Ok(())
}

fn main(rt: HostRuntime) -> anyhow::Result<()> {
    run(&rt)
}
