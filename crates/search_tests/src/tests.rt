// Searches of two small benches, with results worked out by hand.
use super::*;
use book::read;
use rules::{Actions, All};
use search::{
    Advanced, Ended, Entry, Refused, Rest, Row, Search, Tables, Taken, Waiting, advance, begin,
    take,
};
use std::alloc::{AllocError, Global};
use std::test::Fail;
use tariff::{Pressed, Presses, Time};
use task::Refusal;

// Keypad's book. The tests of `validate` spell it too: a crate that both use would hold these lines and no more.
const KEYPAD: [u8; 119] = [
    1, 0, 1, 0, 3, 1, 0, 1, 0, 2, 1, 0, 1, 0, 2, 1, 0, 1, 0, 2, 12, 0, 2, 0, 2, 0, 0, 0, 1, 0, 1,
    1, 0, 0, 0, 1, 12, 0, 2, 0, 2, 0, 0, 0, 1, 0, 1, 1, 0, 1, 0, 2, 16, 0, 2, 0, 5, 0, 0, 0, 1, 0,
    2, 2, 0, 2, 1, 1, 0, 0, 1, 0, 16, 0, 2, 0, 10, 0, 0, 0, 1, 0, 3, 1, 0, 0, 1, 0, 2, 0, 2, 1, 12,
    0, 2, 0, 4, 0, 0, 0, 0, 0, 1, 1, 3, 0, 3, 1, 7, 0, 3, 0, 3, 1, 0, 2, 1, 3, 1,
];

const FORK: [u8; 60] = [
    1, 0, 1, 0, 3, 12, 0, 2, 0, 10, 0, 0, 0, 1, 0, 1, 1, 0, 0, 0, 2, 12, 0, 2, 0, 2, 0, 0, 0, 1, 0,
    1, 1, 0, 0, 0, 1, 12, 0, 2, 0, 3, 0, 0, 0, 1, 0, 1, 1, 0, 1, 0, 2, 3, 0, 3, 0, 1, 0, 2,
];

// A bench that was read, and its actions.
#[derive(Clone, Copy)]
struct Bench<'a> {
    task: Task,
    actions: &'a [Action],
}

// What is searched for, and by how many steps at once.
#[derive(Clone, Copy)]
struct Asked<C> {
    start: Setting,
    bound: C,
    steps: usize,
}

// How a search came out: an answer's name, a charge, and the count.
#[derive(Clone, Copy, PartialEq, Eq, Debug)]
enum Told<C> {
    Found(C, usize),
    NoPlan(usize),
    Full(usize),
    Working(usize),
    Refused(u8, usize),
}

// The actions of a plan that were taken, and the number of the refusal that ended them.
#[derive(PartialEq, Eq, Debug, Drop)]
struct Walked {
    actions: Vec<u16>,
    last: Option<u8>,
}

// How many places of each table are made, or lent to a call.
#[derive(Clone, Copy)]
struct Lent {
    actions: usize,
    rows: usize,
    queue: usize,
    plan: usize,
    marks: usize,
    work: usize,
}

// Just enough for Keypad and eight rows.
const ENOUGH: Lent = Lent {
    actions: 5,
    rows: 8,
    queue: 8,
    plan: 8,
    marks: 5,
    work: 4096,
};

// More than either bench needs.
const AMPLE: Lent = Lent {
    actions: 8,
    rows: 64,
    queue: 64,
    plan: 64,
    marks: 8,
    work: 4096,
};

// The tables that searches are lent, call by call.
#[derive(Drop)]
struct OwnTables<C> {
    rows: Vec<Row<C>>,
    queue: Vec<Entry<C>>,
    plan: Vec<u16>,
    marks: Vec<u8>,
    work: Vec<u8>,
}

impl<C: Copy> OwnTables<C> {
    // Tables of these lengths, with what they may hold before a search.
    fn new(alloc: Global, charge: C, lengths: Lent) -> Result<Self, AllocError> {
        let row = Row {
            setting: [7; 64],
            charge,
            closed: false,
            origin: 9,
            action: 9,
        };
        let waiting = Waiting { charge, row: 9 };
        let entry = Entry { waiting, place: 9 };
        Ok(OwnTables {
            rows: vec![in alloc; row; lengths.rows]?,
            queue: vec![in alloc; entry; lengths.queue]?,
            plan: vec![in alloc; 9; lengths.plan]?,
            marks: vec![in alloc; 9; lengths.marks]?,
            work: vec![in alloc; 9; lengths.work]?,
        })
    }

    // The first places of each table.
    fn lend(&mut self, lent: Lent) -> Tables<C> {
        let OwnTables {
            rows,
            queue,
            plan,
            marks,
            work,
        } = self;
        Tables {
            rows: first_places(rows, lent.rows),
            queue: first_places(queue, lent.queue),
            plan: first_places(plan, lent.plan),
            marks: first_places(marks, lent.marks),
            work: first_places(work, lent.work),
        }
    }
}

// So many places of a table, or all that it has.
fn first_places<T>(table: &mut [T], count: usize) -> &mut [T] {
    let end = count.min(table.len());
    &mut table[0..end]
}

// Takes the plan's actions one by one, and gives the search up.
fn take_all<T: Tariff>(
    tariff: &T,
    actions: &[Action],
    plan: &[u16],
    ended: Ended<T::Charge>,
    walked: &mut Walked,
) -> Rest {
    let mut phase = ended;
    // the list has more places than a plan here has actions
    for _ in plan {
        match take(tariff, actions, plan, phase) {
            Ok(
                Taken {
                    ended,
                    action,
                    remaining: _,
                },
            ) => {
                phase = ended;
                // where memory is short the list is, and is not the one looked for
                let _ = walked.actions.push(action);
            }
            Err(Refused { phase, refusal }) => {
                walked.last = Some(refusal.number());
                return phase.abandon();
            }
        }
    }
    phase.abandon()
}

// What an Advance came to; a search that ended goes to the closure, and one that did not is given up.
fn settle<C: Copy, F: FnOnce(Ended<C>) -> Rest>(
    advanced: Advanced<C>,
    give_up: F,
) -> (Rest, Told<C>)
    requires { F.IsAlwaysCallable give_up }
{
    match advanced {
        Advanced::Found(ended, charge, count) => (give_up(ended), Told::Found(charge, count)),
        Advanced::NoPlan(ended, count) => (give_up(ended), Told::NoPlan(count)),
        Advanced::Full(ended, count) => (give_up(ended), Told::Full(count)),
        Advanced::Working(search, count) => (search.abandon(), Told::Working(count)),
    }
}

// One search over these tables; the planner is at rest again afterwards. Each parameter is another in some test.
fn search_over<T: Tariff, R: Rule>(
    rt: &impl AllocGlobal,
    tariff: &T,
    rule: &R,
    rest: Rest,
    actions: &[Action],
    asked: Asked<T::Charge>,
    tables: &mut OwnTables<T::Charge>,
) -> (Rest, Told<T::Charge>, Walked) {
    let mut walked = Walked {
        actions: Vec::new(rt.alloc()),
        last: None,
    };
    tables.plan.fill(9);
    tables.marks.fill(9);
    tables.work.fill(9);
    let search = match begin(tariff, rest, tables.lend(AMPLE), asked.start, asked.bound) {
        Ok(search) => search,
        Err(Refused { phase, refusal }) => return (phase, refused_for(refusal), walked),
    };
    let (rest, told) = match advance(
        tariff,
        rule,
        actions,
        search,
        tables.lend(AMPLE),
        asked.steps,
    ) {
        Ok(advanced) => settle(advanced, |ended| {
            take_all(tariff, actions, &tables.plan, ended, &mut walked)
        }),
        Err(Refused { phase, refusal }) => (phase.abandon(), refused_for(refusal)),
    };
    (rest, told, walked)
}

// A search whose charges are numbers, with so many rows.
fn searched<T: Tariff<Charge = u64>, R: Rule>(
    rt: &impl AllocGlobal,
    tariff: &T,
    rule: &R,
    bench: Bench,
    asked: Asked<u64>,
    rows: usize,
) -> Result<(Told<u64>, Walked), AllocError> {
    let mut tables = OwnTables::new(rt.alloc(), 9, Lent { rows, ..AMPLE })?;
    let rest = Rest::new(bench.task);
    let (rest, told, walked) = search_over(
        rt,
        tariff,
        rule,
        rest,
        bench.actions,
        asked,
        &mut tables,
    );
    let _ = rest.into_task();
    Ok((told, walked))
}

// What was taken, and the number that ended it.
fn path_of(rt: &impl AllocGlobal, actions: &[u16], last: Option<u8>) -> Result<Walked, AllocError> {
    Ok(Walked {
        actions: actions.to_vec(rt.alloc())?,
        last,
    })
}

// What a call was refused for.
fn refused_for<C>(refusal: Refusal) -> Told<C> {
    Told::Refused(refusal.number(), refusal.place)
}

// Keypad's start.
fn keypad_start() -> Setting {
    let mut start = [0; 64];
    start[1] = 1;
    start
}

fn pressed(presses: u32, tenths: u64) -> Pressed {
    Pressed { presses, tenths }
}

#[test]
fn keypad(rt: HostRuntime) -> Result<(), Fail> {
    let mut table = [Action::default(); 5];
    let task = read(&KEYPAD, &mut table)?;
    let bench = Bench {
        task,
        actions: &table,
    };
    let asked = Asked {
        start: keypad_start(),
        bound: 23,
        steps: 8,
    };
    assert_eq!(rt;
        searched(&rt, &Time, &Atoms, bench, asked, 8)?,
        (
            Told::Found(23, 7),
            path_of(&rt, &[0, 1, 2, 3, 4], Some(32))?
        )
    );
    assert_eq!(rt;
        searched(&rt, &Time, &Actions, bench, asked, 8)?,
        (
            Told::Found(23, 7),
            path_of(&rt, &[0, 1, 2, 3, 4], Some(32))?
        )
    );
    assert_eq!(rt;
        searched(&rt, &Time, &All, bench, Asked { steps: 64, ..asked }, 64)?,
        (
            Told::Found(23, 14),
            path_of(&rt, &[0, 1, 4, 2, 3], Some(32))?
        )
    );
    let seven = Asked { steps: 7, ..asked };
    assert_eq!(rt;
        searched(&rt, &Time, &Atoms, bench, Asked { bound: 22, ..seven }, 7)?,
        (Told::NoPlan(7), path_of(&rt, &[], Some(31))?)
    );
    assert_eq!(rt;
        searched(&rt, &Time, &Atoms, bench, seven, 7)?,
        (Told::Full(7), path_of(&rt, &[], Some(31))?)
    );
    assert_eq!(rt;
        searched(&rt, &Time, &Atoms, bench, Asked { steps: 5, ..asked }, 8)?,
        (Told::Working(5), path_of(&rt, &[], None)?)
    );
    Ok(())
}

#[test]
fn own_tariff_and_rule(rt: HostRuntime) -> Result<(), Fail> {
    let mut table = [Action::default(); 5];
    let task = read(&KEYPAD, &mut table)?;
    let bench = Bench {
        task,
        actions: &table,
    };
    // every plan has the five actions, so 2 for a tenth and 3 for a press come to 2 * 23 + 3 * 4
    let rates = Rates { tenth: 2, press: 3 };
    let asked = Asked {
        start: keypad_start(),
        bound: 58,
        steps: 64,
    };
    let (told, walked) = searched(&rt, &rates, &Noisy, bench, asked, 64)?;
    assert!(rt; matches!(told, Told::Found(58, _)));
    assert_eq!(rt; walked.actions.len(), 5);
    let (told, _) = searched(&rt, &rates, &Noisy, bench, Asked { bound: 57, ..asked }, 64)?;
    assert!(rt; matches!(told, Told::NoPlan(_)));
    Ok(())
}

#[test]
fn fork(rt: HostRuntime) -> Result<(), Fail> {
    let mut table = [Action::default(); 3];
    let task = read(&FORK, &mut table)?;
    let bench = Bench {
        task,
        actions: &table,
    };
    let asked = Asked {
        start: [0; 64],
        bound: 10,
        steps: 3,
    };
    assert_eq!(rt;
        searched(&rt, &Time, &Atoms, bench, asked, 3)?,
        (Told::Found(5, 2), path_of(&rt, &[1, 2], Some(32))?)
    );
    let by_presses = Asked {
        start: [0; 64],
        bound: pressed(9, 0),
        steps: 3,
    };
    let three = Lent {
        rows: 3,
        queue: 3,
        ..AMPLE
    };
    let mut tables = OwnTables::new(rt.alloc(), pressed(0, 0), three)?;
    let rest = Rest::new(task);
    let (rest, told, walked) = search_over(
        &rt,
        &Presses,
        &Atoms,
        rest,
        &table,
        by_presses,
        &mut tables,
    );
    let _ = rest.into_task();
    assert_eq!(rt; told, Told::Found(pressed(1, 10), 2));
    assert_eq!(rt; walked, path_of(&rt, &[0], Some(32))?);
    let mut goal = [0; 64];
    goal[0] = 2;
    let at_goal = Asked {
        start: goal,
        bound: 0,
        steps: 0,
    };
    assert_eq!(rt;
        searched(&rt, &Time, &Atoms, bench, at_goal, 1)?,
        (Told::Found(0, 0), path_of(&rt, &[], Some(32))?)
    );
    assert_eq!(rt;
        searched(&rt, &Time, &Atoms, bench, asked, 0)?,
        (Told::Refused(20, 2), path_of(&rt, &[], None)?)
    );
    let mut outside = [0; 64];
    outside[0] = 3;
    let from_outside = Asked {
        start: outside,
        ..asked
    };
    assert_eq!(rt;
        searched(&rt, &Time, &Atoms, bench, from_outside, 3)?,
        (Told::Refused(30, 0), path_of(&rt, &[], None)?)
    );
    let short = Bench {
        task,
        actions: &table[0..2],
    };
    assert_eq!(rt;
        searched(&rt, &Time, &Atoms, short, asked, 3)?,
        (Told::Refused(21, 1), path_of(&rt, &[], None)?)
    );
    Ok(())
}

// Several searches by one planner over the same tables, refused calls among them.
#[test]
fn one_list(rt: HostRuntime) -> Result<(), Fail> {
    let mut table = [Action::default(); 5];
    let task = read(&KEYPAD, &mut table)?;
    let eight = Lent {
        rows: 8,
        queue: 8,
        ..AMPLE
    };
    let mut tables = OwnTables::new(rt.alloc(), 9, eight)?;
    let asked = Asked {
        start: keypad_start(),
        bound: 23,
        steps: 8,
    };
    let mut outside = asked;
    outside.start = [0; 64];
    outside.start[5] = 1;
    let cases = [
        (asked, Told::Found(23, 7)),
        (outside, Told::Refused(30, 5)),
        (Asked { bound: 22, ..asked }, Told::NoPlan(7)),
        (Asked { steps: 3, ..asked }, Told::Working(3)),
        (
            Asked {
                bound: 0,
                steps: 1,
                ..asked
            },
            Told::NoPlan(1),
        ),
        (asked, Told::Found(23, 7)),
    ];
    let mut rest = Rest::new(task);
    for (asked, expected) in &cases {
        let (next, told, _) = search_over(&rt, &Time, &Atoms, rest, &table, *asked, &mut tables);
        rest = next;
        assert_eq!(rt; told, *expected);
    }
    let _ = rest.into_task();
    Ok(())
}

// A table that a call can be short of, under its place in a refusal.
#[derive(Clone, Copy)]
enum Table {
    Actions = 1,
    Rows = 2,
    Queue = 3,
    Plan = 4,
    Marks = 5,
    Work = 6,
}

// Just enough, but for one place too few in a table.
fn short_of(table: Table) -> Lent {
    match table {
        Table::Actions => Lent {
            actions: 4,
            ..ENOUGH
        },
        Table::Rows => Lent { rows: 7, ..ENOUGH },
        Table::Queue => Lent { queue: 7, ..ENOUGH },
        Table::Plan => Lent { plan: 7, ..ENOUGH },
        Table::Marks => Lent { marks: 4, ..ENOUGH },
        Table::Work => Lent {
            work: 4095,
            ..ENOUGH
        },
    }
}

impl OwnTables<u64> {
    // A Begin from Keypad's start over the first places of the tables.
    fn begin(&mut self, rest: Rest, lent: Lent) -> Result<Search<u64>, Refused<Rest>> {
        begin(&Time, rest, self.lend(lent), keypad_start(), 23)
    }

    // An Advance by eight steps over the first places of the tables.
    fn advance(
        &mut self,
        search: Search<u64>,
        actions: &[Action],
        lent: Lent,
    ) -> Result<Advanced<u64>, Refused<Search<u64>>> {
        let actions = &actions[0..lent.actions.min(actions.len())];
        advance(&Time, &Atoms, actions, search, self.lend(lent), 8)
    }
}

// What an Advance came to, refused or not; the planner is let go.
fn told_of(answer: Result<Advanced<u64>, Refused<Search<u64>>>) -> Told<u64> {
    let (rest, told) = match answer {
        Ok(advanced) => settle(advanced, |ended| ended.abandon()),
        Err(Refused { phase, refusal }) => (phase.abandon(), refused_for(refusal)),
    };
    let _ = rest.into_task();
    told
}

// Begins over tables cut to these lengths and, where that is refused, over enough of them; then advances.
fn begin_over(bench: Bench, tables: &mut OwnTables<u64>, lent: Lent) -> (Told<u64>, Told<u64>) {
    let (rest, first) = match tables.begin(Rest::new(bench.task), lent) {
        Ok(search) => (search.abandon(), Told::Working(0)),
        Err(Refused { phase, refusal }) => (phase, refused_for(refusal)),
    };
    match tables.begin(rest, ENOUGH) {
        Ok(search) => {
            let result = tables.advance(search, bench.actions, ENOUGH);
            (first, told_of(result))
        }
        Err(Refused { phase, refusal }) => {
            let _ = phase.into_task();
            (first, refused_for(refusal))
        }
    }
}

// Advances over tables cut to these lengths and, where that is refused, over enough of them.
fn advance_over(bench: Bench, tables: &mut OwnTables<u64>, lent: Lent) -> (Told<u64>, Told<u64>) {
    let search = match tables.begin(Rest::new(bench.task), ENOUGH) {
        Ok(search) => search,
        Err(Refused { phase, refusal }) => {
            let _ = phase.into_task();
            return (refused_for(refusal), Told::Working(0));
        }
    };
    match tables.advance(search, bench.actions, lent) {
        Ok(advanced) => {
            let told = told_of(Ok(advanced));
            (told, told)
        }
        Err(Refused { phase, refusal }) => {
            let result = tables.advance(phase, bench.actions, ENOUGH);
            (refused_for(refusal), told_of(result))
        }
    }
}

// Takes an action over the first places of the tables and, where that is refused, over all of them: what it was
// refused for, the action, and the charge of what remains.
fn take_over(
    ended: Ended<u64>,
    actions: &[Action],
    plan: &[u16],
    lent: Lent,
) -> (Told<u64>, Option<(u16, u64)>) {
    let action_end = lent.actions.min(actions.len());
    let plan_end = lent.plan.min(plan.len());
    let (ended, told) = match take(&Time, &actions[0..action_end], &plan[0..plan_end], ended) {
        Ok(
            Taken {
                ended,
                action: _,
                remaining: _,
            },
        ) => (ended, Told::Working(0)),
        Err(Refused { phase, refusal }) => (phase, refused_for(refusal)),
    };
    match take(&Time, actions, plan, ended) {
        Ok(
            Taken {
                ended,
                action,
                remaining,
            },
        ) => {
            let _ = ended.abandon().into_task();
            (told, Some((action, remaining)))
        }
        Err(Refused { phase, refusal }) => {
            let _ = phase.abandon().into_task();
            (refused_for(refusal), None)
        }
    }
}

// Searches from Keypad's start, and takes an action so.
fn take_found(
    bench: Bench,
    tables: &mut OwnTables<u64>,
    lent: Lent,
) -> (Told<u64>, Option<(u16, u64)>) {
    let search = match tables.begin(Rest::new(bench.task), ENOUGH) {
        Ok(search) => search,
        Err(Refused { phase, refusal }) => {
            let _ = phase.into_task();
            return (refused_for(refusal), None);
        }
    };
    match tables.advance(search, bench.actions, ENOUGH) {
        Ok(Advanced::Found(ended, _, _)) => take_over(ended, bench.actions, &tables.plan, lent),
        other => (told_of(other), None),
    }
}

// Each call that is refused for a short table leaves all as it was: the next one comes to the same end.
#[test]
fn short_tables(rt: HostRuntime) -> Result<(), Fail> {
    let mut table = [Action::default(); 5];
    let task = read(&KEYPAD, &mut table)?;
    let bench = Bench {
        task,
        actions: &table,
    };
    let found = Told::Found(23, 7);
    for table in [Table::Queue, Table::Plan, Table::Marks, Table::Work] {
        let mut tables = OwnTables::new(rt.alloc(), 9, ENOUGH)?;
        let expected = (Told::Refused(21, table as usize), found);
        assert_eq!(rt; begin_over(bench, &mut tables, short_of(table)), expected);
    }
    for table in [
        Table::Actions,
        Table::Rows,
        Table::Queue,
        Table::Plan,
        Table::Marks,
        Table::Work,
    ] {
        let mut tables = OwnTables::new(rt.alloc(), 9, ENOUGH)?;
        let expected = (Told::Refused(21, table as usize), found);
        assert_eq!(rt; advance_over(bench, &mut tables, short_of(table)), expected);
    }
    // Keypad's plan begins with action 0 at 2 tenths of its 23
    for table in [Table::Actions, Table::Plan] {
        let mut tables = OwnTables::new(rt.alloc(), 9, ENOUGH)?;
        let expected = (Told::Refused(21, table as usize), Some((0, 21)));
        assert_eq!(rt; take_found(bench, &mut tables, short_of(table)), expected);
    }
    let both = Lent {
        queue: 0,
        ..short_of(Table::Marks)
    };
    let mut tables = OwnTables::new(rt.alloc(), 9, ENOUGH)?;
    assert_eq!(rt;
        advance_over(bench, &mut tables, both),
        (Told::Refused(21, 3), found)
    );
    Ok(())
}
