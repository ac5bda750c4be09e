// Charges worked out by hand.
ghost use Rattle.std.specs.Prelude.{◌≤◌};

use super::*;
use std::cmp::Ordering::*;
use task::Atoms;

fn action(tenths: u32, presses: u16) -> Action
    requires { (tenths ≤ 1000000) × (presses ≤ 1000) }
{
    Action {
        tenths,
        presses,
        conditions: Atoms::none(),
        effects: Atoms::none(),
    }
}

fn pressed(presses: u32, tenths: u64) -> Pressed {
    Pressed { presses, tenths }
}

#[test]
fn time_charges(rt: HostRuntime) {
    assert_eq!(rt; Time.zero(), 0);
    assert_eq!(rt; Time.most(), 65_536_000_000);
    for (a, b, order) in &[(0, 0, Equal), (4, 5, Less), (5, 4, Greater), (7, 7, Equal)] {
        assert_eq!(rt; Time.compare(*a, *b), *order);
    }
    let warm = action(4, 0);
    for (charge, bound, answer) in &[
        (0, 4, Some(4)),
        (0, 3, None),
        (19, 23, Some(23)),
        (20, 23, None),
        (23, 24, None),
    ] {
        assert_eq!(rt; Time.add(*charge, &warm, *bound), *answer);
    }
}

#[test]
fn press_charges(rt: HostRuntime) {
    assert_eq!(rt; Presses.zero(), pressed(0, 0));
    assert_eq!(rt; Presses.most(), pressed(65_536_000, 65_536_000_000));
    for (a, b, order) in &[
        (pressed(1, 9), pressed(2, 0), Less),
        (pressed(2, 0), pressed(1, 9), Greater),
        (pressed(2, 3), pressed(2, 4), Less),
        (pressed(2, 4), pressed(2, 3), Greater),
        (pressed(2, 3), pressed(2, 3), Equal),
    ] {
        assert_eq!(rt; Presses.compare(*a, *b), *order);
    }
    let run = action(10, 1);
    for (charge, bound, answer) in &[
        (pressed(1, 5), pressed(2, 15), Some(pressed(2, 15))),
        (pressed(1, 5), pressed(2, 14), None),
        (pressed(1, 5), pressed(3, 0), Some(pressed(2, 15))),
        (pressed(1, 5), pressed(1, 99), None),
        (pressed(0, 0), pressed(9, 0), Some(pressed(1, 10))),
    ] {
        assert_eq!(rt; Presses.add(*charge, &run, *bound), *answer);
    }
}

#[test]
fn totals(rt: HostRuntime) {
    // menu, users, revoke, run, warm
    let actions = [
        action(2, 1),
        action(2, 1),
        action(5, 1),
        action(10, 1),
        action(4, 0),
    ];
    let plan = [0, 1, 2, 3, 4];
    let all = pressed(4, 23);
    assert_eq!(rt; total(&Time, &actions, &plan, 23), Ok(23));
    assert_eq!(rt; total(&Time, &actions, &plan, 22), Err(TotalError::Over));
    assert_eq!(rt; total(&Time, &actions, &[3, 3, 4], 24), Ok(24));
    assert_eq!(rt; total(&Time, &actions, &[], 0), Ok(0));
    assert_eq!(rt;
        total(&Time, &actions, &[0, 4, 5, 6], 0),
        Err(TotalError::NoAction(2))
    );
    assert_eq!(rt; total(&Time, &[], &[0], 9), Err(TotalError::NoAction(0)));
    assert_eq!(rt; total(&Presses, &actions, &plan, all), Ok(all));
    assert_eq!(rt;
        total(&Presses, &actions, &plan, pressed(4, 22)),
        Err(TotalError::Over)
    );
    assert_eq!(rt; total(&Presses, &actions, &plan, pressed(5, 0)), Ok(all));
    assert_eq!(rt;
        total(&Presses, &actions, &plan, pressed(3, 99)),
        Err(TotalError::Over)
    );
}

#[test]
fn longest_rows(rt: HostRuntime) {
    let actions = [action(1_000_000, 1_000)];
    let numbers = [0; 65_537];
    let longest = &numbers[0..65_536];
    let tenths = 65_536_000_000;
    let both = pressed(65_536_000, tenths);
    assert_eq!(rt; total(&Time, &actions, longest, Time.most()), Ok(tenths));
    assert_eq!(rt;
        total(&Time, &actions, longest, tenths - 1),
        Err(TotalError::Over)
    );
    assert_eq!(rt;
        total(&Presses, &actions, longest, Presses.most()),
        Ok(both)
    );
    assert_eq!(rt;
        total(&Time, &actions, &numbers, Time.most()),
        Err(TotalError::TooMany)
    );
    assert_eq!(rt;
        total(&Presses, &[], &numbers, Presses.most()),
        Err(TotalError::TooMany)
    );
}
