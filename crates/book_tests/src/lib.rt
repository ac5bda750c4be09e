// Books, what they read to, and what is written of that.
#![tactic(auto)]

#[cfg(test)]
mod maker;

#[cfg(test)]
mod tests {
    use crate::maker::{
        Maker, accepted, not_written, parts, refused, refused_after, round_trip, same_action,
        same_atoms, spare, written,
    };
    use book::read;
    use std::test::Fail;

    #[test]
    fn the_keypad_book(rt: HostRuntime) -> Result<(), Fail> {
        let mut book = Maker::new(rt.alloc());
        book.add(b"\x01\x00\x01\x00\x03")?;
        book.add(b"\x01\x00\x01\x00\x02")?;
        book.add(b"\x01\x00\x01\x00\x02")?;
        book.add(b"\x01\x00\x01\x00\x02")?;
        book.add(b"\x0c\x00\x02\x00\x02\x00\x00\x00\x01\x00\x01\x01\x00\x00\x00\x01")?;
        book.add(b"\x0c\x00\x02\x00\x02\x00\x00\x00\x01\x00\x01\x01\x00\x01\x00\x02")?;
        book.add(
            b"\x10\x00\x02\x00\x05\x00\x00\x00\x01\x00\x02\x02\x00\x02\x01\x01\x00\x00\x01\x00",
        )?;
        book.add(
            b"\x10\x00\x02\x00\x0a\x00\x00\x00\x01\x00\x03\x01\x00\x00\x01\x00\x02\x00\x02\x01",
        )?;
        book.add(b"\x0c\x00\x02\x00\x04\x00\x00\x00\x00\x00\x01\x01\x03\x00\x03\x01")?;
        book.add(b"\x07\x00\x03\x00\x03\x01\x00\x02\x01\x03\x01")?;
        round_trip(&rt, book.bytes())?;
        let mut table = [spare(); 6];
        let task = read(book.bytes(), &mut table)?;
        let sizes = task.sizes;
        assert_eq!(rt; task.variables, 4);
        assert_eq!(rt; task.actions, 5);
        assert_eq!(rt; sizes[0], 3);
        assert_eq!(rt; sizes[3], 2);
        assert_eq!(rt; sizes[4], 0);
        assert!(rt; same_atoms(task.goal.list(), b"\x01\x00\x02\x01\x03\x01"));
        assert!(rt; same_action(&table[0], 2, 1, b"\x00\x00", b"\x00\x01"));
        assert!(rt; same_action(&table[1], 2, 1, b"\x00\x01", b"\x00\x02"));
        assert!(rt; same_action(&table[2], 5, 1, b"\x00\x02\x01\x01", b"\x00\x00\x01\x00"));
        assert!(rt; same_action(&table[3], 10, 1, b"\x00\x00\x01\x00\x02\x00", b"\x02\x01"));
        assert!(rt; same_action(&table[4], 4, 0, b"\x03\x00", b"\x03\x01"));
        assert!(rt; same_action(&table[5], 9, 9, b"", b""));
        Ok(())
    }

    #[test]
    fn the_fork_book(rt: HostRuntime) -> Result<(), Fail> {
        let mut book = Maker::new(rt.alloc());
        book.add(b"\x01\x00\x01\x00\x03")?;
        book.add(b"\x0c\x00\x02\x00\x0a\x00\x00\x00\x01\x00\x01\x01\x00\x00\x00\x02")?;
        book.add(b"\x0c\x00\x02\x00\x02\x00\x00\x00\x01\x00\x01\x01\x00\x00\x00\x01")?;
        book.add(b"\x0c\x00\x02\x00\x03\x00\x00\x00\x01\x00\x01\x01\x00\x01\x00\x02")?;
        book.add(b"\x03\x00\x03\x00\x01\x00\x02")?;
        let mut table = [spare(); 3];
        let task = read(book.bytes(), &mut table)?;
        assert_eq!(rt; task.variables, 1);
        assert_eq!(rt; task.actions, 3);
        assert!(rt; same_atoms(task.goal.list(), b"\x00\x02"));
        assert!(rt; same_action(&table[0], 10, 1, b"\x00\x00", b"\x00\x02"));
        assert!(rt; same_action(&table[1], 2, 1, b"\x00\x00", b"\x00\x01"));
        assert!(rt; same_action(&table[2], 3, 1, b"\x00\x01", b"\x00\x02"));
        Ok(())
    }

    // Records that are cut short, of no known kind, or out of place, in this order.
    #[test]
    fn heads(rt: HostRuntime) -> Result<(), Fail> {
        refused(&rt, b"\x01", 1, 0)?;
        refused(&rt, b"\x01\x00\x01", 1, 0)?;
        refused(&rt, b"\x02\x00\x01\x00\x03", 1, 0)?;
        refused(&rt, b"\x00\x01\x01\x00\x03", 1, 0)?;
        refused(&rt, b"\x05\x00\x09\x00", 1, 0)?;
        refused(&rt, b"\x01\x00\x00\x00\x03", 2, 0)?;
        refused(&rt, b"\x01\x00\x04\x00\x03", 2, 0)?;
        refused(&rt, b"\x01\x00\x01\x01\x03", 2, 0)?;
        refused_after(&rt, b"\x01\x00\x01\x00\x03", b"\x00\x00\x04\x00", 2, 5)
    }

    #[test]
    fn stages(rt: HostRuntime) -> Result<(), Fail> {
        let goal_last = b"\x01\x00\x01\x00\x03\x01\x00\x03\x00\x00";
        let with_action =
            b"\x01\x00\x01\x00\x03\x0c\x00\x02\x00\x07\x00\x00\x00\x01\x00\x01\x01\x00\x00\x00\x01";
        refused(&rt, b"\x01\x00\x03\x00\x00", 3, 0)?;
        refused(&rt, b"\x00\x00\x02\x00", 3, 0)?;
        refused_after(&rt, with_action, b"\x01\x00\x01\x00\x03", 3, 21)?;
        refused_after(&rt, goal_last, b"\x01\x00\x01\x00\x03", 3, 10)?;
        refused_after(&rt, goal_last, b"\x00\x00\x03\x00", 3, 10)?;
        refused_after(&rt, goal_last, b"\x00", 1, 10)?;
        refused_after(&rt, goal_last, b"\x00\x00\x00\x00", 2, 10)
    }

    // A book that ends without a goal; the place is its length.
    #[test]
    fn ends(rt: HostRuntime) -> Result<(), Fail> {
        let variable = b"\x01\x00\x01\x00\x03";
        refused(&rt, b"", 12, 0)?;
        refused(&rt, variable, 12, 5)?;
        refused_after(
            &rt,
            variable,
            b"\x0c\x00\x02\x00\x07\x00\x00\x00\x01\x00\x01\x01\x00\x00\x00\x01",
            12,
            21,
        )
    }

    // A length that does not fit, before every limit.
    #[test]
    fn lengths(rt: HostRuntime) -> Result<(), Fail> {
        let variable = b"\x01\x00\x01\x00\x03";
        refused(&rt, b"\x00\x00\x01\x00", 4, 0)?;
        refused(&rt, b"\x02\x00\x01\x00\x00\x00", 4, 0)?;
        refused_after(&rt, variable, b"\x00\x00\x03\x00", 4, 5)?;
        refused_after(&rt, variable, b"\x03\x00\x03\x00\x02\x00\x01", 4, 5)?;
        refused_after(
            &rt,
            variable,
            b"\x07\x00\x02\x00\x00\x00\x00\x00\x00\x00\x00",
            4,
            5,
        )?;
        refused_after(
            &rt,
            variable,
            b"\x0a\x00\x02\x00\x07\x00\x00\x00\x01\x00\x01\x01\x00\x00",
            4,
            5,
        )?;
        refused_after(
            &rt,
            variable,
            b"\x08\x00\x02\x00\x00\x00\x00\x00\x00\x00\x11\x01",
            4,
            5,
        )?;
        refused_after(
            &rt,
            variable,
            b"\x0a\x00\x02\x00\x41\x42\x0f\x00\x00\x00\x01\x01\x00\x00",
            4,
            5,
        )
    }

    // The number of values is 1 to 32.
    #[test]
    fn values(rt: HostRuntime) -> Result<(), Fail> {
        refused(&rt, b"\x01\x00\x01\x00\x00", 6, 0)?;
        refused(&rt, b"\x01\x00\x01\x00\x21", 6, 0)?;
        accepted(&rt, b"\x01\x00\x01\x00\x01\x01\x00\x03\x00\x00", 1, 0, 0)?;
        accepted(
            &rt,
            b"\x01\x00\x01\x00\x20\x03\x00\x03\x00\x01\x00\x1f",
            1,
            0,
            1,
        )
    }

    // Tenths and presses over the limit come before no effect, and that before the atoms.
    #[test]
    fn numbers(rt: HostRuntime) -> Result<(), Fail> {
        let variable = b"\x01\x00\x01\x00\x03";
        let over = b"\x0a\x00\x02\x00\x41\x42\x0f\x00\x00\x00\x00\x01\x00\x01";
        let crowd = b"\x0a\x00\x02\x00\x00\x00\x00\x00\xe9\x03\x00\x01\x00\x01";
        let most =
            b"\x01\x00\x01\x00\x03\x0a\x00\x02\x00\x40\x42\x0f\x00\xe8\x03\x00\x01\x00\x01\x01\x00\x03\x00\x00";
        refused_after(&rt, variable, over, 10, 5)?;
        refused_after(&rt, variable, crowd, 10, 5)?;
        accepted(&rt, most, 1, 1, 0)?;
        refused_after(
            &rt,
            variable,
            b"\x08\x00\x02\x00\x41\x42\x0f\x00\x00\x00\x00\x00",
            10,
            5,
        )?;
        refused_after(
            &rt,
            variable,
            b"\x08\x00\x02\x00\x00\x00\x00\x00\x00\x00\x00\x00",
            9,
            5,
        )?;
        refused_after(
            &rt,
            variable,
            b"\x0a\x00\x02\x00\x00\x00\x00\x00\x00\x00\x01\x00\x05\x00",
            9,
            5,
        )
    }

    // Atoms outside the bench and variables that do not rise, atom by atom.
    #[test]
    fn atoms(rt: HostRuntime) -> Result<(), Fail> {
        let two = b"\x01\x00\x01\x00\x03\x01\x00\x01\x00\x03";
        refused_after(&rt, two, b"\x03\x00\x03\x00\x01\x02\x00", 7, 10)?;
        refused_after(&rt, two, b"\x03\x00\x03\x00\x01\x00\x03", 7, 10)?;
        refused_after(&rt, two, b"\x05\x00\x03\x00\x02\x01\x00\x00\x00", 8, 10)?;
        refused_after(&rt, two, b"\x05\x00\x03\x00\x02\x00\x00\x00\x01", 8, 10)?;
        refused_after(&rt, two, b"\x05\x00\x03\x00\x02\x01\x00\x00\x09", 7, 10)?;
        refused_after(
            &rt,
            two,
            b"\x07\x00\x03\x00\x03\x01\x00\x00\x00\x05\x00",
            8,
            10,
        )?;
        refused_after(
            &rt,
            two,
            b"\x07\x00\x03\x00\x03\x05\x00\x01\x00\x00\x00",
            7,
            10,
        )
    }

    // Conditions come before effects, and both before an effect that repeats a condition.
    #[test]
    fn conditions_and_effects(rt: HostRuntime) -> Result<(), Fail> {
        let two = b"\x01\x00\x01\x00\x03\x01\x00\x01\x00\x03";
        let falling = b"\x0e\x00\x02\x00\x00\x00\x00\x00\x00\x00\x02\x01\x01\x00\x00\x00\x05\x00";
        let outside = b"\x0e\x00\x02\x00\x00\x00\x00\x00\x00\x00\x01\x02\x05\x00\x01\x00\x00\x00";
        let same = b"\x0c\x00\x02\x00\x00\x00\x00\x00\x00\x00\x01\x01\x00\x02\x00\x02";
        let same_twice =
            b"\x0e\x00\x02\x00\x00\x00\x00\x00\x00\x00\x01\x02\x00\x02\x00\x02\x00\x01";
        let same_outside =
            b"\x0e\x00\x02\x00\x00\x00\x00\x00\x00\x00\x01\x02\x00\x02\x00\x02\x02\x00";
        refused_after(&rt, two, falling, 8, 10)?;
        refused_after(&rt, two, outside, 7, 10)?;
        refused_after(&rt, two, same, 11, 10)?;
        refused_after(&rt, two, same_twice, 8, 10)?;
        refused_after(&rt, two, same_outside, 7, 10)
    }

    // Of two faulty records the first decides.
    #[test]
    fn the_first_fault(rt: HostRuntime) -> Result<(), Fail> {
        let repeats =
            b"\x01\x00\x01\x00\x03\x0c\x00\x02\x00\x00\x00\x00\x00\x00\x00\x01\x01\x00\x02\x00\x02";
        refused_after(&rt, repeats, b"\x09", 11, 5)?;
        refused_after(&rt, b"\x01\x00\x01\x00\x00", b"\x00\x00\x09\x00", 6, 0)
    }

    // 64 variables, 16 conditions and 16 effects, and one more of each.
    #[test]
    fn counts(rt: HostRuntime) -> Result<(), Fail> {
        let mut book = Maker::new(rt.alloc());
        book.variables(64)?;
        refused_after(&rt, book.bytes(), b"\x02\x00\x01\x00\x03\x03", 4, 320)?;
        refused_after(&rt, book.bytes(), b"\x01\x00\x01\x00\x00", 5, 320)?;
        let mut conditions = Maker::new(rt.alloc());
        conditions.action(17, 1)?;
        refused_after(&rt, book.bytes(), conditions.bytes(), 5, 320)?;
        let mut more = Maker::new(rt.alloc());
        more.action(1, 17)?;
        refused_after(&rt, book.bytes(), more.bytes(), 5, 320)?;
        let mut effects = Maker::new(rt.alloc());
        effects.add(b"\x2a\x00\x02\x00\x41\x42\x0f\x00\x00\x00\x00\x11")?;
        effects.atoms(17, 1)?;
        refused_after(&rt, book.bytes(), effects.bytes(), 5, 320)?;
        book.action(16, 16)?;
        book.add(b"\x81\x00\x03\x00\x40")?;
        book.atoms(64, 2)?;
        accepted(&rt, book.bytes(), 64, 1, 64)
    }

    // 1,024 actions, and one more.
    #[test]
    fn actions(rt: HostRuntime) -> Result<(), Fail> {
        let mut book = Maker::new(rt.alloc());
        book.variables(1)?;
        for _ in 0..1024 {
            book.action(1, 1)?;
        }
        let mut more = Maker::new(rt.alloc());
        more.action(1, 1)?;
        refused_after(&rt, book.bytes(), more.bytes(), 5, 16389)?;
        refused_after(&rt, book.bytes(), b"", 12, 16389)?;
        book.add(b"\x01\x00\x03\x00\x00")?;
        accepted(&rt, book.bytes(), 1, 1024, 0)
    }

    // A table with too few places is refused after the book, and keeps what it held.
    #[test]
    fn a_short_table(rt: HostRuntime) -> Result<(), Fail> {
        let mut book = Maker::new(rt.alloc());
        book.variables(1)?;
        book.action(1, 1)?;
        book.action(1, 1)?;
        let mut table = [spare(); 1];
        assert_eq!(rt;
            read(book.bytes(), &mut table).map_err(|refusal| refusal.number()),
            Err(12)
        );
        book.add(b"\x01\x00\x03\x00\x00")?;
        assert_eq!(rt;
            read(book.bytes(), &mut table).map_err(parts),
            Err((21, 2, 1))
        );
        assert!(rt; same_action(&table[0], 9, 9, b"", b""));
        Ok(())
    }

    // No actions and a goal with no atom; the greatest numbers; one of each record at its least.
    #[test]
    fn small_round_trips(rt: HostRuntime) -> Result<(), Fail> {
        round_trip(&rt, b"\x01\x00\x01\x00\x01\x01\x00\x03\x00\x00")?;
        round_trip(&rt, b"\x01\x00\x01\x00\x20\x03\x00\x03\x00\x01\x00\x1f")?;
        round_trip(
            &rt,
            b"\x01\x00\x01\x00\x03\x0a\x00\x02\x00\x40\x42\x0f\x00\xe8\x03\x00\x01\x00\x01\x01\x00\x03\x00\x00",
        )?;
        round_trip(
            &rt,
            b"\x01\x00\x01\x00\x03\x0a\x00\x02\x00\x00\x00\x00\x00\x00\x00\x00\x01\x00\x01\x01\x00\x03\x00\x00",
        )
    }

    // 64 variables of 32 values, and all of them in the goal.
    #[test]
    fn most_variables(rt: HostRuntime) -> Result<(), Fail> {
        let mut book = Maker::new(rt.alloc());
        book.variables(64)?;
        book.action(16, 16)?;
        book.add(b"\x81\x00\x03\x00\x40")?;
        book.atoms(64, 31)?;
        round_trip(&rt, book.bytes())
    }

    // 1,024 actions with 16 conditions and 16 effects.
    #[test]
    fn most_actions(rt: HostRuntime) -> Result<(), Fail> {
        let mut book = Maker::new(rt.alloc());
        book.variables(16)?;
        for _ in 0..1024 {
            book.action(16, 16)?;
        }
        book.add(b"\x01\x00\x03\x00\x00")?;
        assert_eq!(rt; book.bytes().len(), 77909);
        round_trip(&rt, book.bytes())
    }

    // A short table of actions is refused before a short output.
    #[test]
    fn short_tables(rt: HostRuntime) -> Result<(), Fail> {
        let mut book = Maker::new(rt.alloc());
        book.variables(1)?;
        book.action(1, 1)?;
        book.action(1, 1)?;
        book.add(b"\x01\x00\x03\x00\x00")?;
        let mut table = [spare(); 2];
        let task = read(book.bytes(), &mut table)?;
        not_written(&rt, &task, &table[0..1], 50, 1)?;
        not_written(&rt, &task, &table[0..1], 3, 1)?;
        not_written(&rt, &task, &table, 41, 7)?;
        written(&rt, &task, &table, 42, book.bytes())
    }
}
