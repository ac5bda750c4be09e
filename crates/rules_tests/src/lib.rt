// Rules on benches whose marks are worked out by hand or by a plain closure.
#![tactic(auto)]

#[cfg(test)]
mod maker;
#[cfg(test)]
mod plain;

#[cfg(test)]
mod tests {
    use crate::maker::Maker;
    use std::test::*;

    // Menu, Users, Revoke, Run and Warm: only Warm has nothing to do with getting at Revoke.
    #[test]
    fn keypad(rt: HostRuntime) -> Result<(), Fail> {
        let mut bench = Maker::new(rt.alloc(), b"\x03\x02\x02\x02", b"\x01\x00\x02\x01\x03\x01");
        bench.add(b"\x00\x00", b"\x00\x01")?;
        bench.add(b"\x00\x01", b"\x00\x02")?;
        bench.add(b"\x00\x02\x01\x01", b"\x00\x00\x01\x00")?;
        bench.add(b"\x00\x00\x01\x00\x02\x00", b"\x02\x01")?;
        bench.add(b"\x03\x00", b"\x03\x01")?;
        bench.expect(&rt, b"\x00\x01\x00\x00", b"\x01\x01\x01\x01\x00")?;
        bench.expect(&rt, b"\x00\x00\x00\x00", b"\x01\x01\x01\x01\x00")?;
        bench.expect(&rt, b"\x00\x00\x01\x00", b"\x00\x00\x00\x00\x01")?;
        bench.expect(&rt, b"\x00\x00\x01\x01", b"\x00\x00\x00\x00\x00")
    }

    // The second action and the third have no conditions; the fourth depends on a sibling of the first
    // one's effect, and the third achieves a sibling of its condition.
    #[test]
    fn without_conditions(rt: HostRuntime) -> Result<(), Fail> {
        let mut bench = Maker::new(rt.alloc(), b"\x02\x02\x02", b"\x00\x01");
        bench.add(b"\x01\x01", b"\x00\x01")?;
        bench.add(b"", b"\x01\x01")?;
        bench.add(b"", b"\x02\x01")?;
        bench.add(b"\x00\x00\x02\x00", b"\x02\x01")?;
        bench.expect(&rt, b"\x00\x00\x00", b"\x01\x01\x00\x00")?;
        bench.expect(&rt, b"\x00\x01\x00", b"\x01\x00\x01\x01")?;
        bench.expect(&rt, b"\x01\x01\x00", b"\x00\x00\x00\x00")
    }

    // Sixteen conditions and sixteen effects; the last condition is the one that is unmet.
    #[test]
    fn sixteen_and_sixteen(rt: HostRuntime) -> Result<(), Fail> {
        let mut bench = Maker::new(
            rt.alloc(),
            b"\x02\x02\x02\x02\x02\x02\x02\x02\x02\x02\x02\x02\x02\x02\x02\x02\x03",
            b"\x10\x02",
        );
        bench.add(
            b"\x00\x00\x01\x00\x02\x00\x03\x00\x04\x00\x05\x00\x06\x00\x07\x00\x08\x00\x09\x00\x0a\x00\x0b\x00\x0c\x00\x0d\x00\x0e\x00\x0f\x01",
            b"\x01\x01\x02\x01\x03\x01\x04\x01\x05\x01\x06\x01\x07\x01\x08\x01\x09\x01\x0a\x01\x0b\x01\x0c\x01\x0d\x01\x0e\x01\x0f\x00\x10\x02",
        )?;
        bench.add(b"", b"\x0f\x01")?;
        bench.add(b"", b"\x00\x01")?;
        bench.add(b"\x0e\x00", b"\x10\x01")?;
        bench.expect(&rt, b"", b"\x01\x01\x00\x00")?;
        bench.expect(
            &rt,
            b"\x00\x00\x00\x00\x00\x00\x00\x00\x00\x00\x00\x00\x00\x00\x00\x01",
            b"\x01\x01\x01\x01",
        )
    }

    // No action achieves the goal, and no action at all.
    #[test]
    fn out_of_reach(rt: HostRuntime) -> Result<(), Fail> {
        let mut bench = Maker::new(rt.alloc(), b"\x03\x02", b"\x00\x02");
        bench.expect(&rt, b"\x00", b"")?;
        bench.add(b"", b"\x00\x01")?;
        bench.add(b"\x00\x00", b"\x01\x01")?;
        bench.expect(&rt, b"\x00", b"\x00\x00")
    }

    // Of two unmet conditions the first counts, and so does the first unmet goal atom.
    #[test]
    fn lowest_variable_first(rt: HostRuntime) -> Result<(), Fail> {
        let mut bench = Maker::new(rt.alloc(), b"\x02\x02\x02\x02", b"\x02\x01\x03\x01");
        bench.add(b"\x00\x01\x01\x01", b"\x02\x01")?;
        bench.add(b"", b"\x00\x01")?;
        bench.add(b"", b"\x01\x01")?;
        bench.add(b"", b"\x03\x01")?;
        bench.expect(&rt, b"\x00\x00\x00\x00", b"\x01\x01\x00\x00")?;
        bench.expect(&rt, b"\x01\x00\x00\x00", b"\x01\x00\x01\x00")?;
        bench.expect(&rt, b"\x01\x01\x01\x00", b"\x00\x00\x00\x01")
    }

    // Each action needs what the next lower one achieves.
    #[test]
    fn against_the_order(rt: HostRuntime) -> Result<(), Fail> {
        let mut bench = Maker::new(rt.alloc(), b"\x02\x02\x02\x02", b"\x00\x01");
        bench.add(b"", b"\x02\x01")?;
        bench.add(b"\x02\x01", b"\x01\x01")?;
        bench.add(b"\x01\x01", b"\x00\x01")?;
        bench.add(b"", b"\x03\x01")?;
        bench.expect(&rt, b"", b"\x01\x01\x01\x00")
    }

    // The last value of the last variable, at the far end of both collections: the second action depends on
    // a sibling of the first one's effect, the third on that effect itself, the fourth achieves a sibling,
    // and the fifth depends on one and is applicable, so that the sixth, which achieves a sibling of its
    // effect, is called for too.
    #[test]
    fn last_variable(rt: HostRuntime) -> Result<(), Fail> {
        let mut bench = Maker::new(rt.alloc(), &[32; 64], b"\x3f\x1f");
        bench.add(b"", b"\x3f\x1f")?;
        bench.add(b"\x3f\x1e", b"\x3e\x01")?;
        bench.add(b"\x3f\x1f", b"\x3d\x01")?;
        bench.add(b"\x3c\x01", b"\x3f\x1e")?;
        bench.add(b"\x3f\x00", b"\x3b\x01")?;
        bench.add(b"\x3a\x01", b"\x3b\x1f")?;
        bench.expect(&rt, b"", b"\x01\x01\x00\x01\x01\x01")
    }

    // Where the goal holds, nothing is marked; nor where it has no atom.
    #[test]
    fn goal_holds(rt: HostRuntime) -> Result<(), Fail> {
        let mut bench = Maker::new(rt.alloc(), b"\x02\x02", b"\x00\x01\x01\x00");
        bench.add(b"", b"\x00\x01")?;
        bench.add(b"\x00\x01", b"\x01\x01")?;
        bench.expect(&rt, b"\x01\x00", b"\x00\x00")?;
        let mut free = Maker::new(rt.alloc(), b"\x02", b"");
        free.add(b"", b"\x00\x01")?;
        free.expect(&rt, b"\x00", b"\x00")
    }

    // Tables of other lengths, and atoms of no bench: the marks are free, and the work bytes are cleared.
    #[test]
    fn foreign_tables(rt: HostRuntime) -> Result<(), Fail> {
        let mut bench = Maker::new(rt.alloc(), b"\x02", b"\x00\x01\xff\xff");
        bench.add(b"\xff\xff", b"\xff\xfe")?;
        bench.add(b"\x50\x40", b"\x00\x01")?;
        bench.clears(&rt, b"", &mut [7; 2], &mut [7; 4096])?;
        bench.clears(&rt, b"\x01", &mut [7; 2], &mut [7; 4096])?;
        bench.clears(&rt, b"", &mut [7; 1], &mut [7; 4096])?;
        bench.clears(&rt, b"", &mut [7; 9], &mut [7; 4096])?;
        bench.clears(&rt, b"", &mut [7; 2], &mut [7; 5000])?;
        bench.clears(&rt, b"", &mut [7; 2], &mut [7; 3])
    }

    // Benches of four variables and eight actions, made by counting, against a plain closure.
    #[test]
    fn plain_closures(rt: HostRuntime) -> Result<(), Fail> {
        let mut seed = 1;
        for _ in 0..40 {
            seed = crate::plain::compare(&rt, rt.alloc(), seed)?;
        }
        Ok(())
    }
}
