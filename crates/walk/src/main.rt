// Walks a list of actions through a bench: reads the book `bench.bk`, then a line with the start setting
// and a line with the actions' numbers.
#![tactic(auto)]

use std::fs;
use std::io::Read;
use validate::walk;

fn main(rt: HostRuntime) -> anyhow::Result<()> {
    // A file that cannot be read is an empty book.
    let book = fs::read(&rt, "bench.bk").unwrap_or_else(|_| Vec::new(rt.alloc()));
    let mut input = Vec::new(rt.alloc());
    rt.stdin().read_to_end(&mut input)?;
    for line in &walk(rt.alloc(), &book, &input)? {
        rt.println(line)?;
    }
    Ok(())
}
