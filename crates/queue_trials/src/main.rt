// A few thousand pseudo-random calls on two queues at once, which must answer alike.
#![tactic(auto)]

mod pair;

use crate::pair::{Seen, mixed, tied};
use dice::ShortDice;
use heap::Heap;
use measure::Measure;
use measure::by_length::Length;
use measure::by_locks::LocksFirst;
use queue_tests::Fresh;
use std::alloc::Global;
use table::Table;
use yard_queue::Watched;

// Marks of both queues.
const MARKS: usize = 200;

// A heap that the yard watches, against a table.
fn trial<M: Measure>(heap: Global, measure: &M, seed: u64) -> anyhow::Result<Seen> {
    let queue = Heap::<M::Cost>::fresh(heap, MARKS)?;
    let mut watched = Watched { queue, changes: 0 };
    let mut table = Table::<M::Cost>::fresh(heap, MARKS)?;
    let mut dice = ShortDice::new(seed);
    let seen = mixed(measure, &mut watched, &mut table, &mut dice)?;
    tied(measure, &mut watched, &mut table, &mut dice)?;
    Ok(seen)
}

fn tell(rt: &HostRuntime, name: &str, seen: Seen) -> anyhow::Result<()> {
    println!(rt; "{name}: {seen}, all alike")?;
    Ok(())
}

fn run(rt: &HostRuntime) -> anyhow::Result<()> {
    let heap = rt.alloc();
    tell(rt, "length", trial(heap, &Length, 1)?)?;
    tell(rt, "locks first", trial(heap, &LocksFirst, 2)?)
}

fn main(rt: HostRuntime) -> anyhow::Result<()> {
    run(&rt)
}
