// Made-up charts, searched from their marks by the plain search and by a table of all pairs: the two must agree.
#![tactic(auto)]

use crate::made::{Layout, Shape, make_legs};
use crate::tally::{Tally, compare};
use dice::LongDice;
use measure::by_length::Length;
use measure::by_locks::LocksFirst;
use std::alloc::{AllocError, Global};

mod made;
mod numbered;
mod pairs;
mod tally;

// Few and many legs, ties, islands, one long chain, and the greatest charts.
static SHAPES: [Shape; 8] = [
    Shape {
        charts: 1,
        marks: 1,
        legs: 0,
        longest: 1,
        most_locks: 0,
        closed: 0,
        layout: Layout::Anywhere,
        every: 1,
    },
    Shape {
        charts: 60,
        marks: 6,
        legs: 9,
        longest: 2,
        most_locks: 1,
        closed: 20,
        layout: Layout::Anywhere,
        every: 1,
    },
    Shape {
        charts: 20,
        marks: 40,
        legs: 30,
        longest: 900,
        most_locks: 3,
        closed: 10,
        layout: Layout::Anywhere,
        every: 1,
    },
    Shape {
        charts: 20,
        marks: 20,
        legs: 150,
        longest: 900,
        most_locks: 3,
        closed: 30,
        layout: Layout::Anywhere,
        every: 1,
    },
    Shape {
        charts: 10,
        marks: 60,
        legs: 400,
        longest: 5,
        most_locks: 2,
        closed: 10,
        layout: Layout::Islands(4),
        every: 1,
    },
    Shape {
        charts: 3,
        marks: 256,
        legs: 1_024,
        longest: 60_000,
        most_locks: 99,
        closed: 5,
        layout: Layout::Anywhere,
        every: 3,
    },
    Shape {
        charts: 3,
        marks: 256,
        legs: 1_024,
        longest: 3,
        most_locks: 1,
        closed: 50,
        layout: Layout::Anywhere,
        every: 3,
    },
    Shape {
        charts: 1,
        marks: 256,
        legs: 255,
        longest: 60_000,
        most_locks: 99,
        closed: 0,
        layout: Layout::Chain,
        every: 3,
    },
];

// Makes up the charts of one shape, and compares them under both measures.
fn compare_shape(
    heap: Global,
    shape: &Shape,
    dice: &mut LongDice,
    tally: &mut Tally,
) -> Result<(), AllocError> {
    for _ in 0..shape.charts {
        let legs = make_legs(heap, shape, dice)?;
        compare(heap, &Length, &legs, shape, tally)?;
        compare(heap, &LocksFirst, &legs, shape, tally)?;
        tally.charts = tally.charts.saturating_add(1);
    }
    Ok(())
}

// A line at a time: each is out before the next is begun.
fn tell(rt: &HostRuntime, tally: &Tally) -> anyhow::Result<()> {
    println!(rt; "charts {}", tally.charts)?;
    println!(rt; "searches {}, refused {}", tally.searches, tally.refused)?;
    println!(rt;
        "marks compared {}, without a way {}",
        tally.marks, tally.apart
    )?;
    println!(rt; "differences {}", tally.differences)?;
    Ok(())
}

fn main(rt: HostRuntime) -> anyhow::Result<()> {
    let mut dice = LongDice::new(20_251);
    let mut tally = Tally::default();
    for shape in &SHAPES {
        compare_shape(rt.alloc(), shape, &mut dice, &mut tally)?;
    }
    tell(&rt, &tally)
}
