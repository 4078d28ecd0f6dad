use crate::refusal::Refusal;
use crate::try_work_out;
use bundle::{TooFewRows, Totals};
use bundling::Near;
use heap::Heap;
use measure::Cost;
use measure::by_length::Length;
use measure::by_locks::LocksFirst;
use measure::passage::Passage;
use measure::tenths::Tenths;
use queue::Queue;
use queue_tests::Fresh;
use std::alloc::Global;
use std::process::Abort;
use std::test::Fail;
use table::Table;
use waterway::Label;
use waterway::worked::worked_legs;

// Home is mark 0, and mark 3 is a pivot too.
const PIVOTS: [bool; 5] = [true, false, false, true, false];

fn known(tenths: u32) -> Label<Tenths> {
    Label {
        known: true,
        cost: Tenths {
            tenths: u64::from(tenths),
        },
    }
}

const TOTALS: Totals = Totals {
    draws: 2,
    rows: 3,
    reached: 4,
};

// One label more than there are marks.
fn old_labels() -> [Label<Tenths>; 6] {
    [known(9); 6]
}

fn by_length<Q: Queue<Tenths>>(
    heap: Global,
    near: &mut [Near<Tenths>],
    labels: &mut [Label<Tenths>],
    queue: &mut Q,
) -> Result<Totals, Refusal> {
    let legs = worked_legs(true);
    try_work_out(heap, &Length, &legs, &PIVOTS, near, labels, queue, 0)
}

fn row(mark: u16, tenths: u32) -> Near<Tenths> {
    Near {
        mark,
        cost: Tenths {
            tenths: u64::from(tenths),
        },
    }
}

fn check_labels<Q: Queue<Tenths>>(rt: &impl Abort, heap: Global, queue: &mut Q) {
    let mut labels = old_labels();
    let mut near = [row(9, 9); 4];
    let answer = by_length(heap, &mut near, &mut labels, queue);
    assert_eq!(rt; answer, Ok(TOTALS));
    assert_eq!(rt; queue.draws(), 2);
    assert_eq!(rt;
        labels,
        [
            known(0),
            known(30),
            known(50),
            known(65),
            Label::blank(),
            known(9)
        ]
    );
    assert_eq!(rt; near, [row(1, 0), row(2, 20), row(2, 0), row(65_535, 0)]);
}

#[test]
fn least_lengths(rt: HostRuntime) -> Result<(), Fail> {
    let heap = rt.alloc();
    let mut queue = Heap::<Tenths>::fresh(heap, 5)?;
    check_labels(&rt, heap, &mut queue);
    let mut queue = Table::<Tenths>::fresh(heap, 7)?;
    check_labels(&rt, heap, &mut queue);
    Ok(())
}

#[test]
fn too_few_rows(rt: HostRuntime) -> Result<(), Fail> {
    let heap = rt.alloc();
    let mut queue = Heap::<Tenths>::fresh(heap, 5)?;
    let mut labels = old_labels();
    let answer = by_length(heap, &mut [row(9, 9); 3], &mut labels, &mut queue);
    assert_eq!(rt; answer, Ok(TOTALS));
    let mut near = [row(9, 9); 2];
    let answer = by_length(heap, &mut near, &mut labels, &mut queue);
    assert_eq!(rt; answer, Err(Refusal::Rows(TooFewRows { needed: 3 })));
    assert_eq!(rt; queue.draws(), 0);
    assert_eq!(rt; labels[3], Label::blank());
    assert_eq!(rt; labels[5], known(9));
    assert_eq!(rt; near, [row(65_535, 0); 2]);
    Ok(())
}

#[test]
fn fewest_locks(rt: HostRuntime) -> Result<(), Fail> {
    let heap = rt.alloc();
    let mut queue = Table::<Passage>::fresh(heap, 5)?;
    let mut labels = [Label::blank(); 5];
    let mut near = [Near {
        mark: 0,
        cost: Passage::zero(),
    }; 9];
    let legs = worked_legs(true);
    let answer = try_work_out(
        heap,
        &LocksFirst,
        &legs,
        &PIVOTS,
        &mut near,
        &mut labels,
        &mut queue,
        0,
    );
    assert!(rt; answer.is_ok());
    assert_eq!(rt; labels[2].cost.locks, 0);
    assert_eq!(rt; labels[2].cost.length, 70);
    assert_eq!(rt; labels[3].cost.length, 85);
    Ok(())
}
