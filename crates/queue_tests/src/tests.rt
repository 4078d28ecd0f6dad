use crate::Fresh;
use heap::Heap;
use measure::by_length::Length;
use measure::by_locks::LocksFirst;
use measure::{Cost, Measure};
use queue::{Queue, Refusal};
use sorting::by_key;
use std::alloc::{AllocError, Global};
use std::test::Fail;
use table::Table;

// A key, by the length and the locks that are priced.
type Leg = (u16, u8);

// A call on a queue, with what it must answer.
#[derive(Clone, Copy, Debug)]
enum Step {
    Clear,
    Span(u16),
    Draws(u16),
    Put(u16, Leg, Result<(), Refusal>),
    Lower(u16, Leg, Result<(), Refusal>),
    Draw(Option<(u16, Leg)>),
}

// The same mark with an equal key, or both none.
fn same_draw<M: Measure>(
    measure: &M,
    drawn: Option<(u16, M::Cost)>,
    expected: Option<(u16, Leg)>,
) -> bool {
    match (drawn, expected) {
        (Some((mark, key)), Some((other, (length, locks)))) => {
            mark == other && key.compare(measure.price(length, locks)).is_eq()
        }
        (None, None) => true,
        _ => false,
    }
}

fn answers<M: Measure, Q: Queue<M::Cost>>(measure: &M, queue: &mut Q, step: Step) -> bool
    requires { Q.Queue.Laid queue.old }
    ensures { Q.Queue.Laid queue.new }
{
    match step {
        Step::Clear => {
            queue.clear();
            true
        }
        Step::Span(span) => queue.span() == span,
        Step::Draws(draws) => queue.draws() == draws,
        Step::Put(mark, (length, locks), answer) => {
            queue.put(mark, measure.price(length, locks)) == answer
        }
        Step::Lower(mark, (length, locks), answer) => {
            queue.lower(mark, measure.price(length, locks)) == answer
        }
        Step::Draw(expected) => same_draw(measure, queue.draw(), expected),
    }
}

// What must hold of a queue of either kind, under either measure.
trait Check {
    fn pass<M: Measure, Q: Fresh<M::Cost> + Drop>(
        &self,
        heap: Global,
        measure: &M,
    ) -> Result<(), Fail>;
}

fn on_both<M: Measure>(heap: Global, measure: &M, check: &impl Check) -> Result<(), Fail> {
    check.pass::<M, Heap<M::Cost>>(heap, measure)?;
    check.pass::<M, Table<M::Cost>>(heap, measure)
}

fn on_all(heap: Global, check: &impl Check) -> Result<(), Fail> {
    on_both(heap, &Length, check)?;
    on_both(heap, &LocksFirst, check)
}

// Calls on a cleared queue over so many places.
#[derive(Drop)]
struct Script<'a> {
    places: usize,
    steps: &'a [Step],
}

impl<'a> Check for Script<'a> {
    fn pass<M: Measure, Q: Fresh<M::Cost> + Drop>(
        &self,
        heap: Global,
        measure: &M,
    ) -> Result<(), Fail> {
        let mut queue = Q::fresh(heap, self.places)?;
        queue.clear();
        for step in self.steps {
            if !answers(measure, &mut queue, *step) {
                return Err(Fail::new(format_args!("another answer at {step:?}")));
            }
        }
        Ok(())
    }
}

#[test]
fn numbers(rt: HostRuntime) {
    assert_eq!(rt; Refusal::PastSpan.number(), 22);
    assert_eq!(rt; Refusal::HeldAlready.number(), 23);
    assert_eq!(rt; Refusal::NotHeld.number(), 24);
    assert_eq!(rt; Refusal::NotLower.number(), 25);
}

const LOW: Leg = (10, 1);

const HIGH: Leg = (20, 2);

// Each refusal comes, and none changes a key.
#[test]
fn each_refusal(rt: HostRuntime) -> Result<(), Fail> {
    let steps = [
        Step::Put(3, LOW, Err(Refusal::PastSpan)),
        Step::Put(1, LOW, Ok(())),
        Step::Put(1, HIGH, Err(Refusal::HeldAlready)),
        Step::Lower(3, LOW, Err(Refusal::PastSpan)),
        Step::Lower(0, LOW, Err(Refusal::NotHeld)),
        Step::Lower(1, LOW, Err(Refusal::NotLower)),
        Step::Lower(1, HIGH, Err(Refusal::NotLower)),
        Step::Draw(Some((1, LOW))),
        Step::Draw(None),
    ];
    on_all(
        rt.alloc(),
        &Script {
            places: 3,
            steps: &steps,
        },
    )
}

#[test]
fn span_none(rt: HostRuntime) -> Result<(), Fail> {
    let steps = [
        Step::Span(0),
        Step::Put(0, (1, 0), Err(Refusal::PastSpan)),
        Step::Draw(None),
        Step::Draws(0),
    ];
    on_all(
        rt.alloc(),
        &Script {
            places: 0,
            steps: &steps,
        },
    )
}

// An empty queue counts no draw, and clearing forgets marks and draws.
#[test]
fn span_one(rt: HostRuntime) -> Result<(), Fail> {
    let steps = [
        Step::Span(1),
        Step::Put(0, (1, 0), Ok(())),
        Step::Put(1, (1, 0), Err(Refusal::PastSpan)),
        Step::Draw(Some((0, (1, 0)))),
        Step::Draw(None),
        Step::Draws(1),
        Step::Put(0, (1, 0), Ok(())),
        Step::Clear,
        Step::Draw(None),
        Step::Draws(0),
    ];
    on_all(
        rt.alloc(),
        &Script {
            places: 1,
            steps: &steps,
        },
    )
}

// More places are handed over than a queue uses.
#[test]
fn span_at_most(rt: HostRuntime) -> Result<(), Fail> {
    let steps = [
        Step::Span(65_535),
        Step::Put(65_534, (1, 0), Ok(())),
        Step::Put(65_535, (1, 0), Err(Refusal::PastSpan)),
    ];
    on_all(
        rt.alloc(),
        &Script {
            places: 65_540,
            steps: &steps,
        },
    )
}

// The last of four marks is lowered below the first.
#[test]
fn last_lowered_to_first(rt: HostRuntime) -> Result<(), Fail> {
    let steps = [
        Step::Put(0, (10, 1), Ok(())),
        Step::Put(1, (20, 2), Ok(())),
        Step::Put(2, (30, 3), Ok(())),
        Step::Put(3, (40, 4), Ok(())),
        Step::Lower(3, (5, 0), Ok(())),
        Step::Draw(Some((3, (5, 0)))),
        Step::Draw(Some((0, (10, 1)))),
        Step::Draw(Some((1, (20, 2)))),
        Step::Draw(Some((2, (30, 3)))),
    ];
    on_all(
        rt.alloc(),
        &Script {
            places: 4,
            steps: &steps,
        },
    )
}

// The count of draws stops at 65,535.
#[derive(Drop)]
struct DrawsStop;

impl Check for DrawsStop {
    fn pass<M: Measure, Q: Fresh<M::Cost> + Drop>(
        &self,
        heap: Global,
        measure: &M,
    ) -> Result<(), Fail> {
        let mut queue = Q::fresh(heap, 1)?;
        queue.clear();
        for _ in 0..65_540 {
            let _ = queue.put(0, measure.price(1, 0));
            let _ = queue.draw();
        }
        if queue.draws() != 65_535 {
            return Err(Fail::new("the count of draws does not stop"));
        }
        Ok(())
    }
}

#[test]
fn draws_stop(rt: HostRuntime) -> Result<(), Fail> {
    on_all(rt.alloc(), &DrawsStop)
}

// The marks of these legs as a queue gives them, and how many draws it counts.
fn drawn_by_key<M: Measure, Q: Fresh<M::Cost> + Drop>(
    heap: Global,
    measure: &M,
    legs: &[Leg],
) -> Result<(Vec<u16>, u16), AllocError> {
    let mut queue = Q::fresh(heap, legs.len())?;
    let keys: Vec<M::Cost> = legs
        .iter()
        .map(|(length, locks)| measure.price(*length, *locks))
        .collect(heap)?;
    let drawn = by_key(heap, &mut queue, &keys)?;
    let marks = drawn.iter().map(|(mark, _)| *mark).collect(heap)?;
    Ok((marks, queue.draws()))
}

// Of four equal keys each comes once.
#[derive(Drop)]
struct EqualKeys;

impl Check for EqualKeys {
    fn pass<M: Measure, Q: Fresh<M::Cost> + Drop>(
        &self,
        heap: Global,
        measure: &M,
    ) -> Result<(), Fail> {
        let (mut marks, draws) = drawn_by_key::<M, Q>(heap, measure, &[(7, 1); 4])?;
        marks.sort()?;
        if draws != 4 || marks.as_slice() != [0, 1, 2, 3].as_slice() {
            return Err(Fail::new(format_args!("{draws} draws of {marks:?}")));
        }
        Ok(())
    }
}

#[test]
fn equal_keys(rt: HostRuntime) -> Result<(), Fail> {
    on_all(rt.alloc(), &EqualKeys)
}

// Four marks come in this order.
#[derive(Drop)]
struct RisingKeys([u16; 4]);

impl Check for RisingKeys {
    fn pass<M: Measure, Q: Fresh<M::Cost> + Drop>(
        &self,
        heap: Global,
        measure: &M,
    ) -> Result<(), Fail> {
        let legs = [(50, 3), (40, 5), (70, 1), (41, 4)];
        let (marks, _) = drawn_by_key::<M, Q>(heap, measure, &legs)?;
        if marks.as_slice() != self.0.as_slice() {
            return Err(Fail::new(format_args!("marks come as {marks:?}")));
        }
        Ok(())
    }
}

// Shortest first by length, and by locks fewest first.
#[test]
fn rising_keys(rt: HostRuntime) -> Result<(), Fail> {
    on_both(rt.alloc(), &Length, &RisingKeys([1, 3, 0, 2]))?;
    on_both(rt.alloc(), &LocksFirst, &RisingKeys([2, 0, 3, 1]))
}
