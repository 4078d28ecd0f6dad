// The same calls on two queues. They are no struct: a kind of queue doesn't tell its kind of key, so each method would name all three again.
use dice::ShortDice;
use measure::{Cost, Measure};
use queue::{Queue, Refusal};
use std::error::Error;
use std::fmt;

const CALLS: u32 = 6_000;

const ROUNDS: u32 = 20;

#[derive(Clone, Copy, Debug)]
pub struct Differ;

impl fmt::Display for Differ {
    fn fmt<W: fmt::Write>(&self, f: &mut fmt::Formatter<W>) -> fmt::Result {
        write!(f, "the queues differ")
    }
}

impl Error for Differ {}

fn alike(same: bool) -> Result<(), Differ> {
    if same { Ok(()) } else { Err(Differ) }
}

// What both queues answered.
#[derive(Clone, Copy, Default)]
pub struct Seen {
    accepted: u64,
    refused: u64,
    drawn: u64,
}

impl Seen {
    fn count(&mut self, answer: Result<(), Refusal>) {
        match answer {
            Ok(()) => self.accepted = self.accepted.saturating_add(1),
            Err(_) => self.refused = self.refused.saturating_add(1),
        }
    }
}

impl fmt::Display for Seen {
    fn fmt<W: fmt::Write>(&self, f: &mut fmt::Formatter<W>) -> fmt::Result {
        write!(
            f,
            "{} accepted, {} refused, {} drawn",
            self.accepted, self.refused, self.drawn
        )
    }
}

fn mark_of<K: Cost>(drawn: Option<(u16, K)>) -> Option<u16> {
    drawn.map(|(mark, _)| mark)
}

// Equal keys, or both none.
fn same_keys<K: Cost>(a: Option<(u16, K)>, b: Option<(u16, K)>) -> bool {
    match (a, b) {
        (Some((_, key)), Some((_, other))) => key.compare(other).is_eq(),
        (None, None) => true,
        _ => false,
    }
}

// Puts and lowerings, refused ones too, and draws; every mark has keys of its own.
pub fn mixed<M: Measure, A: Queue<M::Cost>, B: Queue<M::Cost>>(
    measure: &M,
    a: &mut A,
    b: &mut B,
    dice: &mut ShortDice,
) -> Result<Seen, Differ> {
    a.clear();
    b.clear();
    let mut seen = Seen::default();
    for _ in 0..CALLS {
        any_call(measure, a, b, dice, &mut seen)?;
    }
    alike(a.draws() == b.draws())?;
    Ok(seen)
}

fn any_call<M: Measure, A: Queue<M::Cost>, B: Queue<M::Cost>>(
    measure: &M,
    a: &mut A,
    b: &mut B,
    dice: &mut ShortDice,
    seen: &mut Seen,
) -> Result<(), Differ>
    requires { A.Queue.Laid a.old × B.Queue.Laid b.old }
    ensures { A.Queue.Laid a.new × B.Queue.Laid b.new }
{
    // A few marks are past the span. The cast loses nothing: a roll is below its sides.
    let mark = dice.roll(204);
    let key = measure.price(dice.roll(200) * 256 + mark, dice.roll(3) as u8);
    match dice.roll(7) {
        0 => draw_both(a, b, seen),
        1 | 2 | 3 => {
            let answer = a.put(mark, key);
            seen.count(answer);
            alike(b.put(mark, key) == answer)
        }
        _ => {
            let answer = a.lower(mark, key);
            seen.count(answer);
            alike(b.lower(mark, key) == answer)
        }
    }
}

// The same mark, since no two marks have equal keys.
fn draw_both<K: Cost, A: Queue<K>, B: Queue<K>>(
    a: &mut A,
    b: &mut B,
    seen: &mut Seen,
) -> Result<(), Differ>
    requires { A.Queue.Laid a.old × B.Queue.Laid b.old }
    ensures { A.Queue.Laid a.new × B.Queue.Laid b.new }
{
    let drawn = a.draw();
    if drawn.is_some() {
        seen.drawn = seen.drawn.saturating_add(1);
    }
    let other = b.draw();
    alike(mark_of(drawn) == mark_of(other) && same_keys(drawn, other))
}

// Rounds in which many keys are equal: the queues may draw other marks, but the keys agree.
pub fn tied<M: Measure, A: Queue<M::Cost>, B: Queue<M::Cost>>(
    measure: &M,
    a: &mut A,
    b: &mut B,
    dice: &mut ShortDice,
) -> Result<(), Differ> {
    for _ in 0..ROUNDS {
        a.clear();
        b.clear();
        fill(measure, a, b, dice);
        drain(a, b)?;
    }
    Ok(())
}

fn fill<M: Measure, A: Queue<M::Cost>, B: Queue<M::Cost>>(
    measure: &M,
    a: &mut A,
    b: &mut B,
    dice: &mut ShortDice,
)
    requires { A.Queue.Laid a.old × B.Queue.Laid b.old }
    ensures { A.Queue.Laid a.new × B.Queue.Laid b.new }
{
    for mark in 0..300 {
        // The cast loses nothing, as above.
        let key = measure.price(dice.roll(9) + 1, dice.roll(2) as u8);
        let _ = a.put(mark, key);
        let _ = b.put(mark, key);
        let lower = measure.price(dice.roll(9) + 1, 0);
        let _ = a.lower(mark / 2, lower);
        let _ = b.lower(mark / 2, lower);
    }
}

fn drain<K: Cost, A: Queue<K>, B: Queue<K>>(a: &mut A, b: &mut B) -> Result<(), Differ>
    requires { A.Queue.Laid a.old × B.Queue.Laid b.old }
    ensures { A.Queue.Laid a.new × B.Queue.Laid b.new }
{
    for _ in 0..300 {
        alike(same_keys(a.draw(), b.draw()))?;
    }
    Ok(())
}
