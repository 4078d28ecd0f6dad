// The plain search: from home the labels of all marks come down to the distances, by rounds of relaxation over all legs.
#![tactic(auto)]

ghost use Rattle.std.specs.Prelude.{ℕ, ◌<◌, length, Some, Decides};
ghost use Rattle.waterway.specs.Labels.{Clean, Within, label_of, told};
ghost use Rattle.waterway.specs.Priced.{AllLie, Charted, Lies, water};
ghost use Rattle.plain.specs.Answers.{Answers};
ghost use Rattle.plain.specs.Relaxing.{LegRelaxed, Lowered, Relaxed, Round, Sure};

use measure::{Cost, Measure};
use waterway::{Label, Leg, blank_labels, is_legal};

#[cfg(test)]
mod tests;

// Why a search is refused.
#[derive(Clone, Copy, Debug, PartialEq, Eq)]
pub enum Refusal {
    TooManyMarks,
    HomeOffChart,
    LegOffChart,
}

// Whether a leg is legal, and both its ends are marks.
fn lies(leg: &Leg, marks: usize) -> bool
    ensures { Decides result (Lies marks leg.now) }
{
    is_legal(leg.length, leg.locks) && usize::from(leg.from) < marks && usize::from(leg.to) < marks
}

// Whether all legs are so.
pub fn all_lie(legs: &[Leg], marks: usize) -> bool
    ensures { Decides result (AllLie marks legs.now) }
{
    legs.iter().all(|leg| lies(leg, marks))
}

// Whether a label is there, and not above a cost.
fn is_within<C: Cost>(label: Label<C>, cost: C) -> bool
    ensures { Decides result (Within C.Cost.kind (told label) cost) }
{
    label
        .told()
        .is_some_and(|known| !cost.compare(known).is_lt())
}

// Lowers the label of a mark to a cost, unless it is there and not above.
// Not shared with the search that has a queue: the plain one stands by itself, as what that one is held against.
fn lower<C: Cost>(labels: &mut [Label<C>], mark: u16, cost: C)
    requires { mark < length labels.old }
    ensures clean { Clean C.Cost.kind labels.old → Clean C.Cost.kind labels.new }
    ensures lowered { Lowered C.Cost.kind (label_of C.Cost.kind labels.old) (label_of C.Cost.kind labels.new) mark cost }
{
    let at = usize::from(mark);
    if !is_within(labels[at], cost) {
        labels[at] = Label { known: true, cost };
    }
}

// Offers to y what it costs from the label of x at a price.
fn relax<C: Cost>(labels: &mut [Label<C>], x: u16, y: u16, price: C)
    requires { (x < length labels.old) × (y < length labels.old) }
    ensures clean { Clean C.Cost.kind labels.old → Clean C.Cost.kind labels.new }
    ensures relaxed { Relaxed C.Cost.kind (label_of C.Cost.kind labels.old) (label_of C.Cost.kind labels.new) x y price }
{
    let label = labels[usize::from(x)];
    if let Some(cost) = label.told().and_then(|known| known.sum(price)) {
        lower(labels, y, cost);
    }
}

// Offers to each end of an open leg what it costs from the other.
fn relax_leg<C: Cost>(labels: &mut [Label<C>], leg: &Leg, price: C)
    requires { (leg.now.from < length labels.old) × (leg.now.to < length labels.old) }
    ensures clean { Clean C.Cost.kind labels.old → Clean C.Cost.kind labels.new }
    ensures relaxed { LegRelaxed C.Cost.kind (label_of C.Cost.kind labels.old) (label_of C.Cost.kind labels.new) leg.now price }
{
    if !leg.open {
        return;
    }
    relax(labels, leg.from, leg.to, price);
    relax(labels, leg.to, leg.from, price);
}

// One round over all legs.
fn relax_all<M: Measure>(m: &M, legs: &[Leg], labels: &mut [Label<M::Cost>])
    requires { Charted legs.now (length labels.old) }
    ensures clean { Clean M.Cost.Cost.kind labels.old → Clean M.Cost.Cost.kind labels.new }
    ensures round { (home : ℕ) → Sure (water M.Cost.Cost.kind (M.Measure.priced m.now) legs.now) home (label_of M.Cost.Cost.kind labels.old) → Round (water M.Cost.Cost.kind (M.Measure.priced m.now) legs.now) (length legs.now) home (label_of M.Cost.Cost.kind labels.old) (label_of M.Cost.Cost.kind labels.new) }
{
    for leg in legs {
        relax_leg(labels, leg, leg.price(m));
    }
}

// Makes each label say the distance of its mark from home, and leaves those blank to whose marks no way leads.
// A way has fewer legs than there are marks, so one round fewer than there are marks is enough.
pub fn find_distances<M: Measure>(
    m: &M,
    legs: &[Leg],
    home: u16,
    labels: &mut [Label<M::Cost>],
) -> Result<(), Refusal>
    ensures { Answers M.Cost.Cost.kind (M.Measure.priced m.now) legs.now home labels.old labels.new result }
{
    let marks = labels.len();
    if marks > 256 {
        return Err(Refusal::TooManyMarks);
    }
    if usize::from(home) >= marks {
        return Err(Refusal::HomeOffChart);
    }
    if !all_lie(legs, marks) {
        return Err(Refusal::LegOffChart);
    }
    blank_labels(labels);
    lower(labels, home, M::Cost::zero());
    for _round in 1..marks {
        relax_all(m, legs, labels);
    }
    Ok(())
}
