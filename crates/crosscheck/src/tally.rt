// The comparison of the two searches, and what it counts.
use crate::made::Shape;
use crate::numbered::Numbered;
use crate::pairs::Pairs;
use plain::find_distances;
use std::alloc::{AllocError, Global};
use waterway::{Label, Leg};

#[derive(Default, Drop)]
pub struct Tally {
    pub charts: u64,
    pub searches: u64,
    pub refused: u64,
    pub marks: u64,
    pub apart: u64,
    pub differences: u64,
}

impl Tally {
    // Counts one mark, with the weight by the plain search and that by the table.
    fn count(&mut self, found: Option<u64>, expected: Option<u64>) {
        self.marks = self.marks.saturating_add(1);
        if expected.is_none() {
            self.apart = self.apart.saturating_add(1);
        }
        if found != expected {
            self.differences = self.differences.saturating_add(1);
        }
    }
}

// The table of all pairs of a chart.
fn join_pairs<M: Numbered>(
    heap: Global,
    m: &M,
    legs: &[Leg],
    marks: u16,
) -> Result<Pairs, AllocError> {
    let mut pairs = Pairs::new(heap, marks)?;
    for leg in legs {
        if leg.open {
            let weight = m.weight(leg.length, leg.locks);
            pairs.lower(leg.from, leg.to, weight);
            pairs.lower(leg.to, leg.from, weight);
        }
    }
    pairs.join_all(marks);
    Ok(pairs)
}

// Searches from one mark with a label for each, and compares them.
fn compare_from<M: Numbered>(
    m: &M,
    legs: &[Leg],
    labels: &mut [Label<M::Cost>],
    home: u16,
    pairs: &Pairs,
    tally: &mut Tally,
) {
    tally.searches = tally.searches.saturating_add(1);
    if find_distances(m, legs, home, labels).is_err() {
        tally.refused = tally.refused.saturating_add(1);
        return;
    }
    for (mark, label) in (0..256).zip(labels.iter()) {
        let found = label.told().map(|cost| m.figure(cost));
        tally.count(found, pairs.at(home, mark));
    }
}

// Compares the two searches on one chart, from some of its marks.
pub fn compare<M: Numbered>(
    heap: Global,
    m: &M,
    legs: &[Leg],
    shape: &Shape,
    tally: &mut Tally,
) -> Result<(), AllocError> {
    let pairs = join_pairs(heap, m, legs, shape.marks)?;
    let mut labels = vec![in heap; Label::blank(); usize::from(shape.marks)]?;
    for home in (0..shape.marks).step_by(usize::from(shape.every.max(1))) {
        compare_from(m, legs, &mut labels, home, &pairs, tally);
    }
    Ok(())
}
