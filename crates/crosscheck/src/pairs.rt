// The least weights of the ways between all pairs of 256 marks, found by taking each mark in turn as a stop on the way.
use std::alloc::{AllocError, Global};

const SIDE: usize = 256;

// What stands in a row where no way is known. An `Option` for each pair would make the table twice as large.
const NO_WAY: u64 = u64::MAX;

// A weight for each pair of marks, a row for each mark that the way leads from.
#[derive(Drop)]
pub struct Pairs {
    rows: Vec<[u64; SIDE]>,
}

impl Pairs {
    // Each mark is nothing away from itself, and no other way is known.
    pub fn new(heap: Global, marks: u16) -> Result<Pairs, AllocError> {
        let rows = vec![in heap; [NO_WAY; SIDE]; SIDE]?;
        let mut pairs = Pairs { rows };
        for mark in 0..marks {
            pairs.lower(mark, mark, 0);
        }
        Ok(pairs)
    }

    // The least weight known from one mark to another, if any is.
    pub fn at(&self, from: u16, to: u16) -> Option<u64> {
        let row = self.rows.get(usize::from(from))?;
        let weight = *row.get(usize::from(to))?;
        (weight != NO_WAY).then_some(weight)
    }

    // Lowers the weight from one mark to another.
    pub fn lower(&mut self, from: u16, to: u16, weight: u64) {
        let Some(row) = self.rows.get_mut(usize::from(from)) else {
            return;
        };
        if let Some(least) = row.get_mut(usize::from(to)) {
            *least = (*least).min(weight);
        }
    }

    fn stop_from(&mut self, marks: u16, stop: u16, from: u16) {
        let Some(first) = self.at(from, stop) else {
            return;
        };
        for to in 0..marks {
            if let Some(second) = self.at(stop, to) {
                self.lower(from, to, first.saturating_add(second));
            }
        }
    }

    fn stop_at(&mut self, marks: u16, stop: u16) {
        for from in 0..marks {
            self.stop_from(marks, stop, from);
        }
    }

    // Takes every mark as a stop.
    pub fn join_all(&mut self, marks: u16) {
        for stop in 0..marks {
            self.stop_at(marks, stop);
        }
    }
}
