// The measure that prices a leg by its locks first, and then by its length.
ghost use Rattle.std.specs.Prelude.{◌≡◌, max};
ghost use Rattle.measure.specs.Passage.{locks_first, locks_first_lawful, of, greater};
ghost use Rattle.std.proofs.Common.{rules};

use crate::passage::Passage;
use crate::{Cost, LIMIT, Measure};
use std::cmp::Ordering;

impl Cost for Passage {
    ghost kind = { locks_first };

    ghost lawful = { locks_first_lawful };

    fn zero() -> Passage {
        Passage {
            locks: 0,
            length: 0,
        }
    }

    fn sum(self, other: Passage) -> Option<Passage> {
        if self.size() + other.size() > LIMIT {
            return None;
        }
        Some(Passage {
            locks: self.locks + other.locks,
            length: self.length + other.length,
        })
    }

    fn compare(self, other: Passage) -> Ordering {
        self.cmp(&other)
    }

    fn size(self) -> u64 {
        self.locks.max(self.length)
    }
}

#[derive(Clone, Copy, Drop)]
pub struct LocksFirst;

impl Measure for LocksFirst {
    type Cost = Passage;

    ghost priced = { λ _ length locks. of locks length };

    ghost dear = { Prim.search rules };

    ghost small = { Prim.search rules };

    fn price(&self, length: u16, locks: u8) -> Passage {
        Passage {
            locks: u64::from(locks),
            length: u64::from(length),
        }
    }
}
