// The measure that prices a leg by its length alone.
ghost use Rattle.std.specs.Prelude.{◌≡◌};
ghost use Rattle.measure.specs.Tenths.{in_tenths, in_tenths_lawful, of};
ghost use Rattle.std.proofs.Common.{rules};

use crate::tenths::Tenths;
use crate::{Cost, LIMIT, Measure};
use std::cmp::Ordering;

impl Cost for Tenths {
    ghost kind = { in_tenths };

    ghost lawful = { in_tenths_lawful };

    fn zero() -> Tenths {
        Tenths { tenths: 0 }
    }

    fn sum(self, other: Tenths) -> Option<Tenths> {
        let tenths = self.tenths + other.tenths;
        if tenths > LIMIT {
            return None;
        }
        Some(Tenths { tenths })
    }

    fn compare(self, other: Tenths) -> Ordering {
        self.cmp(&other)
    }

    fn size(self) -> u64 {
        self.tenths
    }
}

#[derive(Clone, Copy, Drop)]
pub struct Length;

impl Measure for Length {
    type Cost = Tenths;

    ghost priced = { λ _ length _. of length };

    ghost dear = { Prim.search rules };

    ghost small = { Prim.search rules };

    fn price(&self, length: u16, _locks: u8) -> Tenths {
        Tenths {
            tenths: u64::from(length),
        }
    }
}
