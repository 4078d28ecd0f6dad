// Costs as plain numbers: the table of all pairs is worked out without the measures' own sums and comparisons.
use measure::Measure;
use measure::by_length::Length;
use measure::by_locks::LocksFirst;
use measure::passage::Passage;
use measure::tenths::Tenths;

// Room for the length of any way below its locks.
const LOCK: u64 = 1 << 32;

pub trait Numbered: Measure {
    // What a leg weighs.
    fn weight(&self, length: u16, locks: u8) -> u64;

    // The weight that a cost stands for.
    fn figure(&self, cost: Self::Cost) -> u64;
}

impl Numbered for Length {
    fn weight(&self, length: u16, _locks: u8) -> u64 {
        u64::from(length)
    }

    fn figure(&self, cost: Tenths) -> u64 {
        cost.tenths
    }
}

impl Numbered for LocksFirst {
    fn weight(&self, length: u16, locks: u8) -> u64 {
        u64::from(locks) * LOCK + u64::from(length)
    }

    fn figure(&self, cost: Passage) -> u64 {
        cost.locks.saturating_mul(LOCK).saturating_add(cost.length)
    }
}
