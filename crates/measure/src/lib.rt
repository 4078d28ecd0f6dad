// Kinds of cost, and measures that price a leg of a waterway.
#![tactic(auto)]

ghost use Rattle.std.specs.Prelude.{◌≡◌, ℕ, ◌^◌, ◌≤◌};
ghost use Rattle.std.specs.Ordering.{MatchOrdering};
ghost use Rattle.measure.specs.Kind.{Kind, Lawful};
ghost use Rattle.measure.specs.Legal.{Legal};

use std::cmp::Ordering;

pub mod by_length;
pub mod by_locks;
pub mod passage;
pub mod tenths;
#[cfg(test)]
mod tests;

// No cost has a greater size: 2 to the power 48.
const LIMIT: u64 = 1 << 48;

// A kind of cost: what legs cost and ways sum up.
pub trait Cost: Copy {
    ghost kind: { Kind Self };

    ghost lawful: { Lawful kind };

    fn zero() -> Self
        ensures { result ≡ kind.zero };

    // None where the two sizes together pass the limit.
    fn sum(self, other: Self) -> Option<Self>
        ensures { result ≡ kind.sum self other };

    fn compare(self, other: Self) -> Ordering
        ensures { MatchOrdering result (kind.Below self other) (self ≡ other) (kind.Below other self) };

    fn size(self) -> u64
        ensures { result ≡ kind.size self };
}

// What a leg costs, by its length in tenths and its locks.
pub trait Measure {
    type Cost: Cost;

    ghost priced: { Self → ℕ → ℕ → Self.Cost };

    fn price(&self, length: u16, locks: u8) -> Self::Cost
        ensures { result ≡ priced self.now length locks };

    // A legal leg costs something, and not too much.
    ghost dear: { (m : Self) (length locks : ℕ) → Legal length locks → Self.Cost.Cost.kind.Below Self.Cost.Cost.kind.zero (priced m length locks) };

    ghost small: { (m : Self) (length locks : ℕ) → Legal length locks → Self.Cost.Cost.kind.size (priced m length locks) ≤ 2 ^ 36 };
}
