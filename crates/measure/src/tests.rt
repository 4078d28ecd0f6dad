ghost use Rattle.std.specs.Prelude.{◌≡◌, max};
ghost use Rattle.measure.specs.Unlawful.{GreatestLegIsUnlawful, LocksAloneAreUnlawful};

use crate::by_length::Length;
use crate::by_locks::LocksFirst;
use crate::passage::Passage;
use crate::tenths::Tenths;
use crate::{Cost, LIMIT, Measure};
use std::cmp::Ordering;

#[test]
fn length_counts_tenths(rt: HostRuntime) {
    let near = Length.price(1, 99);
    let far = Length.price(60_000, 0);
    assert_eq!(rt; near.compare(far), Ordering::Less);
    assert_eq!(rt; far.size(), 60_000);
    assert_eq!(rt; near.sum(far), Some(Tenths { tenths: 60_001 }));
}

#[test]
fn locks_come_before_length(rt: HostRuntime) {
    let long = LocksFirst.price(60_000, 0);
    let locked = LocksFirst.price(1, 1);
    assert_eq!(rt; long.compare(locked), Ordering::Less);
    assert_eq!(rt; locked.size(), 1);
    assert_eq!(rt; long.size(), 60_000);
    assert_eq!(rt;
        long.sum(locked),
        Some(Passage {
            locks: 1,
            length: 60_001
        })
    );
}

#[test]
fn sums_end_at_the_limit(rt: HostRuntime) {
    let one = Length.price(1, 0);
    assert_eq!(rt;
        Tenths { tenths: LIMIT - 1 }.sum(one),
        Some(Tenths { tenths: LIMIT })
    );
    assert_eq!(rt; Tenths { tenths: LIMIT }.sum(one), None);
    let locks = Passage {
        locks: LIMIT,
        length: 0,
    };
    assert_eq!(rt; locks.sum(LocksFirst.price(1, 0)), None);
}

// The greatest leg of a way in place of the sum.
fn greatest(a: u64, b: u64) -> u64
    ensures value { result ≡ max a b }
    ensures unlawful { GreatestLegIsUnlawful }
{
    a.max(b)
}

// 1 is below 2, and no longer after 3 is added to both.
#[test]
fn greatest_leg_is_no_sum(rt: HostRuntime) {
    assert_eq!(rt; greatest(1, 3), greatest(2, 3));
}

// A leg's locks in place of its cost.
fn locks_alone(_length: u16, locks: u8) -> u64
    ensures value { result ≡ locks }
    ensures unlawful { LocksAloneAreUnlawful }
{
    u64::from(locks)
}

// A leg without locks would cost nothing.
#[test]
fn locks_alone_are_no_measure(rt: HostRuntime) {
    assert_eq!(rt; locks_alone(60_000, 0), 0);
}
