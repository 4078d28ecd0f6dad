ghost use Rattle.std.specs.Prelude.{◌≡◌};
ghost use Rattle.waterway.specs.Theory.{DistancesStand, HostsAndBallsStand, RoutesStand};

use crate::worked::worked_legs;
use crate::{is_legal, joined, price_at};
use measure::Cost;
use measure::by_length::Length;
use measure::by_locks::LocksFirst;
use measure::passage::Passage;
use measure::tenths::Tenths;

// What the way of no legs costs, in any kind of cost; and what holds of all ways in that kind.
fn nothing<C: Cost>() -> C
    ensures value { result ≡ C.Cost.kind.zero }
    ensures distances { DistancesStand C.Cost.kind }
    ensures hosts { HostsAndBallsStand C.Cost.kind }
    ensures routes { RoutesStand C.Cost.kind }
{
    C::zero()
}

#[test]
fn legs_have_prices(rt: HostRuntime) {
    let legs = worked_legs(true);
    assert_eq!(rt; price_at(&Length, &legs, 1).tenths, 20);
    assert_eq!(rt;
        price_at(&Length, &legs, 4).tenths,
        nothing::<Tenths>().tenths
    );
    assert_eq!(rt; price_at(&LocksFirst, &legs, 1).locks, 2);
    assert_eq!(rt;
        price_at(&LocksFirst, &legs, 4).locks,
        nothing::<Passage>().locks
    );
}

#[test]
fn legs_join_marks_either_way_round(rt: HostRuntime) {
    let legs = worked_legs(false);
    assert!(rt; joined(&legs, 2, 1));
    assert!(rt; joined(&legs, 1, 2));
    assert!(rt; !joined(&legs, 0, 3));
}

#[test]
fn legs_have_limits(rt: HostRuntime) {
    assert!(rt; is_legal(1, 0));
    assert!(rt; is_legal(60_000, 99));
    assert!(rt; !is_legal(0, 0));
    assert!(rt; !is_legal(60_001, 0));
    assert!(rt; !is_legal(1, 100));
}
