// The legs of a small waterway that is worked out by hand: the marks 0 to 4, with home 0.
ghost use Rattle.std.specs.Prelude.{◌≡◌};
ghost use Rattle.waterway.specs.Worked.{leg, worked, WorkedByLength, WorkedByLocks, WorkedClosed};

use crate::Leg;

fn leg(from: u16, to: u16, length: u16, locks: u8, is_open: bool) -> Leg
    ensures { result ≡ leg from to length locks is_open }
{
    Leg {
        from,
        to,
        length,
        locks,
        open: is_open,
    }
}

// Its legs, with leg 1 open or closed; and what the definitions say of it.
pub fn worked_legs(one_open: bool) -> [Leg; 4]
    ensures legs { result ≡ worked one_open }
    ensures by_length { WorkedByLength }
    ensures by_locks { WorkedByLocks }
    ensures closed { WorkedClosed }
{
    [
        leg(0, 1, 30, 0, true),
        leg(1, 2, 20, 2, one_open),
        leg(0, 2, 70, 0, true),
        leg(2, 3, 15, 0, true),
    ]
}
