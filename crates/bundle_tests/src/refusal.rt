// Why a working-out is refused.
ghost use Rattle.std.specs.Prelude.{◌≡◌};
ghost use Rattle.bundle_tests.specs.declared.refusal.Refusal.TheVariants.{OutOfMemory, Rows};

use bundle::TooFewRows;
use std::alloc::AllocError;

// In the order of the checks; a table with too few rows shows last.
#[derive(Clone, Copy, Debug, PartialEq, Eq)]
pub enum Refusal {
    TooManyMarks,
    TooFewLabels,
    ShortQueue,
    HomeOffChart,
    HomeNoPivot,
    LegOffChart,
    OutOfMemory,
    Rows(TooFewRows),
}

impl From<AllocError> for Refusal {
    ghost from_gives = { λ _ e. e ≡ OutOfMemory };

    fn from(_error: AllocError) -> Refusal {
        Refusal::OutOfMemory
    }
}

impl From<TooFewRows> for Refusal {
    ghost from_gives = { λ rows refusal. refusal ≡ Rows rows };

    fn from(rows: TooFewRows) -> Refusal {
        Refusal::Rows(rows)
    }
}
