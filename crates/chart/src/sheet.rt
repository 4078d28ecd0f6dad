// What a chart keeps.
ghost use Rattle.std.specs.Prelude.{◌≡◌, false, None, vec_len};
ghost use Rattle.waterway.specs.Priced.{Charted};
ghost use Rattle.chart.specs.Sound.{Parted, Single, HomeIn};

use crate::bounded::Bounded;
use waterway::Leg;

// A chart has at most so many marks and legs.
pub(crate) const MARKS: usize = 256;

pub(crate) const LEGS: usize = 1024;

// A charted waterway under one measure, which it keeps.
#[derive(Drop)]
pub struct Chart<M> {
    pub(crate) measure: M,
    pub(crate) sheet: Sheet,
}

// The legs by number, each mark's pivot marking by number, home, and whether the chart is worked out.
#[derive(Drop)]
pub struct Sheet {
    pub(crate) legs: Bounded<Leg, LEGS>,
    pub(crate) pivots: Bounded<bool, MARKS>,
    pub(crate) home: Option<u16>,
    pub(crate) worked: bool,
    ghost charted: { Charted legs.items.items (vec_len pivots.items) },
    ghost parted: { Parted legs.items.items },
    ghost single: { Single legs.items.items },
    ghost home_in: { HomeIn (vec_len pivots.items) home },
    ghost idle: { home ≡ None → worked ≡ false },
}
