// Why a chart refuses a call.
ghost use Rattle.std.specs.Prelude.{◌≡◌, Some};
ghost use Rattle.chart.specs.Refusals.{number_of, words_of};

use std::error::Error;
use std::fmt;

// Each refusal has a number of its own, and a call's checks run in the order of the numbers.
#[derive(Clone, Copy, Debug, PartialEq, Eq)]
pub enum Refusal {
    MarksFull = 1,
    NoSuchMark = 2,
    SameEnds = 3,
    OutOfLimits = 4,
    LegsFull = 5,
    JoinedAlready = 6,
    NoSuchLeg = 7,
    StandsAlready = 8,
}

impl Refusal {
    // The numbers stand at the variants.
    pub fn number(self) -> u8
        ensures { result ≡ number_of self }
    {
        self as u8
    }
}

impl fmt::Display for Refusal {
    ghost output = { λ refusal. Some (words_of refusal) };

    fn fmt<W: fmt::Write>(&self, f: &mut fmt::Formatter<W>) -> fmt::Result {
        f.write_str(match self {
            Refusal::MarksFull => "the chart has 256 marks already",
            Refusal::NoSuchMark => "no such mark on the chart",
            Refusal::SameEnds => "a leg joins two different marks",
            Refusal::OutOfLimits => "a leg has 0.1 to 6000 miles and 0 to 99 locks",
            Refusal::LegsFull => "the chart has 1024 legs already",
            Refusal::JoinedAlready => "a leg joins these marks already",
            Refusal::NoSuchLeg => "no such leg on the chart",
            Refusal::StandsAlready => "the leg is closed, or open, already",
        })
    }
}

impl Error for Refusal {}
