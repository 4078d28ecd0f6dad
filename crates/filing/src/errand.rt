// The errands on a chart, and what they are answered.
ghost use Rattle.std.specs.Prelude.{◌≡◌};
ghost use Rattle.filing.specs.Refusals.{number_of};
ghost use Rattle.filing.specs.declared.errand.Refused.TheVariants.{Chart, File, Buffer};

use calls::{Answer, Call};
use chart::Refusal;
use chartfile::{Fault, ShortBuffer};

// A call on a chart, or its file, with the memory that is handed along.
#[derive(Drop)]
pub enum Errand {
    Call(Call),
    // The bytes of a file.
    Load(Vec<u8>),
    // A buffer for the chart's file.
    Write(Vec<u8>),
}

// What an accepted errand did.
#[derive(Clone, Copy, Debug, PartialEq, Eq)]
pub enum Done {
    Called(Answer),
    Loaded { marks: u16, legs: usize },
    // So many bytes.
    Written(usize),
}

// Who refused an errand, and why.
#[derive(Clone, Copy, Debug, PartialEq, Eq)]
pub enum Refused {
    Chart(Refusal),
    File(Fault),
    Buffer(ShortBuffer),
}

impl Refused {
    pub fn number(self) -> u8
        ensures { result ≡ number_of self }
    {
        match self {
            Refused::Chart(refusal) => refusal.number(),
            Refused::File(fault) => fault.cause.number(),
            Refused::Buffer(short) => short.number(),
        }
    }
}

impl From<Refusal> for Refused {
    ghost from_gives = { λ refusal refused. refused ≡ Chart refusal };

    fn from(refusal: Refusal) -> Refused {
        Refused::Chart(refusal)
    }
}

impl From<Fault> for Refused {
    ghost from_gives = { λ fault refused. refused ≡ File fault };

    fn from(fault: Fault) -> Refused {
        Refused::File(fault)
    }
}

impl From<ShortBuffer> for Refused {
    ghost from_gives = { λ buffer refused. refused ≡ Buffer buffer };

    fn from(buffer: ShortBuffer) -> Refused {
        Refused::Buffer(buffer)
    }
}
