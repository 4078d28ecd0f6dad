// What is wrong with a chart file, or with the buffer that one is written to.
ghost use Rattle.std.specs.Prelude.{◌≡◌};
ghost use Rattle.chartfile.specs.Faults.{number_of};
ghost use Rattle.chartfile.specs.declared.fault.Cause.TheVariants.{BadEntry};

use chart::Refusal;

// The line, counted from 1, at which loading ended, or 0 where no line is at fault.
#[derive(Clone, Copy, Debug, PartialEq, Eq)]
pub struct Fault {
    pub line: usize,
    pub cause: Cause,
}

#[derive(Clone, Copy, Debug, PartialEq, Eq)]
pub enum Cause {
    // The chart has marks.
    HasMarks,
    // A line is not 2 to 64 upper-case hexadecimal digits, an even count, ended by byte 0A.
    BadDigits,
    // A frame's bytes do not add up to a multiple of 256.
    BadSum,
    // Kind, length, version, order or count are wrong, or the last frame is missing.
    BadFrame,
    // The chart refused an entry.
    BadEntry(Refusal),
}

impl From<Refusal> for Cause {
    ghost from_gives = { λ refusal cause. cause ≡ BadEntry refusal };

    fn from(refusal: Refusal) -> Cause {
        Cause::BadEntry(refusal)
    }
}

impl Cause {
    pub fn number(self) -> u8
        ensures { result ≡ number_of self }
    {
        match self {
            Cause::HasMarks => 16,
            Cause::BadDigits => 18,
            Cause::BadSum => 19,
            Cause::BadFrame => 20,
            Cause::BadEntry(_) => 21,
        }
    }
}

// The buffer is shorter than the file.
#[derive(Clone, Copy, Debug, PartialEq, Eq)]
pub struct ShortBuffer;

impl ShortBuffer {
    pub fn number(self) -> u8
        ensures { result ≡ 17 }
    {
        17
    }
}
