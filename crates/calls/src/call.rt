// The calls on a chart, and what accepted ones are answered.
ghost use Rattle.std.specs.Prelude.{Some};
ghost use Rattle.calls.specs.Words.{words_of};

use std::fmt;

#[derive(Clone, Copy, Debug, PartialEq, Eq)]
pub enum Call {
    AddMark,
    // The length is in tenths of a nautical mile.
    EnterLeg {
        a: u16,
        b: u16,
        length: u16,
        locks: u8,
    },
    Close(u16),
    Reopen(u16),
    SetHome(u16),
    SetPivot(u16, bool),
}

// What an accepted call did. A new mark or leg is told by its number.
#[derive(Clone, Copy, Debug, PartialEq, Eq)]
pub enum Answer {
    Mark(u16),
    Leg(u16),
    Closed(u16),
    Reopened(u16),
    Home(u16),
    Pivot(u16, bool),
}

impl fmt::Display for Answer {
    ghost output = { λ answer. Some (words_of answer) };

    fn fmt<W: fmt::Write>(&self, f: &mut fmt::Formatter<W>) -> fmt::Result {
        match self {
            Answer::Mark(mark) => write!(f, "mark {mark}"),
            Answer::Leg(leg) => write!(f, "leg {leg}"),
            Answer::Closed(leg) => write!(f, "closed {leg}"),
            Answer::Reopened(leg) => write!(f, "opened {leg}"),
            Answer::Home(mark) => write!(f, "home {mark}"),
            Answer::Pivot(mark, true) => write!(f, "pivot {mark} yes"),
            Answer::Pivot(mark, false) => write!(f, "pivot {mark} no"),
        }
    }
}
