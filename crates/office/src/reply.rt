// What the office writes for each line of a script.
ghost use Rattle.std.specs.Prelude.{Some};
ghost use Rattle.office.specs.Replies.{reply_of};

use crate::command::{Slip, Unit};
use calls::Answer;
use chart::Refusal;
use std::fmt;

#[derive(Clone, Copy, Debug, PartialEq, Eq)]
pub enum Reply {
    Measure(Unit),
    Call(Result<Answer, Refusal>),
    // The line goes by its number.
    Slip(usize, Slip),
}

impl fmt::Display for Reply {
    ghost output = { λ reply. Some (reply_of reply) };

    fn fmt<W: fmt::Write>(&self, f: &mut fmt::Formatter<W>) -> fmt::Result {
        match self {
            Reply::Measure(unit) => write!(f, "measure {unit}"),
            Reply::Call(Ok(answer)) => write!(f, "{answer}"),
            Reply::Call(Err(refusal)) => write!(f, "refused {:02} {refusal}", refusal.number()),
            Reply::Slip(line, slip) => write!(f, "? line {line} {slip}"),
        }
    }
}
