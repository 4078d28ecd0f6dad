// The command language: what one line says.
ghost use Rattle.std.specs.Prelude.{Some, map};
ghost use Rattle.std.specs.Result.{result_ok};
ghost use Rattle.office.specs.Commands.{Reads, ReadsLeg};
ghost use Rattle.office.specs.Numbers.{Whole};
ghost use Rattle.office.specs.Words.{unit_name, slip_words};

use crate::number::{tenths, whole};
use calls::Call;
use std::fmt;

// What a chart counts. A script that names none counts miles.
#[derive(Clone, Copy, Debug, PartialEq, Eq, Default)]
pub enum Unit {
    #[default]
    Length,
    Locks,
}

impl fmt::Display for Unit {
    ghost output = { λ unit. Some (unit_name unit) };

    fn fmt<W: fmt::Write>(&self, f: &mut fmt::Formatter<W>) -> fmt::Result {
        f.write_str(match self {
            Unit::Length => "length",
            Unit::Locks => "locks",
        })
    }
}

#[derive(Clone, Copy, Debug, PartialEq, Eq)]
pub enum Command {
    Measure(Unit),
    Call(Call),
}

// What is wrong with a line that is no command.
#[derive(Clone, Copy, Debug, PartialEq, Eq)]
pub enum Slip {
    NoCommand,
    // The command is written in another form.
    Form(&'static str),
    MeasureNotFirst,
}

impl fmt::Display for Slip {
    ghost output = { λ slip. Some (slip_words slip) };

    fn fmt<W: fmt::Write>(&self, f: &mut fmt::Formatter<W>) -> fmt::Result {
        match self {
            Slip::NoCommand => write!(f, "no such command"),
            Slip::Form(form) => write!(f, "write it as: {form}"),
            Slip::MeasureNotFirst => write!(f, "measure must be the first command"),
        }
    }
}

// The command that the words of a line say.
pub fn parse(words: &[&str]) -> Result<Command, Slip>
    ensures { Reads (map (λ word. word.now) words.now) (result_ok result) }
{
    command_of(words).ok_or_else(|| slip_of(words))
}

fn command_of(words: &[&str]) -> Option<Command>
    ensures { Reads (map (λ word. word.now) words.now) result }
{
    Some(match words {
        ["measure", "length"] => Command::Measure(Unit::Length),
        ["measure", "locks"] => Command::Measure(Unit::Locks),
        ["mark"] => Command::Call(Call::AddMark),
        ["leg", a, b, miles, locks] => Command::Call(leg_of(a, b, miles, locks)?),
        ["close", leg] => Command::Call(Call::Close(number_of(leg)?)),
        ["open", leg] => Command::Call(Call::Reopen(number_of(leg)?)),
        ["home", mark] => Command::Call(Call::SetHome(number_of(mark)?)),
        ["pivot", mark, "yes"] => Command::Call(Call::SetPivot(number_of(mark)?, true)),
        ["pivot", mark, "no"] => Command::Call(Call::SetPivot(number_of(mark)?, false)),
        _ => return None,
    })
}

fn leg_of(a: &str, b: &str, miles: &str, locks: &str) -> Option<Call>
    ensures { ReadsLeg a.now b.now miles.now locks.now result }
{
    Some(Call::EnterLeg {
        a: number_of(a)?,
        b: number_of(b)?,
        length: u16::try_from(tenths(miles)?).unwrap_or(u16::MAX),
        locks: u8::try_from(whole(locks)?).unwrap_or(u8::MAX),
    })
}

// The number of a mark or a leg. No chart has one with the largest number of the type.
fn number_of(word: &str) -> Option<u16>
    ensures { Whole 16 word.now result }
{
    Some(u16::try_from(whole(word)?).unwrap_or(u16::MAX))
}

fn slip_of(words: &[&str]) -> Slip {
    match words {
        ["measure", ..] => Slip::Form("measure length|locks"),
        ["mark", ..] => Slip::Form("mark"),
        ["leg", ..] => Slip::Form("leg A B MILES LOCKS"),
        ["close", ..] => Slip::Form("close N"),
        ["open", ..] => Slip::Form("open N"),
        ["home", ..] => Slip::Form("home N"),
        ["pivot", ..] => Slip::Form("pivot N yes|no"),
        _ => Slip::NoCommand,
    }
}
