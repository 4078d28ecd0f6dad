// A whole script: read line by line, performed as one list of calls, and answered line by line.
ghost use Rattle.std.specs.Prelude.{◌≡◌, All, IfOk, length, string_bytes};
ghost use Rattle.chart.specs.State.{blank};
ghost use Rattle.calls.specs.Law.{Told};
ghost use Rattle.office.specs.Lines.{IsPlaced, reply_to, replies_to};

use crate::command::{Command, Slip, Unit, parse};
use crate::reply::Reply;
use calls::{Answer, Call, run};
use chart::Refusal;
use measure::by_length::Length;
use measure::by_locks::LocksFirst;
use std::alloc::{AllocError, Global};
use std::fmt::{self, Write};

// A script as it was read.
#[derive(Drop)]
struct Script {
    // Settled by the first command.
    unit: Option<Unit>,
    calls: Vec<Call>,
    lines: Vec<Line>,
    ghost placed: { All (IsPlaced (length calls.items)) lines.items },
}

// A line that has a reply: at once, or by the answer to its call, which goes by its place among the calls.
#[derive(Clone, Copy, Debug, PartialEq, Eq)]
enum Line {
    Told(Reply),
    Call(usize),
}

// What the office writes for a script.
pub fn answered(heap: Global, input: &[u8]) -> anyhow::Result<String> {
    let text = String::from_utf8_lossy(heap, input)?;
    let script = read(heap, text.as_str())?;
    let answers = perform(heap, &script)?;
    Ok(replies(heap, script.lines.as_slice(), answers.as_slice())?)
}

// A reply a line, where these are the answers to the calls. Want of memory here is told as a text that can't be formatted.
fn replies(
    heap: Global,
    lines: &[Line],
    answers: &[Result<Answer, Refusal>],
) -> Result<String, fmt::Error>
    requires { All (IsPlaced (length answers.now)) lines.now }
    ensures { IfOk result (λ out. string_bytes out ≡ replies_to answers.now lines.now) }
{
    let mut out = String::new(heap);
    for line in lines {
        writeln!(out, "{}", line.reply(answers))?;
    }
    Ok(out)
}

fn perform(heap: Global, script: &Script) -> Result<Vec<Result<Answer, Refusal>>, AllocError>
    ensures { IfOk result (λ answers. Told blank script.now.calls.items answers.items) }
{
    let calls = script.calls.as_slice();
    match script.unit.unwrap_or_default() {
        Unit::Length => run(heap, Length, calls),
        Unit::Locks => run(heap, LocksFirst, calls),
    }
}

fn read(heap: Global, text: &str) -> Result<Script, AllocError> {
    let mut script = Script {
        unit: None,
        calls: Vec::new(heap),
        lines: Vec::new(heap),
    };
    for (index, line) in text.lines().enumerate() {
        let words: Vec<&str> = line.split_whitespace().collect(heap)?;
        script.take(index + 1, words.as_slice())?;
    }
    Ok(script)
}

impl Line {
    // The reply to the line, where these are the answers to the calls.
    fn reply(self, answers: &[Result<Answer, Refusal>]) -> Reply
        requires { IsPlaced (length answers.now) self }
        ensures { Some result ≡ reply_to answers.now self }
    {
        match self {
            Line::Told(reply) => reply,
            Line::Call(at) => Reply::Call(answers[at]),
        }
    }
}

impl Script {
    // Takes one more line, by its number and its words.
    fn take(&mut self, number: usize, words: &[&str]) -> Result<(), AllocError> {
        if words.first().is_none_or(|word| word.starts_with('#')) {
            return Ok(());
        }
        let line = match parse(words) {
            Ok(command) => self.obey(number, command)?,
            Err(slip) => Line::Told(Reply::Slip(number, slip)),
        };
        self.lines.push(line)?;
        Ok(())
    }

    fn obey(&mut self, number: usize, command: Command) -> Result<Line, AllocError>
        ensures { IfOk result (IsPlaced (length self.new.calls.items)) }
    {
        match (command, self.unit) {
            (Command::Measure(unit), None) => {
                self.unit = Some(unit);
                Ok(Line::Told(Reply::Measure(unit)))
            }
            (Command::Measure(_), Some(_)) => {
                Ok(Line::Told(Reply::Slip(number, Slip::MeasureNotFirst)))
            }
            (Command::Call(call), unit) => {
                self.unit = Some(unit.unwrap_or_default());
                let at = self.calls.len();
                self.calls.push(call)?;
                Ok(Line::Call(at))
            }
        }
    }
}
