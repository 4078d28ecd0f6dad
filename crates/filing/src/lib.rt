// Calls and chart files in one list of errands, and the law over whole lists of them.
#![tactic(auto)]

ghost use Rattle.std.specs.Prelude.{IfOk};
ghost use Rattle.chart.specs.Shown.{state};
ghost use Rattle.chart.specs.State.{blank};
ghost use Rattle.filing.specs.Filing.{Loading};
ghost use Rattle.filing.specs.Law.{Goes, Told};

use chart::Chart;
use chartfile::{load, write};
use measure::Measure;
use std::alloc::{AllocError, Global};

pub mod errand;
#[cfg(test)]
mod tests;

pub use errand::{Done, Errand, Refused};

// Begins a blank chart with the measure, and performs the errands on it, one after the other.
// It is not `calls::run` made generic: errands are lent to be changed, and a list of calls would be copied for that.
pub fn run<M: Measure + Drop>(
    heap: Global,
    measure: M,
    errands: &mut [Errand],
) -> Result<Vec<Result<Done, Refused>>, AllocError>
    ensures { IfOk result (λ answers. Told blank errands.old errands.new answers.items) }
{
    let mut chart = Chart::begin(heap, measure)?;
    let mut answers = Vec::new(heap);
    // A loop: of the chart that a closure changes, no proof of a chain knows.
    for errand in errands.iter_mut() {
        answers.push(perform(&mut chart, errand))?;
    }
    Ok(answers)
}

// Performs one errand on a chart.
fn perform<M: Measure>(chart: &mut Chart<M>, errand: &mut Errand) -> Result<Done, Refused>
    ensures { Goes (state chart.old) errand.old errand.new result (state chart.new) }
{
    Ok(match errand {
        Errand::Call(call) => Done::Called(calls::perform(chart, *call)?),
        Errand::Load(text) => load_file(chart, text.as_slice())?,
        Errand::Write(buffer) => Done::Written(write(chart, buffer.as_mut_slice())?),
    })
}

// Loads a chart from its file, and tells what stands on it then.
fn load_file<M: Measure>(chart: &mut Chart<M>, text: &[u8]) -> Result<Done, Refused>
    ensures { Loading text.now (state chart.old) result (state chart.new) }
{
    load(chart, text)?;
    Ok(Done::Loaded {
        marks: chart.marks(),
        legs: chart.legs().len(),
    })
}
