// A chart's calls as data, and the law over whole lists of them.
#![tactic(auto)]

ghost use Rattle.std.specs.Prelude.{IfOk};
ghost use Rattle.chart.specs.Calls.{Brings};
ghost use Rattle.chart.specs.Shown.{state};
ghost use Rattle.chart.specs.State.{blank};
ghost use Rattle.calls.specs.Law.{checks, given, next, Told};

use chart::{Chart, Refusal};
use measure::Measure;
use std::alloc::{AllocError, Global};

pub mod call;

pub use call::{Answer, Call};

// Begins a blank chart with the measure, and performs the calls on it, one after the other.
pub fn run<M: Measure + Drop>(
    heap: Global,
    measure: M,
    calls: &[Call],
) -> Result<Vec<Result<Answer, Refusal>>, AllocError>
    ensures { IfOk result (λ answers. Told blank calls.now answers.items) }
{
    let mut chart = Chart::begin(heap, measure)?;
    let mut answers = Vec::new(heap);
    // A loop: of the chart that a closure changes, no proof of a chain knows.
    for call in calls {
        answers.push(perform(&mut chart, *call))?;
    }
    Ok(answers)
}

// Performs one call on a chart.
pub fn perform<M: Measure>(chart: &mut Chart<M>, call: Call) -> Result<Answer, Refusal>
    ensures { Brings (checks (state chart.old) call) (given (state chart.old) call) (state chart.old) (next (state chart.old) call) result (state chart.new) }
{
    Ok(match call {
        Call::AddMark => Answer::Mark(chart.add_mark()?),
        Call::EnterLeg {
            a,
            b,
            length,
            locks,
        } => Answer::Leg(chart.enter_leg(a, b, length, locks)?),
        Call::Close(leg) => {
            chart.close(leg)?;
            Answer::Closed(leg)
        }
        Call::Reopen(leg) => {
            chart.reopen(leg)?;
            Answer::Reopened(leg)
        }
        Call::SetHome(mark) => {
            chart.set_home(mark)?;
            Answer::Home(mark)
        }
        Call::SetPivot(mark, pivot) => {
            chart.set_pivot(mark, pivot)?;
            Answer::Pivot(mark, pivot)
        }
    })
}
