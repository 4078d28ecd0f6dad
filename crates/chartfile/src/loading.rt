// Loading a file onto a chart.
ghost use Rattle.std.specs.Prelude.{◌≡◌, ◌<◌, length, MatchResult};
ghost use Rattle.chart.specs.Shown.{state, Changes};
ghost use Rattle.chart.specs.State.{State, blank};
ghost use Rattle.chartfile.specs.Entries.{entry_checks, entered, Passed};
ghost use Rattle.chartfile.specs.Faults.{BadLine, Faulty};
ghost use Rattle.chartfile.specs.Loading.{FrameLine, Loaded, Loads};

use crate::before::Before;
use crate::entry::enter;
use crate::fault::{Cause, Fault};
use crate::frame::{Frame, frame_of, sum_of};
use crate::hex::decode;
use chart::Chart;
use measure::Measure;

// Loads a file onto a chart without marks. Where the file has a fault, the chart is blank.
pub fn load<M: Measure>(chart: &mut Chart<M>, text: &[u8]) -> Result<(), Fault>
    ensures { Changes (λ before after. Loads text.now before result after) chart.old chart.new }
{
    if chart.marks() > 0 {
        return Err(Fault {
            line: 0,
            cause: Cause::HasMarks,
        });
    }
    let loaded = load_lines(chart, text);
    if loaded.is_err() {
        chart.clear();
    }
    loaded
}

// The frame of the first line, and the lines after it. The form is fixed: `let .. else` takes a decoded line apart.
fn first_frame(text: &[u8], before: Before) -> Result<(Frame, &[u8]), Cause>
    requires { 0 < length text.now }
    ensures { MatchResult result (λ p. FrameLine before text.now p.0 p.1.now) (λ cause. (s : State) → BadLine before.count before.latest s text.now cause) }
{
    let Some((bytes, rest)) = decode(text) else {
        return Err(Cause::BadDigits);
    };
    if sum_of(bytes.as_slice()) != 0 {
        return Err(Cause::BadSum);
    }
    let frame = frame_of(bytes.as_slice()).ok_or(Cause::BadFrame)?;
    if !before.allows(frame) {
        return Err(Cause::BadFrame);
    }
    Ok((frame, rest))
}

// Loads the first line, and gives its frame and the lines after it.
fn load_line<'a, M: Measure>(
    chart: &mut Chart<M>,
    text: &'a [u8],
    before: Before,
) -> Result<(Frame, &'a [u8]), Cause>
    requires { 0 < length text.now }
    ensures { Changes (λ old new. MatchResult result (λ p. FrameLine before text.now p.0 p.1.now × Passed (entry_checks old p.0) × (new ≡ entered old p.0)) (BadLine before.count before.latest old text.now)) chart.old chart.new }
{
    let (frame, rest) = first_frame(text, before)?;
    enter(chart, frame)?;
    Ok((frame, rest))
}

// Loads all lines onto a blank chart.
fn load_lines<M: Measure>(chart: &mut Chart<M>, text: &[u8]) -> Result<(), Fault>
    requires { state chart.old ≡ blank }
    ensures { Changes (λ _ new. MatchResult result (λ _. Loaded text.now new) (Faulty text.now)) chart.old chart.new }
{
    let mut before = Before::default();
    let mut rest = text;
    while !rest.is_empty() {
        let line = before.count + 1;
        let (frame, after) = load_line(chart, rest, before).map_err(|cause| Fault { line, cause })?;
        before = Before {
            count: line,
            latest: Some(frame),
        };
        rest = after;
    }
    if !before.is_complete() {
        return Err(Fault {
            line: before.count + 1,
            cause: Cause::BadFrame,
        });
    }
    Ok(())
}
