// A frame's entry on a chart.
ghost use Rattle.chart.specs.Shown.{Changes};
ghost use Rattle.chartfile.specs.Entries.{Enters};

use crate::frame::Frame;
use chart::{Chart, Refusal};
use measure::Measure;
use waterway::Leg;

// Makes the calls of a frame's entry. Where one is refused, those before it stand.
pub fn enter<M: Measure>(chart: &mut Chart<M>, frame: Frame) -> Result<(), Refusal>
    ensures { Changes (Enters frame result) chart.old chart.new }
{
    match frame {
        Frame::Head(marks) => add_marks(chart, marks),
        Frame::Entry(leg) => enter_leg(chart, leg),
        Frame::Pivot(mark) => chart.set_pivot(mark, true),
        Frame::Home(mark) => chart.set_home(mark),
        Frame::Last(_) => Ok(()),
    }
}

fn add_marks<M: Measure>(chart: &mut Chart<M>, marks: u16) -> Result<(), Refusal>
    ensures { Changes (Enters (Frame.Head marks) result) chart.old chart.new }
{
    for _added in 0..marks {
        chart.add_mark()?;
    }
    Ok(())
}

fn enter_leg<M: Measure>(chart: &mut Chart<M>, leg: Leg) -> Result<(), Refusal>
    ensures { Changes (Enters (Frame.Entry leg) result) chart.old chart.new }
{
    let number = chart.enter_leg(leg.from, leg.to, leg.length, leg.locks)?;
    if !leg.open {
        chart.close(number)?;
    }
    Ok(())
}
