// What a chart has, for whoever writes it down.
ghost use Rattle.std.specs.Prelude.{◌≡◌};
ghost use Rattle.chart.specs.State.{marks};
ghost use Rattle.chart.specs.Shown.{state};

use crate::sheet::Chart;
use measure::Measure;
use waterway::Leg;

impl<M: Measure> Chart<M> {
    // So many marks stand.
    pub fn marks(&self) -> u16
        ensures { result ≡ marks (state self.now) }
    {
        // The cast loses nothing: there are at most 256.
        self.sheet.pivots.items.len() as u16
    }

    // The legs by number.
    pub fn legs(&self) -> &[Leg]
        ensures { result.now ≡ (state self.now).legs }
    {
        self.sheet.legs.items.as_slice()
    }

    // Each mark's marking as a pivot, by number.
    pub fn pivots(&self) -> &[bool]
        ensures { result.now ≡ (state self.now).pivots }
    {
        self.sheet.pivots.items.as_slice()
    }

    pub fn home(&self) -> Option<u16>
        ensures { result ≡ (state self.now).home }
    {
        self.sheet.home
    }
}
