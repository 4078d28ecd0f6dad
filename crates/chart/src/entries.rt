// The calls that enter and change what a chart has.
ghost use Rattle.std.specs.Prelude.{◌≡◌, true, false, IfOk};
ghost use Rattle.chart.specs.State.{blank};
ghost use Rattle.chart.specs.Shown.{state, Changes};
ghost use Rattle.chart.specs.Calls.{AddsMark, EntersLeg, TurnsLeg, SetsHome, SetsPivot};

use crate::bounded::Bounded;
use crate::refusal::Refusal;
use crate::sheet::{Chart, Sheet};
use measure::Measure;
use std::alloc::{AllocError, Global};
use waterway::{Leg, is_legal, joined};

impl<M: Measure> Chart<M> {
    // A blank chart, or none for want of memory: no later call asks for any.
    pub fn begin(heap: Global, measure: M) -> Result<Chart<M>, AllocError>
    where
        M: Drop,
        ensures { IfOk result (λ chart. (state chart ≡ blank) × (chart.measure ≡ measure)) }
    {
        let sheet = Sheet {
            legs: Bounded::begin(heap)?,
            pivots: Bounded::begin(heap)?,
            home: None,
            worked: false,
        };
        Ok(Chart { measure, sheet })
    }

    // Makes the chart blank again.
    pub fn clear(&mut self)
        ensures { Changes (λ _ after. after ≡ blank) self.old self.new }
    {
        self.sheet.worked = false;
        self.sheet.home = None;
        self.sheet.legs.items.clear();
        self.sheet.pivots.items.clear();
    }

    // Adds a mark, and gives its number.
    pub fn add_mark(&mut self) -> Result<u16, Refusal>
        ensures { Changes (AddsMark result) self.old self.new }
    {
        if self.sheet.pivots.is_full() {
            return Err(Refusal::MarksFull);
        }
        let mark = self.marks();
        self.sheet.pivots.push(false);
        self.sheet.worked = false;
        Ok(mark)
    }

    // Enters an open leg between a and b, and gives its number. The length is in tenths of a nautical mile.
    pub fn enter_leg(&mut self, a: u16, b: u16, length: u16, locks: u8) -> Result<u16, Refusal>
        ensures { Changes (EntersLeg a b length locks result) self.old self.new }
    {
        if a >= self.marks() || b >= self.marks() {
            return Err(Refusal::NoSuchMark);
        }
        if a == b {
            return Err(Refusal::SameEnds);
        }
        if !is_legal(length, locks) {
            return Err(Refusal::OutOfLimits);
        }
        if self.sheet.legs.is_full() {
            return Err(Refusal::LegsFull);
        }
        if joined(self.legs(), a, b) {
            return Err(Refusal::JoinedAlready);
        }
        // The cast loses nothing: there are at most 1,024.
        let number = self.legs().len() as u16;
        self.sheet.legs.push(Leg {
            from: a,
            to: b,
            length,
            locks,
            open: true,
        });
        self.sheet.worked = false;
        Ok(number)
    }

    // Closes an open leg.
    pub fn close(&mut self, leg: u16) -> Result<(), Refusal>
        ensures { Changes (TurnsLeg leg false result) self.old self.new }
    {
        self.turn(leg, false)
    }

    // Opens a closed leg again.
    pub fn reopen(&mut self, leg: u16) -> Result<(), Refusal>
        ensures { Changes (TurnsLeg leg true result) self.old self.new }
    {
        self.turn(leg, true)
    }

    fn turn(&mut self, leg: u16, open: bool) -> Result<(), Refusal>
        ensures { Changes (TurnsLeg leg «open» result) self.old self.new }
    {
        let at = usize::from(leg);
        if at >= self.legs().len() {
            return Err(Refusal::NoSuchLeg);
        }
        if self.legs()[at].open == open {
            return Err(Refusal::StandsAlready);
        }
        self.sheet.legs.items[at].open = open;
        self.sheet.worked = false;
        Ok(())
    }

    // Makes the mark home from now on.
    pub fn set_home(&mut self, mark: u16) -> Result<(), Refusal>
        ensures { Changes (SetsHome mark result) self.old self.new }
    {
        if mark >= self.marks() {
            return Err(Refusal::NoSuchMark);
        }
        self.sheet.home = Some(mark);
        self.sheet.worked = false;
        Ok(())
    }

    // Marks the mark as a pivot, or as none, from now on. A chart that is worked out stays so.
    pub fn set_pivot(&mut self, mark: u16, pivot: bool) -> Result<(), Refusal>
        ensures { Changes (SetsPivot mark pivot result) self.old self.new }
    {
        if mark >= self.marks() {
            return Err(Refusal::NoSuchMark);
        }
        self.sheet.pivots.items[usize::from(mark)] = pivot;
        Ok(())
    }
}
