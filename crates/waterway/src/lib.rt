// Legs of a waterway between marks, and labels of marks.
#![tactic(auto)]

ghost use Rattle.std.specs.Prelude.{◌≡◌, length, replicate, Decides};
ghost use Rattle.measure.specs.Legal.{Legal};
ghost use Rattle.waterway.specs.Labels.{told, unlabelled};
ghost use Rattle.waterway.specs.Legs.{Ends, FarEnd, Joined};
ghost use Rattle.waterway.specs.Priced.{water};
ghost use Rattle.waterway.specs.Ways.{toll};

use measure::{Cost, Measure};

#[cfg(test)]
mod tests;
pub mod worked;

// The limits of a leg, in tenths of a nautical mile and in locks.
const SHORTEST: u16 = 1;

const LONGEST: u16 = 60_000;

const MOST_LOCKS: u8 = 99;

// A stretch of water between two marks, which stay in the order named. The length is in tenths of a nautical mile.
#[derive(Clone, Copy, Debug, PartialEq, Eq)]
pub struct Leg {
    pub from: u16,
    pub to: u16,
    pub length: u16,
    pub locks: u8,
    pub open: bool,
}

// What is known of a mark: whether a cost is, and which. A blank label says no, and has the cost zero.
// The caller's table is to hold a yes or no and a cost, so it is no Option.
#[derive(Clone, Copy, Debug, PartialEq, Eq)]
pub struct Label<C> {
    pub known: bool,
    pub cost: C,
}

impl Leg {
    // Whether its ends are a and b, either way round.
    pub fn joins(&self, a: u16, b: u16) -> bool
        ensures { Decides result (Ends self.now a b) }
    {
        (self.from == a && self.to == b) || (self.from == b && self.to == a)
    }

    // Where it leads from a mark that it ends at, if it is open.
    pub fn far_end(&self, mark: u16) -> Option<u16>
        ensures { FarEnd self.now mark result }
    {
        if !self.open {
            return None;
        }
        if self.to == mark {
            return Some(self.from);
        }
        (self.from == mark).then_some(self.to)
    }

    // What it costs, open or closed.
    pub fn price<M: Measure>(&self, m: &M) -> M::Cost
        ensures { result ≡ M.Measure.priced m.now self.now.length self.now.locks }
    {
        m.price(self.length, self.locks)
    }
}

impl<C: Cost> Label<C> {
    // A label of a mark of which nothing is known.
    pub fn blank() -> Label<C>
        ensures { result ≡ unlabelled C.Cost.kind }
    {
        Label {
            known: false,
            cost: C::zero(),
        }
    }

    // The cost, where one is known.
    pub fn told(self) -> Option<C>
        ensures { result ≡ told self }
    {
        self.known.then_some(self.cost)
    }
}

// Makes every label blank.
pub fn blank_labels<C: Cost>(labels: &mut [Label<C>])
    ensures { labels.new ≡ replicate (length labels.old) (unlabelled C.Cost.kind) }
{
    let label = Label::blank();
    // Not by `fill`: nothing is known of what a cost's `clone` gives.
    labels.fill_with(|| label);
}

// Whether a leg may have this length and so many locks.
pub fn is_legal(length: u16, locks: u8) -> bool
    ensures { Decides result (Legal length locks) }
{
    (SHORTEST..=LONGEST).contains(&length) && locks <= MOST_LOCKS
}

// Whether a leg, open or closed, joins a and b.
pub fn joined(legs: &[Leg], a: u16, b: u16) -> bool
    ensures { Decides result (Joined legs.now a b) }
{
    legs.iter().any(|leg| leg.joins(a, b))
}

// What the leg number k costs, and zero where none stands.
pub fn price_at<M: Measure>(m: &M, legs: &[Leg], k: usize) -> M::Cost
    ensures { result ≡ toll (water M.Cost.Cost.kind (M.Measure.priced m.now) legs.now) k }
{
    legs.get(k).map_or(M::Cost::zero(), |leg| leg.price(m))
}
