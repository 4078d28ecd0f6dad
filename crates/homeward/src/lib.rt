// The steps home, and the routes.
#![tactic(auto)]

ghost use Rattle.std.specs.Prelude.{◌≡◌, ℕ, ◌<◌, ◌≤◌, List, length, take, drop};
ghost use Rattle.waterway.specs.Labels.{label_of};
ghost use Rattle.waterway.specs.Ways.{Dist, Tells};
ghost use Rattle.waterway.specs.Priced.{Charted};
ghost use Rattle.waterway.specs.Routes.{Route};
ghost use Rattle.homeward.specs.Steps.{Leads, LeadsBack, StepIs, StepsAre};
ghost use Rattle.homeward.specs.Waters.{waters};

use measure::{Cost, Measure};
use relaxing::label_at;
use waterway::{Label, Leg};

// A step home: the leg, and the mark at its other end.
#[derive(Clone, Copy, Debug, PartialEq, Eq)]
pub struct Step {
    pub leg: usize,
    pub next: u16,
}

// The legs of a chart, what prices them, and home.
#[derive(Drop)]
pub struct Homeward<'a, M> {
    pub measure: &'a M,
    pub legs: &'a [Leg],
    pub home: u16,
}

impl<M: Measure> Homeward<'_, M> {
    // The step from v over the leg k, if the label of its far end and the price make up the label of v.
    fn step_back(&self, labels: &[Label<M::Cost>], v: u16, k: usize) -> Option<Step>
        requires chart { Charted self.now.legs.now (length labels.now) }
        requires stands { k < length self.now.legs.now }
        requires inside { v < length labels.now }
        ensures { LeadsBack (waters M.Cost.Cost.kind M.Measure.priced self.now) labels.now v k result }
    {
        let leg = &self.legs[k];
        let next = leg.far_end(v)?;
        let near = label_at(labels, next)?;
        let far = label_at(labels, v)?;
        let sum = near.sum(leg.price(self.measure))?;
        sum.compare(far).is_eq().then_some(Step { leg: k, next })
    }

    // The step home from a mark: over the first leg that leads back.
    fn step_home(&self, labels: &[Label<M::Cost>], v: u16) -> Option<Step>
        requires chart { Charted self.now.legs.now (length labels.now) }
        requires tells { (v : ℕ) → Tells (waters M.Cost.Cost.kind M.Measure.priced self.now) self.now.home v (label_of M.Cost.Cost.kind labels.now v) }
        requires inside { v < length labels.now }
        ensures { StepIs (waters M.Cost.Cost.kind M.Measure.priced self.now) self.now.home v result }
    {
        if v == self.home {
            return None;
        }
        // By number, as a step names its leg; through `enumerate` no proof was found that this leg is the first.
        (0..self.legs.len()).find_map(|k| self.step_back(labels, v, k))
    }

    // Writes the step home of each mark, or that it has none.
    pub fn write_steps(&self, labels: &[Label<M::Cost>], steps: &mut [Option<Step>])
        requires chart { Charted self.now.legs.now (length labels.now) }
        requires tells { (v : ℕ) → Tells (waters M.Cost.Cost.kind M.Measure.priced self.now) self.now.home v (label_of M.Cost.Cost.kind labels.now v) }
        requires long { length steps.old ≡ length labels.now }
        ensures { StepsAre (waters M.Cost.Cost.kind M.Measure.priced self.now) self.now.home steps.new (length steps.new) }
    {
        // By `enumerate`, as what is written through `iter_mut` in a `zip` no proof knows. The cast loses nothing: there are at most 256 marks.
        for (v, step) in steps.iter_mut().enumerate() {
            *step = self.step_home(labels, v as u16);
        }
    }

    // Writes the route from home to a mark to the end of `route`, and returns where it begins.
    // An index, since no proof was found for a slice that is lent again after it is written.
    pub fn write_route(&self, steps: &[Option<Step>], route: &mut [usize], v: u16) -> usize
        requires chart { Charted self.now.legs.now (length steps.now) }
        requires steps { StepsAre (waters M.Cost.Cost.kind M.Measure.priced self.now) self.now.home steps.now (length steps.now) }
        requires home { self.now.home < length steps.now }
        requires way { (c : _) × Dist (waters M.Cost.Cost.kind M.Measure.priced self.now) self.now.home v c }
        requires room { length steps.now ≤ length route.old }
        ensures inside { result ≤ length route.new }
        ensures front { take result route.new ≡ take result route.old }
        ensures route { Route (waters M.Cost.Cost.kind M.Measure.priced self.now) self.now.home v (drop result route.new) }
    {
        write_legs(steps, route, v)
    }
}

// Writes the legs that the steps take from a mark to the end of `route`, the first last, and returns where they begin.
fn write_legs(steps: &[Option<Step>], route: &mut [usize], v: u16) -> usize
    requires { (ks : List ℕ) × Leads steps.now v ks × (length ks ≤ length route.old) }
    ensures inside { result ≤ length route.new }
    ensures front { take result route.new ≡ take result route.old }
    ensures legs { Leads steps.now v (drop result route.new) }
{
    let Some(step) = steps[usize::from(v)] else {
        return route.len();
    };
    let (last, before) = route.split_last_mut().unwrap();
    *last = step.leg;
    write_legs(steps, before, step.next)
}
