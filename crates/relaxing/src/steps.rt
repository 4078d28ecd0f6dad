// The two steps of a search when a pivot is drawn: the marks of its bundle take offers, and then offer their labels on.

ghost use Rattle.std.specs.Prelude.{length};
ghost use Rattle.relaxing.specs.Offers.{Matched};
ghost use Rattle.relaxing.specs.Bundles.{waters, Right};
ghost use Rattle.relaxing.specs.Search.{Ran, StepOne, StepTwo};

use crate::bundles::Bundles;
use measure::Measure;
use queue::Queue;
use waterway::Label;

// A loop for each step: a closure that is lent labels and queue would need a contract as long as the loop's function.
impl<M: Measure> Bundles<'_, M> {
    // Step 1: each mark that u hosts takes offers.
    pub fn step_one<Q: Queue<M::Cost>>(&self, labels: &mut [Label<M::Cost>], queue: &mut Q, u: u16)
        requires laid { Q.Queue.Laid queue.old }
        requires matched { Matched M.Cost.Cost.kind self.now.hosts.now labels.old (Q.Queue.held queue.old) }
        requires right { Right M.Cost.Cost.kind M.Measure.priced self.now }
        ensures laid { Q.Queue.Laid queue.new }
        ensures ran { Ran (waters M.Cost.Cost.kind M.Measure.priced self.now) self.now.hosts.now labels.old (Q.Queue.held queue.old) labels.new (Q.Queue.held queue.new) }
        ensures gathered { StepOne (waters M.Cost.Cost.kind M.Measure.priced self.now) self.now.hosts.now self.now.near.now labels.old labels.new u (length self.now.hosts.now) }
    {
        for (v, host) in (0u16..).zip(self.hosts) {
            if host.is_of(u) {
                self.gather(labels, queue, v);
            }
        }
    }

    // Step 2: each mark that u hosts offers its label on.
    pub fn step_two<Q: Queue<M::Cost>>(&self, labels: &mut [Label<M::Cost>], queue: &mut Q, u: u16)
        requires laid { Q.Queue.Laid queue.old }
        requires matched { Matched M.Cost.Cost.kind self.now.hosts.now labels.old (Q.Queue.held queue.old) }
        requires right { Right M.Cost.Cost.kind M.Measure.priced self.now }
        ensures laid { Q.Queue.Laid queue.new }
        ensures ran { Ran (waters M.Cost.Cost.kind M.Measure.priced self.now) self.now.hosts.now labels.old (Q.Queue.held queue.old) labels.new (Q.Queue.held queue.new) }
        ensures spread { StepTwo (waters M.Cost.Cost.kind M.Measure.priced self.now) (length self.now.hosts.now) self.now.hosts.now labels.old labels.new u (length self.now.hosts.now) }
    {
        for (x, host) in (0u16..).zip(self.hosts) {
            if host.is_of(u) {
                self.spread_out(labels, queue, x);
            }
        }
    }
}
