// Step 2 for one mark: its label goes out over each leg, and on to the balls.

ghost use Rattle.std.specs.Prelude.{◌<◌, length};
ghost use Rattle.relaxing.specs.Offers.{Matched};
ghost use Rattle.relaxing.specs.Bundles.{waters, Right};
ghost use Rattle.relaxing.specs.Search.{Ran, IsLeg, Spread, SpreadLeg, SpreadLegs, ball_in};

use crate::bundles::Bundles;
use crate::offers::{add, label_at, relax, try_relax};
use measure::{Cost, Measure};
use queue::Queue;
use waterway::{Label, Leg};

impl<M: Measure> Bundles<'_, M> {
    // Offers to each mark of the ball of y what it costs at y and on from there.
    fn spread_ball<Q: Queue<M::Cost>>(
        &self,
        labels: &mut [Label<M::Cost>],
        queue: &mut Q,
        y: u16,
        cost: M::Cost,
    )
        requires laid { Q.Queue.Laid queue.old }
        requires matched { Matched M.Cost.Cost.kind self.now.hosts.now labels.old (Q.Queue.held queue.old) }
        requires right { Right M.Cost.Cost.kind M.Measure.priced self.now }
        requires inside { y < length labels.old }
        ensures laid { Q.Queue.Laid queue.new }
        ensures spread { let ball = ball_in M.Cost.Cost.kind self.now.hosts.now self.now.near.now y in Spread M.Cost.Cost.kind self.now.hosts.now ball labels.old (Q.Queue.held queue.old) labels.new (Q.Queue.held queue.new) (length ball) cost }
    {
        for member in self.ball(y) {
            try_relax(
                self.hosts,
                labels,
                queue,
                member.mark,
                cost.sum(member.cost),
            );
        }
    }

    // Offers the label of a mark over one leg, and from there to the ball.
    fn spread_leg<Q: Queue<M::Cost>>(
        &self,
        labels: &mut [Label<M::Cost>],
        queue: &mut Q,
        leg: &Leg,
        x: u16,
    )
        requires laid { Q.Queue.Laid queue.old }
        requires matched { Matched M.Cost.Cost.kind self.now.hosts.now labels.old (Q.Queue.held queue.old) }
        requires right { Right M.Cost.Cost.kind M.Measure.priced self.now }
        requires leg { IsLeg (waters M.Cost.Cost.kind M.Measure.priced self.now) leg.now }
        requires inside { x < length labels.old }
        ensures laid { Q.Queue.Laid queue.new }
        ensures ran { Ran (waters M.Cost.Cost.kind M.Measure.priced self.now) self.now.hosts.now labels.old (Q.Queue.held queue.old) labels.new (Q.Queue.held queue.new) }
        ensures spread { SpreadLeg (waters M.Cost.Cost.kind M.Measure.priced self.now) (length self.now.hosts.now) self.now.hosts.now labels.old labels.new leg.now x }
    {
        let Some(y) = leg.far_end(x) else {
            return;
        };
        let Some(cost) = add(label_at(labels, x), leg.price(self.measure)) else {
            return;
        };
        relax(self.hosts, labels, queue, y, cost);
        self.spread_ball(labels, queue, y, cost);
    }

    // Offers the label of a mark over each leg.
    pub fn spread_out<Q: Queue<M::Cost>>(
        &self,
        labels: &mut [Label<M::Cost>],
        queue: &mut Q,
        x: u16,
    )
        requires laid { Q.Queue.Laid queue.old }
        requires matched { Matched M.Cost.Cost.kind self.now.hosts.now labels.old (Q.Queue.held queue.old) }
        requires right { Right M.Cost.Cost.kind M.Measure.priced self.now }
        requires inside { x < length labels.old }
        ensures laid { Q.Queue.Laid queue.new }
        ensures ran { Ran (waters M.Cost.Cost.kind M.Measure.priced self.now) self.now.hosts.now labels.old (Q.Queue.held queue.old) labels.new (Q.Queue.held queue.new) }
        ensures spread { SpreadLegs (waters M.Cost.Cost.kind M.Measure.priced self.now) (length self.now.hosts.now) self.now.hosts.now labels.old labels.new (length self.now.legs.now) x }
    {
        for leg in self.legs {
            self.spread_leg(labels, queue, leg, x);
        }
    }
}
