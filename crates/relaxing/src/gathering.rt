// Step 1 for one mark: it takes offers from its host, from its ball, and over each leg into the ball.

ghost use Rattle.std.specs.Prelude.{◌<◌, length};
ghost use Rattle.waterway.specs.Ways.{Dist};
ghost use Rattle.relaxing.specs.Offers.{Matched};
ghost use Rattle.relaxing.specs.Bundles.{waters, Right};
ghost use Rattle.relaxing.specs.Search.{Ran, IsLeg, OverLeg, OverLegs, FromNear, FromHost, FromBall, Gathered, ball_in};

use crate::bundles::Bundles;
use crate::offers::{add, label_at, try_relax};
use bundling::Near;
use measure::Measure;
use queue::Queue;
use waterway::{Label, Leg};

impl<M: Measure> Bundles<'_, M> {
    // Offers to `to` what it costs over one leg into a mark of its ball, and on from there.
    fn over_leg<Q: Queue<M::Cost>>(
        &self,
        labels: &mut [Label<M::Cost>],
        queue: &mut Q,
        leg: &Leg,
        member: Near<M::Cost>,
        to: u16,
    )
        requires laid { Q.Queue.Laid queue.old }
        requires matched { Matched M.Cost.Cost.kind self.now.hosts.now labels.old (Q.Queue.held queue.old) }
        requires right { Right M.Cost.Cost.kind M.Measure.priced self.now }
        requires leg { IsLeg (waters M.Cost.Cost.kind M.Measure.priced self.now) leg.now }
        requires inside { to < length labels.old }
        requires away { Dist (waters M.Cost.Cost.kind M.Measure.priced self.now) member.mark to member.cost }
        ensures laid { Q.Queue.Laid queue.new }
        ensures ran { Ran (waters M.Cost.Cost.kind M.Measure.priced self.now) self.now.hosts.now labels.old (Q.Queue.held queue.old) labels.new (Q.Queue.held queue.new) }
        ensures offered { OverLeg (waters M.Cost.Cost.kind M.Measure.priced self.now) labels.old labels.new leg.now member.mark member.cost to }
    {
        let Some(far) = leg.far_end(member.mark) else {
            return;
        };
        let first = add(label_at(labels, far), leg.price(self.measure));
        try_relax(self.hosts, labels, queue, to, add(first, member.cost));
    }

    // Offers to `to` what it costs over each leg into a mark of its ball, and on from there.
    fn over_legs<Q: Queue<M::Cost>>(
        &self,
        labels: &mut [Label<M::Cost>],
        queue: &mut Q,
        member: Near<M::Cost>,
        to: u16,
    )
        requires laid { Q.Queue.Laid queue.old }
        requires matched { Matched M.Cost.Cost.kind self.now.hosts.now labels.old (Q.Queue.held queue.old) }
        requires right { Right M.Cost.Cost.kind M.Measure.priced self.now }
        requires inside { to < length labels.old }
        requires away { Dist (waters M.Cost.Cost.kind M.Measure.priced self.now) member.mark to member.cost }
        ensures laid { Q.Queue.Laid queue.new }
        ensures ran { Ran (waters M.Cost.Cost.kind M.Measure.priced self.now) self.now.hosts.now labels.old (Q.Queue.held queue.old) labels.new (Q.Queue.held queue.new) }
        ensures offered { OverLegs (waters M.Cost.Cost.kind M.Measure.priced self.now) labels.old labels.new (length self.now.legs.now) member.mark member.cost to }
    {
        for leg in self.legs {
            self.over_leg(labels, queue, leg, member, to);
        }
    }

    // Offers to `to` from one mark of its ball, and over each leg into that mark.
    fn from_near<Q: Queue<M::Cost>>(
        &self,
        labels: &mut [Label<M::Cost>],
        queue: &mut Q,
        member: Near<M::Cost>,
        to: u16,
    )
        requires laid { Q.Queue.Laid queue.old }
        requires matched { Matched M.Cost.Cost.kind self.now.hosts.now labels.old (Q.Queue.held queue.old) }
        requires right { Right M.Cost.Cost.kind M.Measure.priced self.now }
        requires inside { to < length labels.old }
        requires member { member.mark < length labels.old }
        requires away { Dist (waters M.Cost.Cost.kind M.Measure.priced self.now) member.mark to member.cost }
        ensures laid { Q.Queue.Laid queue.new }
        ensures ran { Ran (waters M.Cost.Cost.kind M.Measure.priced self.now) self.now.hosts.now labels.old (Q.Queue.held queue.old) labels.new (Q.Queue.held queue.new) }
        ensures offered { FromNear (waters M.Cost.Cost.kind M.Measure.priced self.now) labels.old labels.new member.mark member.cost to }
    {
        try_relax(
            self.hosts,
            labels,
            queue,
            to,
            add(label_at(labels, member.mark), member.cost),
        );
        self.over_legs(labels, queue, member, to);
    }

    // Offers to a mark from each mark of its ball, and over each leg into one.
    fn from_ball<Q: Queue<M::Cost>>(&self, labels: &mut [Label<M::Cost>], queue: &mut Q, to: u16)
        requires laid { Q.Queue.Laid queue.old }
        requires matched { Matched M.Cost.Cost.kind self.now.hosts.now labels.old (Q.Queue.held queue.old) }
        requires right { Right M.Cost.Cost.kind M.Measure.priced self.now }
        requires inside { to < length labels.old }
        ensures laid { Q.Queue.Laid queue.new }
        ensures ran { Ran (waters M.Cost.Cost.kind M.Measure.priced self.now) self.now.hosts.now labels.old (Q.Queue.held queue.old) labels.new (Q.Queue.held queue.new) }
        ensures offered { let ball = ball_in M.Cost.Cost.kind self.now.hosts.now self.now.near.now to in FromBall (waters M.Cost.Cost.kind M.Measure.priced self.now) ball labels.old labels.new (length ball) to }
    {
        for member in self.ball(to) {
            self.from_near(labels, queue, *member, to);
        }
    }

    // Offers to a mark from its host, if it has one.
    fn from_host<Q: Queue<M::Cost>>(&self, labels: &mut [Label<M::Cost>], queue: &mut Q, v: u16)
        requires laid { Q.Queue.Laid queue.old }
        requires matched { Matched M.Cost.Cost.kind self.now.hosts.now labels.old (Q.Queue.held queue.old) }
        requires right { Right M.Cost.Cost.kind M.Measure.priced self.now }
        requires inside { v < length labels.old }
        ensures laid { Q.Queue.Laid queue.new }
        ensures ran { Ran (waters M.Cost.Cost.kind M.Measure.priced self.now) self.now.hosts.now labels.old (Q.Queue.held queue.old) labels.new (Q.Queue.held queue.new) }
        ensures offered { FromHost (waters M.Cost.Cost.kind M.Measure.priced self.now) self.now.hosts.now labels.old labels.new v }
    {
        let host = self.hosts[usize::from(v)];
        if let Some(pivot) = host.pivot {
            try_relax(
                self.hosts,
                labels,
                queue,
                v,
                add(label_at(labels, pivot.mark), pivot.cost),
            );
        }
    }

    // Offers to a mark from its host and from its ball.
    pub(crate) fn gather<Q: Queue<M::Cost>>(
        &self,
        labels: &mut [Label<M::Cost>],
        queue: &mut Q,
        v: u16,
    )
        requires laid { Q.Queue.Laid queue.old }
        requires matched { Matched M.Cost.Cost.kind self.now.hosts.now labels.old (Q.Queue.held queue.old) }
        requires right { Right M.Cost.Cost.kind M.Measure.priced self.now }
        requires inside { v < length labels.old }
        ensures laid { Q.Queue.Laid queue.new }
        ensures ran { Ran (waters M.Cost.Cost.kind M.Measure.priced self.now) self.now.hosts.now labels.old (Q.Queue.held queue.old) labels.new (Q.Queue.held queue.new) }
        ensures gathered { Gathered (waters M.Cost.Cost.kind M.Measure.priced self.now) self.now.hosts.now self.now.near.now labels.old labels.new v }
    {
        self.from_host(labels, queue, v);
        self.from_ball(labels, queue, v);
    }
}
