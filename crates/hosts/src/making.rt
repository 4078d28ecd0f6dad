// The hosts of all marks, and the near table with their balls.

ghost use Rattle.std.specs.Prelude.{◌≡◌, ◌^◌, ◌<◌, ◌≤◌, length, MatchResult};
ghost use Rattle.waterway.specs.Priced.{water, Charted};
ghost use Rattle.relaxing.specs.Bundles.{waters};
ghost use Rattle.hosts.specs.Local.{Selves, HostMade, own};
ghost use Rattle.hosts.specs.Rounds.{Lone};
ghost use Rattle.hosts.specs.Made.{AllMade, TooFew};

use crate::nearest::nearest_pivot;
use crate::rounds::Round;
use crate::rows::{blank_rows, write_rows};
use bundling::{Host, Near};
use measure::{Cost, Measure};
use queue::Queue;
use relaxing::Bundles;
use waterway::{Label, Leg};

// A pivot's own host, whose ball is empty.
fn own_host<C: Cost>(mark: u16, at: usize) -> Host<C>
    ensures { result ≡ own C.Cost.kind mark at }
{
    Host {
        pivot: Some(Near {
            mark,
            cost: C::zero(),
        }),
        start: at,
        end: at,
    }
}

impl<M: Measure> Round<'_, M> {
    // The host of a mark, and its ball, written to the near table from `start` on; counts on where there is no room.
    fn local_host<Q: Queue<M::Cost>>(
        &self,
        labels: &mut [Label<M::Cost>],
        queue: &mut Q,
        near: &mut [Near<M::Cost>],
        start: usize,
        v: u16,
    ) -> Host<M::Cost>
        requires span { length labels.old ≤ (Q.Queue.held queue.old).span }
        requires lone { Lone M.Cost.Cost.kind self.now }
        requires long { length labels.old ≡ length self.now.bundles.hosts.now }
        requires inside { v < length labels.old }
        requires low { start ≤ 2 ^ 31 }
        ensures span { (Q.Queue.held queue.new).span ≡ (Q.Queue.held queue.old).span }
        ensures made { HostMade (waters M.Cost.Cost.kind M.Measure.priced self.now.bundles) (length self.now.bundles.hosts.now) self.now.pivots.now v start near.old near.new result }
    {
        if self.pivots[usize::from(v)] {
            return own_host(v, start);
        }
        self.look_round(labels, queue, v);
        let pivot = nearest_pivot(self.pivots, labels);
        let end = match &pivot {
            Some(best) => write_rows(labels, near, start, best.cost),
            None => start,
        };
        Host { pivot, start, end }
    }
}

// The balls hold more marks than the near table has rows.
#[derive(Clone, Copy, Debug, PartialEq, Eq)]
pub struct TooFewRows {
    pub needed: usize,
}

// Writes the hosts and the near table, and returns how many rows the balls take.
// So many parameters, since each list and table is lent by itself: some are read, some are written, and the caller keeps each.
pub fn make_hosts<M: Measure, Q: Queue<M::Cost>>(
    measure: &M,
    legs: &[Leg],
    selves: &[Host<M::Cost>],
    pivots: &[bool],
    labels: &mut [Label<M::Cost>],
    queue: &mut Q,
    hosts: &mut [Host<M::Cost>],
    near: &mut [Near<M::Cost>],
) -> Result<usize, TooFewRows>
    requires span { length labels.old ≤ (Q.Queue.held queue.old).span }
    requires chart { Charted legs.now (length labels.old) }
    requires selves { Selves M.Cost.Cost.kind selves.now (length labels.old) }
    requires long { length pivots.now ≡ length labels.old }
    requires hosts { length hosts.old ≡ length labels.old }
    ensures span { (Q.Queue.held queue.new).span ≡ (Q.Queue.held queue.old).span }
    ensures made { let W = water M.Cost.Cost.kind (M.Measure.priced measure.now) legs.now in MatchResult result (AllMade W pivots.now hosts.new near.new) (TooFew W pivots.now near.new) }
{
    let bundles = Bundles {
        measure,
        legs,
        hosts: selves,
        near: &[],
    };
    let round = Round { bundles, pivots };
    let mut at = 0;
    // By `enumerate`, as what is written through `iter_mut` in a `zip` no proof knows. The cast loses nothing: there are at most 256 marks.
    for (v, host) in hosts.iter_mut().enumerate() {
        *host = round.local_host(labels, queue, near, at, v as u16);
        at = host.end;
    }
    if at > near.len() {
        return Err(TooFewRows { needed: at });
    }
    blank_rows(near, at);
    Ok(at)
}

// Makes each mark its own host.
// The searches round single marks spread labels by the same code, over bundles in which each mark is its own host.
pub fn make_selves<C: Cost>(selves: &mut [Host<C>])
    requires { length selves.old ≤ 256 }
    ensures { Selves C.Cost.kind selves.new (length selves.new) }
{
    // By `enumerate` and a cast that loses nothing, as in `make_hosts`.
    for (v, host) in selves.iter_mut().enumerate() {
        *host = own_host(v as u16, 0);
    }
}
