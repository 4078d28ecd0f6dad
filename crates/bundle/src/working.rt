// The whole working-out: hosts, near table and labels, or nothing but a refusal.

ghost use Rattle.std.specs.Prelude.{◌≡◌, ◌<◌, ◌≤◌, true, length, take, drop};
ghost use Rattle.queue.specs.Held.{Alike, cleared};
ghost use Rattle.waterway.specs.Priced.{water, Charted};
ghost use Rattle.relaxing.specs.Offers.{Blank};
ghost use Rattle.hosts.specs.Local.{pivot_of};
ghost use Rattle.bundle.specs.Answers.{NoRows, Answer};

use crate::searching::{count_known, search};
use bundling::{Host, Near};
use hosts::{TooFewRows, blank_rows, make_hosts, make_selves};
use measure::{Cost, Measure};
use queue::Queue;
use relaxing::Bundles;
use waterway::{Label, Leg, blank_labels};

// What a working-out counts: the draws, the rows of the near table, and the marks with a way home.
#[derive(Clone, Copy, Debug, PartialEq, Eq)]
pub struct Totals {
    pub draws: u16,
    pub rows: usize,
    pub reached: usize,
}

// Takes back what a search has written: blank labels, blank rows, and a cleared queue.
fn give_up<C: Cost, Q: Queue<C>>(near: &mut [Near<C>], labels: &mut [Label<C>], queue: &mut Q)
    ensures labels { Blank C.Cost.kind labels.new }
    ensures near { NoRows C.Cost.kind near.new }
    ensures queue { Alike (Q.Queue.held queue.new) (cleared (Q.Queue.held queue.old).span) }
{
    blank_labels(labels);
    blank_rows(near, 0);
    queue.clear();
}

// Works out the hosts, the near table and the labels of all marks, with just as many hosts and labels as marks.
fn find_all<M: Measure, Q: Queue<M::Cost>>(
    measure: &M,
    legs: &[Leg],
    pivots: &[bool],
    selves: &mut [Host<M::Cost>],
    hosts: &mut [Host<M::Cost>],
    near: &mut [Near<M::Cost>],
    labels: &mut [Label<M::Cost>],
    queue: &mut Q,
    home: u16,
) -> Result<Totals, TooFewRows>
    requires span { length labels.old ≤ (Q.Queue.held queue.old).span }
    requires chart { Charted legs.now (length labels.old) }
    requires selves { length selves.old ≡ length labels.old }
    requires long { length pivots.now ≡ length labels.old }
    requires hosts { length hosts.old ≡ length labels.old }
    requires inside { home < length labels.old }
    requires pivot { pivot_of pivots.now home ≡ true }
    ensures { Answer (water M.Cost.Cost.kind (M.Measure.priced measure.now) legs.now) (length labels.old) (pivot_of pivots.now) home near.new labels.new (Q.Queue.held queue.old) (Q.Queue.held queue.new) result }
{
    make_selves(selves);
    let rows = match make_hosts(measure, legs, selves, pivots, labels, queue, hosts, near) {
        Ok(rows) => rows,
        Err(refusal) => {
            give_up(near, labels, queue);
            return Err(refusal);
        }
    };
    let bundles = Bundles {
        measure,
        legs,
        hosts,
        near,
    };
    let draws = search(&bundles, labels, queue, home);
    let reached = count_known(labels);
    Ok(Totals {
        draws,
        rows,
        reached,
    })
}

// Works out the hosts, the near table and the first labels, one for each mark.
// So many parameters, since each list and table is lent by itself: some are read, some are written, and the caller keeps each.
// `selves` are the hosts in the searches round single marks, where each mark is its own.
pub fn work_out<M: Measure, Q: Queue<M::Cost>>(
    measure: &M,
    legs: &[Leg],
    pivots: &[bool],
    selves: &mut [Host<M::Cost>],
    hosts: &mut [Host<M::Cost>],
    near: &mut [Near<M::Cost>],
    labels: &mut [Label<M::Cost>],
    queue: &mut Q,
    home: u16,
) -> Result<Totals, TooFewRows>
    requires span { length pivots.now ≤ (Q.Queue.held queue.old).span }
    requires chart { Charted legs.now (length pivots.now) }
    requires selves { length pivots.now ≤ length selves.old }
    requires hosts { length pivots.now ≤ length hosts.old }
    requires labels { length pivots.now ≤ length labels.old }
    requires inside { home < length pivots.now }
    requires pivot { pivot_of pivots.now home ≡ true }
    ensures answer { Answer (water M.Cost.Cost.kind (M.Measure.priced measure.now) legs.now) (length pivots.now) (pivot_of pivots.now) home near.new (take (length pivots.now) labels.new) (Q.Queue.held queue.old) (Q.Queue.held queue.new) result }
    ensures later { drop (length pivots.now) labels.new ≡ drop (length pivots.now) labels.old }
{
    let n = pivots.len();
    let selves = &mut selves[..n];
    let hosts = &mut hosts[..n];
    let first = &mut labels[..n];
    find_all(
        measure, legs, pivots, selves, hosts, near, first, queue, home,
    )
}
