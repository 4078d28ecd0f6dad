// Offers of a cost to a mark, and on from there to its host.

ghost use Rattle.std.specs.Prelude.{◌≡◌, ◌<◌, ◌≤◌, length};
ghost use Rattle.waterway.specs.Labels.{Clean, label_of};
ghost use Rattle.relaxing.specs.Offers.{Fallen, Agrees, Offered, Steady, Begun, Matched, Relaxed, Tried, then_sum};

use bundling::Host;
use measure::Cost;
use queue::{Queue, below};
use waterway::{Label, blank_labels};

// Whether a label fell.
#[derive(Clone, Copy)]
pub enum Fall {
    Not,
    First,
    Again,
}

// Lowers the label of a mark to a cost.
fn bring_down<C: Cost>(labels: &mut [Label<C>], mark: u16, cost: C) -> Fall
    requires { mark < length labels.old }
    ensures fallen { Fallen C.Cost.kind (label_of C.Cost.kind labels.old) (label_of C.Cost.kind labels.new) mark cost result }
    ensures clean { Clean C.Cost.kind labels.old → Clean C.Cost.kind labels.new }
{
    let at = usize::from(mark);
    let fall = match labels[at].told() {
        None => Fall::First,
        Some(low) if below(cost, low) => Fall::Again,
        Some(_) => return Fall::Not,
    };
    labels[at] = Label { known: true, cost };
    fall
}

// Offers a cost to a mark that the queue may hold.
pub fn offer<C: Cost, Q: Queue<C>>(labels: &mut [Label<C>], queue: &mut Q, mark: u16, cost: C)
    requires laid { Q.Queue.Laid queue.old }
    requires span { length labels.old ≤ (Q.Queue.held queue.old).span }
    requires agrees { Agrees (label_of C.Cost.kind labels.old) (Q.Queue.held queue.old).key }
    requires inside { mark < length labels.old }
    ensures laid { Q.Queue.Laid queue.new }
    ensures steady { Steady (Q.Queue.held queue.old) (Q.Queue.held queue.new) }
    ensures clean { Clean C.Cost.kind labels.old → Clean C.Cost.kind labels.new }
    ensures offered { Offered C.Cost.kind (label_of C.Cost.kind labels.old) (label_of C.Cost.kind labels.new) (Q.Queue.held queue.old).key (Q.Queue.held queue.new).key mark cost }
{
    match bring_down(labels, mark, cost) {
        Fall::Not => {}
        Fall::First => {
            let _ = queue.put(mark, cost);
        }
        Fall::Again => {
            let _ = queue.lower(mark, cost);
        }
    }
}

// Begins a search: home alone has a label, the cost zero, and waits to be drawn.
pub fn begin<C: Cost, Q: Queue<C>>(labels: &mut [Label<C>], queue: &mut Q, home: u16)
    requires span { length labels.old ≤ (Q.Queue.held queue.old).span }
    requires inside { home < length labels.old }
    ensures laid { Q.Queue.Laid queue.new }
    ensures begun { Begun C.Cost.kind home labels.new (Q.Queue.held queue.old) (Q.Queue.held queue.new) }
{
    queue.clear();
    blank_labels(labels);
    offer(labels, queue, home, C::zero());
}

// Offers a cost to a mark, and from there to its host.
// No method of `Bundles`: a relaxation reads the hosts alone, and asks for no measure.
pub fn relax<C: Cost, Q: Queue<C>>(
    hosts: &[Host<C>],
    labels: &mut [Label<C>],
    queue: &mut Q,
    mark: u16,
    cost: C,
)
    requires laid { Q.Queue.Laid queue.old }
    requires matched { Matched C.Cost.kind hosts.now labels.old (Q.Queue.held queue.old) }
    requires inside { mark < length labels.old }
    ensures laid { Q.Queue.Laid queue.new }
    ensures relaxed { Relaxed C.Cost.kind hosts.now labels.old (Q.Queue.held queue.old) labels.new (Q.Queue.held queue.new) mark cost }
{
    let host = hosts[usize::from(mark)];
    if host.is_of(mark) {
        offer(labels, queue, mark, cost);
        return;
    }
    if let Fall::Not = bring_down(labels, mark, cost) {
        return;
    }
    let Some(pivot) = host.pivot else {
        return;
    };
    let Some(onward) = cost.sum(pivot.cost) else {
        return;
    };
    offer(labels, queue, pivot.mark, onward);
}

// Offers a cost to a mark where there is one.
pub fn try_relax<C: Cost, Q: Queue<C>>(
    hosts: &[Host<C>],
    labels: &mut [Label<C>],
    queue: &mut Q,
    mark: u16,
    cost: Option<C>,
)
    requires laid { Q.Queue.Laid queue.old }
    requires matched { Matched C.Cost.kind hosts.now labels.old (Q.Queue.held queue.old) }
    requires inside { mark < length labels.old }
    ensures laid { Q.Queue.Laid queue.new }
    ensures tried { Tried C.Cost.kind hosts.now labels.old (Q.Queue.held queue.old) labels.new (Q.Queue.held queue.new) mark cost }
{
    if let Some(cost) = cost {
        relax(hosts, labels, queue, mark, cost);
    }
}

// The label of a mark.
pub fn label_at<C: Cost>(labels: &[Label<C>], mark: u16) -> Option<C>
    requires { mark < length labels.now }
    ensures { result ≡ label_of C.Cost.kind labels.now mark }
{
    labels[usize::from(mark)].told()
}

// The sum, where both are there and it is given.
pub fn add<C: Cost>(a: Option<C>, b: C) -> Option<C>
    ensures { result ≡ then_sum C.Cost.kind a b }
{
    a?.sum(b)
}
