// The search by bundles.

ghost use Rattle.std.specs.Prelude.{◌≡◌, ◌<◌, ◌≤◌, true, length, count_by};
ghost use Rattle.waterway.specs.Counts.{Counts};
ghost use Rattle.waterway.specs.Ways.{Dist};
ghost use Rattle.bundling.specs.Marks.{pivot_in};
ghost use Rattle.relaxing.specs.Bundles.{waters, Right};
ghost use Rattle.bundle.specs.Answers.{Labelled, Emptied};

use measure::{Cost, Measure};
use queue::Queue;
use relaxing::{Bundles, begin};
use waterway::Label;

// Gives each mark its distance from home for a label, and none where no way leads there; returns how many pivots were drawn.
pub fn search<M: Measure, Q: Queue<M::Cost>>(
    bundles: &Bundles<M>,
    labels: &mut [Label<M::Cost>],
    queue: &mut Q,
    home: u16,
) -> u16
    requires span { length labels.old ≤ (Q.Queue.held queue.old).span }
    requires right { Right M.Cost.Cost.kind M.Measure.priced bundles.now }
    requires long { length labels.old ≡ length bundles.now.hosts.now }
    requires inside { home < length labels.old }
    requires pivot { pivot_in M.Cost.Cost.kind bundles.now.hosts.now home ≡ true }
    ensures labels { Labelled (waters M.Cost.Cost.kind M.Measure.priced bundles.now) home labels.new }
    ensures queue { Emptied (Q.Queue.held queue.old) (Q.Queue.held queue.new) result }
    ensures draws { Counts (λ p. (pivot_in M.Cost.Cost.kind bundles.now.hosts.now p ≡ true) × ((c : _) × Dist (waters M.Cost.Cost.kind M.Measure.priced bundles.now) home p c)) (length labels.old) result }
{
    begin(labels, queue, home);
    while let Some((u, _)) = queue.draw() {
        bundles.step_one(labels, queue, u);
        bundles.step_two(labels, queue, u);
    }
    queue.draws()
}

// How many marks have a label.
pub fn count_known<C: Cost>(labels: &[Label<C>]) -> usize
    ensures { result ≡ count_by (λ l. l.known) labels.now }
{
    labels.iter().filter(|label| label.known).count()
}
