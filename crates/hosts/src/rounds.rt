// The search round one mark.

ghost use Rattle.std.specs.Prelude.{◌≡◌, ◌<◌, ◌≤◌, length, MatchBool};
ghost use Rattle.relaxing.specs.Bundles.{waters};
ghost use Rattle.hosts.specs.Local.{Around, Past};
ghost use Rattle.hosts.specs.Rounds.{Lone};

use measure::{Cost, Measure};
use queue::{Queue, below};
use relaxing::{Bundles, begin};
use waterway::Label;

// What a search round a mark reads: bundles in which each mark is its own host, and which marks are pivots.
#[derive(Drop)]
pub struct Round<'a, M: Measure> {
    pub bundles: Bundles<'a, M>,
    pub pivots: &'a [bool],
}

// Whether a key is above the best, where there is one.
fn is_past<C: Cost>(best: Option<C>, key: C) -> bool
    ensures { MatchBool result (Past C.Cost.kind best key) (Past C.Cost.kind best key → ⊥) }
{
    best.is_some_and(|best| below(best, key))
}

impl<M: Measure> Round<'_, M> {
    // Labels the marks round v until all that are no farther than the nearest pivot have their distances.
    pub fn look_round<Q: Queue<M::Cost>>(
        &self,
        labels: &mut [Label<M::Cost>],
        queue: &mut Q,
        v: u16,
    )
        requires span { length labels.old ≤ (Q.Queue.held queue.old).span }
        requires lone { Lone M.Cost.Cost.kind self.now }
        requires long { length labels.old ≡ length self.now.bundles.hosts.now }
        requires inside { v < length labels.old }
        ensures span { (Q.Queue.held queue.new).span ≡ (Q.Queue.held queue.old).span }
        ensures around { Around (waters M.Cost.Cost.kind M.Measure.priced self.now.bundles) (length self.now.bundles.hosts.now) self.now.pivots.now v labels.new }
    {
        begin(labels, queue, v);
        let mut best = None;
        while let Some((u, key)) = queue.draw() {
            if is_past(best, key) {
                break;
            }
            best = best.or(self.pivots[usize::from(u)].then_some(key));
            self.bundles.spread_out(labels, queue, u);
        }
    }
}
