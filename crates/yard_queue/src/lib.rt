// A yard's own queue: any queue, watched to see how often the search changed it.
#![tactic(auto)]

ghost use Rattle.std.proofs.Common.{rules};

use measure::Cost;
use queue::{Queue, Refusal};

// It means what the queue in it means; the count of changes is the yard's own.
#[derive(Drop)]
pub struct Watched<Q> {
    pub queue: Q,
    pub changes: u64,
}

impl<K: Cost, Q: Queue<K>> Queue<K> for Watched<Q> {
    ghost held = { λ w. Q.Queue.held w.queue };

    ghost Laid = { λ w. Q.Queue.Laid w.queue };

    ghost within = { Prim.search rules };

    fn span(&self) -> u16 {
        self.queue.span()
    }

    fn draws(&self) -> u16 {
        self.queue.draws()
    }

    fn clear(&mut self) {
        self.changes = 0;
        self.queue.clear();
    }

    fn put(&mut self, mark: u16, key: K) -> Result<(), Refusal> {
        self.changes = self.changes.saturating_add(1);
        self.queue.put(mark, key)
    }

    fn lower(&mut self, mark: u16, key: K) -> Result<(), Refusal> {
        self.changes = self.changes.saturating_add(1);
        self.queue.lower(mark, key)
    }

    fn draw(&mut self) -> Option<(u16, K)> {
        self.queue.draw()
    }
}
