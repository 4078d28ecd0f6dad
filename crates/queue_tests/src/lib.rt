// Queues over fresh memory, and tests of both kinds of queue at both kinds of cost.
#![tactic(auto)]

ghost use Rattle.std.specs.Prelude.{min, IfOk};
ghost use Rattle.queue.specs.Held.{Alike, cleared, most};
ghost use Rattle.heap.specs.Heaps.{heap_held, HeapLaid};
ghost use Rattle.table.specs.Tables.{table_held, TableLaid};

use heap::{Heap, Place};
use measure::Cost;
use queue::Queue;
use std::alloc::{AllocError, Global};
use table::Table;

#[cfg(test)]
mod tests;

// A kind of queue that can be made over fresh memory.
pub trait Fresh<K: Cost>: Queue<K> {
    // A cleared queue of so many places, of which it uses the first 65,535.
    fn fresh(heap: Global, places: usize) -> Result<Self, AllocError>
        ensures laid { IfOk result Self.Laid }
        ensures after { IfOk result (λ queue. Alike (Self.held queue) (cleared (min places most))) };
}

impl<K: Cost> Fresh<K> for Heap<K> {
    fn fresh(heap: Global, places: usize) -> Result<Heap<K>, AllocError>
        ensures laid { IfOk result (HeapLaid K.Cost.kind.Below K.Cost.kind.zero) }
        ensures after { IfOk result (λ queue. Alike (heap_held K.Cost.kind.zero queue) (cleared (min places most))) }
    {
        Ok(Heap::over(vec![in heap; Place::blank(); places]?))
    }
}

impl<K: Cost> Fresh<K> for Table<K> {
    fn fresh(heap: Global, places: usize) -> Result<Table<K>, AllocError>
        ensures laid { IfOk result TableLaid }
        ensures after { IfOk result (λ queue. Alike (table_held queue) (cleared (min places most))) }
    {
        Ok(Table::over(vec![in heap; None; places]?))
    }
}
