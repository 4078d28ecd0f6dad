// A list that takes room for all that it may hold when it is begun.
ghost use Rattle.std.specs.Prelude.{◌≡◌, ◌<◌, ◌≤◌, ◌↔◌, [], ◌∷◌, ◌++◌, IfOk, IsTrue, vec_len, vec_capacity};

use std::alloc::{AllocError, Global};

// At most MOST items, and room for so many: only `begin` asks for memory.
#[derive(Drop)]
pub(crate) struct Bounded<T, const MOST: usize> {
    pub(crate) items: Vec<T>,
    ghost room: { MOST ≤ vec_capacity items },
    ghost few: { vec_len items ≤ MOST },
}

impl<T, const MOST: usize> Bounded<T, MOST> {
    pub(crate) fn begin(heap: Global) -> Result<Bounded<T, MOST>, AllocError>
        ensures { IfOk result (λ list. list.items.items ≡ []) }
    {
        Ok(Bounded {
            items: Vec::with_capacity(heap, MOST)?,
        })
    }

    pub(crate) fn is_full(&self) -> bool
        ensures { IsTrue result ↔ (MOST ≤ vec_len self.now.items) }
    {
        self.items.len() >= MOST
    }

    pub(crate) fn push(&mut self, item: T)
        requires { vec_len self.old.items < MOST }
        ensures { self.new.items.items ≡ self.old.items.items ++ item ∷ [] }
    {
        self.items.push_reserved(item);
    }
}
