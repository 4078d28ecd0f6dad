// Queues that give out marks, the least key first.
#![tactic(auto)]

ghost use Rattle.std.specs.Prelude.{◌≡◌, ℕ, ◌≤◌, None};
ghost use Rattle.queue.specs.Held.{Held, Alike, cleared};
ghost use Rattle.queue.specs.Calls.{PutAnswer, LowerAnswer, DrawAnswer, after_setting, after_draw};

use measure::Cost;

pub mod order;
pub mod refusal;
pub mod span;

pub use order::below;
pub use refusal::Refusal;
pub use span::span_of;

// A queue spans no more marks, and counts no more draws.
pub const MOST: usize = 65_535;

// A queue holds marks below its span, each with one key.
pub trait Queue<K: Cost> {
    // What the queue means: contracts speak of a queue by this alone.
    ghost held: { Self → Held K };

    // Its places are laid out. Making and clearing see to it; putting, lowering and drawing rely on it and keep it.
    // It hangs on the kind of key, so it is a property and no invariant of the queue's type.
    ghost Laid: { Self → Type 0 };

    fn span(&self) -> u16
        ensures { result ≡ (held self.now).span };

    // How often a mark was drawn since the queue was cleared.
    fn draws(&self) -> u16
        ensures { result ≡ (held self.now).draws };

    // Lets every mark go and counts draws from 0, from whatever state.
    fn clear(&mut self)
        ensures laid { Laid self.new }
        ensures after { Alike (held self.new) (cleared (held self.old).span) };

    // Adds a mark with a key.
    fn put(&mut self, mark: u16, key: K) -> Result<(), Refusal>
        requires { Laid self.old }
        ensures laid { Laid self.new }
        ensures answer { PutAnswer (held self.old) mark result }
        ensures after { Alike (held self.new) (after_setting (held self.old) mark key result) };

    // Gives a mark that is held a lower key.
    fn lower(&mut self, mark: u16, key: K) -> Result<(), Refusal>
        requires { Laid self.old }
        ensures laid { Laid self.new }
        ensures answer { LowerAnswer K.Cost.kind.Below (held self.old) mark key result }
        ensures after { Alike (held self.new) (after_setting (held self.old) mark key result) };

    // Takes out a mark whose key is not above any other, if a mark is held. Which of several with equal keys comes is open.
    fn draw(&mut self) -> Option<(u16, K)>
        requires { Laid self.old }
        ensures laid { Laid self.new }
        ensures answer { DrawAnswer K.Cost.kind.Below (held self.old) result }
        ensures after { Alike (held self.new) (after_draw (held self.old) result) };

    // Only marks below the span are held.
    ghost within: { (q : Self) → Laid q → (m : ℕ) → (held q).span ≤ m → (held q).key m ≡ None };
}
