// The order of keys, for those who write a queue.
ghost use Rattle.std.specs.Prelude.{MatchBool};

use measure::Cost;

// Whether a is below b.
pub fn below<K: Cost>(a: K, b: K) -> bool
    ensures { MatchBool result (K.Cost.kind.Below a b) (K.Cost.kind.Below a b → ⊥) }
{
    a.compare(b).is_lt()
}
