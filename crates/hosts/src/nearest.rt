// The nearest pivot, by labels.

ghost use Rattle.std.specs.Prelude.{◌≡◌, ◌≤◌, length, MatchBool};
ghost use Rattle.hosts.specs.Local.{Beats, Closer, NearestOf};

use bundling::Near;
use measure::Cost;
use queue::below;
use waterway::Label;

// Whether a cost is below that of the best, or there is none.
// Not the like of it in `table`: that compares drawn pairs, and a near record is none.
fn beats<C: Cost>(best: Option<Near<C>>, cost: C) -> bool
    ensures { MatchBool result (Beats C.Cost.kind best cost) (Beats C.Cost.kind best cost → ⊥) }
{
    best.is_none_or(|low| below(cost, low.cost))
}

// The nearest pivot so far, after one more mark.
fn closer<C: Cost>(
    best: Option<Near<C>>,
    pivot: bool,
    label: Option<C>,
    mark: u16,
) -> Option<Near<C>>
    ensures { Closer C.Cost.kind best pivot label mark result }
{
    match label {
        Some(cost) if pivot && beats(best, cost) => Some(Near { mark, cost }),
        _ => best,
    }
}

// The pivot with the least label, of equals the one with the smallest number.
pub fn nearest_pivot<C: Cost>(pivots: &[bool], labels: &[Label<C>]) -> Option<Near<C>>
    requires few { length labels.now ≤ 256 }
    requires long { length pivots.now ≡ length labels.now }
    ensures { NearestOf C.Cost.kind pivots.now labels.now (length labels.now) result }
{
    let mut best = None;
    for ((mark, pivot), label) in (0u16..).zip(pivots).zip(labels) {
        best = closer(best, *pivot, label.told(), mark);
    }
    best
}
