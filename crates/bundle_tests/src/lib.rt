// The search by bundles over fresh memory, with its conditions checked first, and its tests.
#![tactic(auto)]

ghost use Rattle.std.specs.Prelude.{◌≡◌, IfOk, vec_len};
ghost use Rattle.waterway.specs.Priced.{water};
ghost use Rattle.bundle_tests.specs.Trying.{Checked, Tried};

use bundle::{Totals, work_out};
use bundling::{Host, Near};
use measure::{Cost, Measure};
use plain::all_lie;
use queue::Queue;
use refusal::Refusal;
use std::alloc::{AllocError, Global};
use waterway::{Label, Leg};

pub mod refusal;
#[cfg(test)]
mod tests;

// Records for the hosts of so many marks.
fn blank_hosts<C: Cost>(heap: Global, marks: usize) -> Result<Vec<Host<C>>, AllocError>
    ensures { IfOk result (λ v. vec_len v ≡ marks) }
{
    let blank = Host {
        pivot: None,
        start: 0,
        end: 0,
    };
    Ok(vec![in heap; blank; marks]?)
}

// Whether legs, pivots and home make a chart, with a label for each mark and a queue that spans them.
fn check(legs: &[Leg], pivots: &[bool], labels: usize, span: u16, home: u16) -> Result<(), Refusal>
    ensures { Checked legs.now pivots.now labels span home result }
{
    let marks = pivots.len();
    if marks > 256 {
        return Err(Refusal::TooManyMarks);
    }
    if labels < marks {
        return Err(Refusal::TooFewLabels);
    }
    if usize::from(span) < marks {
        return Err(Refusal::ShortQueue);
    }
    let is_pivot = *pivots.get(usize::from(home)).ok_or(Refusal::HomeOffChart)?;
    if !is_pivot {
        return Err(Refusal::HomeNoPivot);
    }
    if !all_lie(legs, marks) {
        return Err(Refusal::LegOffChart);
    }
    Ok(())
}

// Works out the hosts, the near table and the labels.
pub fn try_work_out<M: Measure, Q: Queue<M::Cost>>(
    heap: Global,
    m: &M,
    legs: &[Leg],
    pivots: &[bool],
    near: &mut [Near<M::Cost>],
    labels: &mut [Label<M::Cost>],
    queue: &mut Q,
    home: u16,
) -> Result<Totals, Refusal>
    ensures { Tried (water M.Cost.Cost.kind (M.Measure.priced m.now) legs.now) pivots.now home near.old near.new labels.old labels.new (Q.Queue.held queue.old) (Q.Queue.held queue.new) result }
{
    check(legs, pivots, labels.len(), queue.span(), home)?;
    let mut selves = blank_hosts(heap, pivots.len())?;
    let mut hosts = blank_hosts(heap, pivots.len())?;
    Ok(work_out(
        m,
        legs,
        pivots,
        &mut selves,
        &mut hosts,
        near,
        labels,
        queue,
        home,
    )?)
}
