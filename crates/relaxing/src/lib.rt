// How a cost is offered to a mark, and on from there: what each search is made of.
#![tactic(auto)]

mod bundles;
mod gathering;
mod offers;
mod spreading;
mod steps;

pub use bundles::Bundles;
pub use offers::{Fall, add, begin, label_at, offer, relax, try_relax};
