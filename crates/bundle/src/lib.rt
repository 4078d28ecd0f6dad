// The search by bundles, and what it works out.
#![tactic(auto)]

mod searching;
mod working;

pub use hosts::TooFewRows;
pub use searching::{count_known, search};
pub use working::{Totals, work_out};
