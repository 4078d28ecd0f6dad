// A charted waterway: its marks and legs, home and pivots, under one measure.
#![tactic(auto)]

mod bounded;
pub mod entries;
pub mod refusal;
pub mod sheet;
pub mod views;

pub use refusal::Refusal;
pub use sheet::Chart;
