// The searches round single marks: the host and the ball of each.
#![tactic(auto)]

mod making;
mod nearest;
mod rounds;
mod rows;

pub use making::{TooFewRows, make_hosts, make_selves};
pub use rows::blank_rows;
