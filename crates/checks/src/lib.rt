// Refusals: how a call's checks, in their order, decide its answer. Definitions alone, for the contracts of the crates above.
#![tactic(auto)]
