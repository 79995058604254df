//! What the runs of both protocols share: their stages, the slip that keeps a run from being let go, what a refused call gives
//! back and what a finished run hands out, and what the law says of every history of calls.
#![tactic(auto)]

pub mod finished;
pub mod refused;
pub mod slip;
pub mod stage;
