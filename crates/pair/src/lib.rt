//! The protocol for two: two rows are compared entry by entry until one place of each is left. Its mathematics, its run with the
//! calls, and the opening, which promises the law of every history.
#![tactic(auto)]

pub mod bounds;
pub mod laws;
pub mod opening;
pub mod progress;
mod row;
pub mod run;
pub mod seat_state;
pub mod side;
#[cfg(test)]
mod tests;
pub mod window;
