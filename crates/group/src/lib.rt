//! The protocol for groups: a range of places is narrowed, round by round, to the one that has the rank. Its mathematics, its run
//! with the calls, and the opening, which promises the law of every history.
#![tactic(auto)]

pub mod count_bounds;
pub mod counts;
pub mod group_seats;
pub mod laws;
pub mod opening;
pub mod progress;
pub mod range;
pub mod run;
pub mod seat_state;
mod seat_table;
#[cfg(test)]
mod tests;
mod totals;
