//! Requests: a rank and the sheets of both seats of a pair in one row of bytes, and what a run answers to them.
#![tactic(auto)]

pub mod answer;
pub mod outcome;
pub mod request;
