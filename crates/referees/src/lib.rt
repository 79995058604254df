//! Referees: whoever compares two entries or weighs a group's counts, answers with the outcome, and uses one question of a stock.
//! The kinds of them, the layers over any of them, and sequences of questions to one.
#![tactic(auto)]

mod masks;
pub mod operand;
pub mod pile;
pub mod plain;
pub mod play;
pub mod query;
pub mod question;
pub mod quota;
pub mod referee;
pub mod shares;
pub mod spare;
pub mod strip;
pub mod sums;
pub mod verdict;
