//! What a seat does by itself: the honest report of a lent list, in the protocol for two and in that for groups; and the run of a
//! pair that honest seats play to its end.
#![tactic(auto)]

pub mod group_seat;
pub mod honest_run;
pub mod laws;
pub mod list;
pub mod pair_seat;
