//! Why a call refuses: the refusals with their numbers, and the faults that carry them from layer to layer.
#![tactic(auto)]

pub mod fault;
pub mod fault_info;
pub mod refusal;
pub mod seat;
