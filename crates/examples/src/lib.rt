//! Examples: what the definitions give, worked out by hand; traces that the law forbids; a fault carried through the layers.
#![tactic(auto)]

pub mod fault_conversion;
pub mod forbidden;
pub mod own_type;
#[cfg(test)]
mod tests;
pub mod worked;
