//! The elements of lists: ordered and placed types, two of them, entries, which are elements between two marks, and the element
//! of a rank.
#![tactic(auto)]

pub mod delay;
pub mod entry;
pub mod laws;
pub mod limits;
pub mod link_level;
pub mod list;
pub mod ordered;
pub mod place_number;
pub mod placed;
pub mod rank;
#[cfg(test)]
mod tests;
