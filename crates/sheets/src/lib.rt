//! Sheets: sealed lists of elements as bytes, the reader that checks them, and what a sheet's list comes to in short.
#![tactic(auto)]

mod body;
mod header;
pub mod kind;
pub mod reader;
pub mod sheet_element;
pub mod sheet_summary;
mod sorted_list;
pub mod summary;
