//! The rank unit for programs in C: sheets and requests as bytes, ranks as numbers. Each exported function answers numbers, most
//! of them a struct by value; it keeps nothing between calls and allocates nothing. The caller owes this: a pointer is not null,
//! is aligned and points at as many elements as the number after it says, and what a call writes overlaps nothing else that it is
//! given.
#![tactic(auto)]

mod measure;
mod number;
mod outcome;
mod parts;
mod rank;
mod reading;
