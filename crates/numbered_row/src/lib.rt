//! Values at the places of their numbers.
//!
//! A value is found, added and taken out at once where numbers rise one by one, or with small gaps.
#![tactic(auto)]

mod row;

pub use row::Row;
