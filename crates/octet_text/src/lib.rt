//! Texts as octets: cut at an octet, and read as pairs of hexadecimal digits.
#![tactic(auto)]

mod cut;
mod digits;

pub use cut::cut_at;
pub use digits::octets_of;
