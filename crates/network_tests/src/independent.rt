//! An edge in independent mode, over links in memory.

mod pair;
mod rows;
