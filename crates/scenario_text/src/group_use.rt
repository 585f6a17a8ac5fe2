//! The groups of wires' ends.

use net_base::Name;

/// The group of an end, which is not looked up yet.
#[derive(Clone, Copy)]
pub enum GroupUse {
    /// A Group ID; 0 where the end has no group.
    Number(u32),
    /// The group of this name.
    Named(Name),
}
