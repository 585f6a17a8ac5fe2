//! What tells the wires of a rehearsal apart.

use net_base::Class;

/// A wire but for its name: its ends by the numbers of their edges, from 1, and what is its own.
#[derive(Clone, Copy)]
pub struct RehearsedWire {
    pub class: Class,
    pub from: u16,
    pub to: u16,
    pub pw_id: u32,
    pub priority: u8,
}
