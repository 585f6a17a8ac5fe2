//! The tag of a circuit (IEEE 802.1Q clause 9).

/// The Tag Protocol Identifier of a customer VLAN tag (IEEE 802.1Q clause 9.5).
pub const TAG_PROTOCOL: u16 = 0x8100;
