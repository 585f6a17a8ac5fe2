//! What holds of packets.
ghost use Rattle.eth_encap.specs.Packet.{PackedIsUnpacked};

/// What is packed is unpacked (RFC 4448 section 4): an entry of a label stack is read as it was written, whatever follows it, and
/// behind it stands the inner frame that was packed, with control word or without, in raw mode and in tagged mode.
#[tactic(auto, using(crate::proofs::PacketLemmas::packed_is_unpacked))]
pub fn packed_is_unpacked()
    ensures { PackedIsUnpacked }
{}
