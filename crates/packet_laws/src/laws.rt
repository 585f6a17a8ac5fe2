//! What holds of packets and frames in every run of the network.
ghost use Rattle.packet_laws.specs.Laws.{RunsAreIsolated, RunsKeepEchoesApart, RunsKeepPacketRule, RunsShareChannels};

/// Each packet under way, whatever was restarted, withdrawn or repeated since it was sent, carries the inner frame of a frame
/// that entered in the service of its wire with its origin, as RFC 4448 section 4 packs it; or it belongs to no frame and is a ping
/// of its wire or the answer to one, in the control channel that the terminal edge picks from which it comes, with the TTL that is
/// left at its place of the way (RFC 5085 section 5, RFC 6073 section 7.4). And its label was given before by the edge to which it goes,
/// and is not free to be given again: whoever owns it there is the end of that wire; where it waits, it waits for the edge that sent
/// the packet; and where it rests, it has rested for no longer than the packet is old.
#[tactic(auto, using(crate::proofs::RunLemmas::runs_keep_packet_rule))]
pub fn runs_keep_packet_rule()
    ensures { RunsKeepPacketRule }
{}

/// Customers stay apart: whatever leaves at a circuit entered before at a circuit of the same service, as the same inner frame,
/// however it came there.
#[tactic(auto, using(crate::proofs::RunLemmas::runs_are_isolated))]
pub fn runs_are_isolated()
    ensures { RunsAreIsolated }
{}

/// An echo packet is never unpacked as a frame (RFC 5085 section 3): no bridge hears it and no circuit lets it out, at whatever edge
/// it arrives and whatever was restarted, withdrawn or told since it was sent. What comes of it stays on its wire.
#[tactic(auto, using(crate::proofs::RunLemmas::runs_keep_echoes_apart))]
pub fn runs_keep_echoes_apart()
    ensures { RunsKeepEchoesApart }
{}

/// The two ends of a wire that are bound pick the same type of control channel where both use a control word or neither does
/// (RFC 5085 section 7), and an end whose C bit differs from that of the other one does not forward (RFC 8077 section 7).
#[tactic(auto, using(crate::proofs::SharedLemmas::runs_share_channels))]
pub fn runs_share_channels()
    ensures { RunsShareChannels }
{}
