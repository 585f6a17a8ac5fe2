//! What holds after every script.
ghost use Rattle.switchover_model.specs.Laws.{DeliveriesGoOn, SwitchHeardInParts, ScriptsAgree};

/// Of each wire between two edges of a checked plan, after the lines of any script: both edges are connected or none is. While they are,
/// what an edge is still to hear of the other one, held or on its way, are status Notifications of the wires between them; once it has
/// heard them, it knows what the other end calls the wire. Of an end that asks, a status with 0x40 is still to be heard by the other one,
/// or one without 0x20 by itself. Where nothing is held or on its way, both use the wire exactly where both call it active, and none asks
/// any more. An edge uses a wire only where it calls it active.
pub fn scripts_agree()
    ensures { ScriptsAgree }
{}

/// Octets are heard alike in one piece and in two, whatever a link answers.
pub fn heard_in_parts()
    ensures { SwitchHeardInParts }
{}

/// No octets of the network are refused, whatever lines have come before.
#[tactic(auto, using(crate::proofs::RunLemmas::deliveries_go_on))]
pub fn deliveries_go_on()
    ensures { DeliveriesGoOn }
{}
