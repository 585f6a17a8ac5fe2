//! What holds of a move to another spoke in every run of the network.
ghost use Rattle.move_laws.specs.Laws.{RunsHealMoves};

/// Whatever the paths of its wires: from a calm state in which each learned address points to the site of its
/// station and no packet of the service is under way, let the priority or the failure bits of one spoke be set at its spoke edge, and
/// then let only octets be delivered. In each calm state that follows, each learned address points to its site again, since the spoke
/// edge withdrew what had been learned (RFC 4762 section 6.2, RFC 6870).
pub fn runs_heal_moves()
    ensures { RunsHealMoves }
{}
