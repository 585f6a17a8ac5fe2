//! What holds of the ports of every edge.
ghost use Rattle.mac_withdraw.specs.Laws.{PassesByHorizon};

/// A core edge passes on what came by a spoke by each mesh wire and by each other spoke, and what came by a mesh wire by each
/// spoke; nothing goes by a circuit, back, or from mesh wire to mesh wire, and a spoke edge passes nothing on (RFC 4762 sections
/// 4.4 and 6.2).
pub fn passes_by_horizon()
    ensures { PassesByHorizon }
{}
