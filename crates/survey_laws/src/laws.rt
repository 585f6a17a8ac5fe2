//! What holds of faults in every run of the network.
ghost use Rattle.survey_laws.specs.Laws.{ChangesAreTold, CircuitAlone, FaultsAreExact, FloodsAsSurveyed, RestsAsSurveyed, SameFaults};

/// Events that take something, a connection, a wire, an edge, the number of a spoke or a circuit, leave of the network exactly what their
/// faults leave: in whatever state they come, be they applied or idle, in whatever order, and with whatever deliveries, frames, packets
/// and pings between them.
#[tactic(auto, using(crate::proofs::FaultLemmas::faults_are_exact))]
pub fn faults_are_exact()
    ensures { FaultsAreExact }
{}

/// Once nothing is on its way behind such events, and no end of the service is idle for want of a label, whom a flooded frame reaches is
/// decided by the state before them and by their faults.
#[tactic(auto, using(crate::proofs::RestLemmas::rests_as_surveyed))]
pub fn rests_as_surveyed()
    ensures { RestsAsSurveyed }
{}

/// A well-formed flooded frame that enters then, and of which no copy is lost or repeated, leaves exactly once at each circuit that is so
/// decided, and at no other one, within twelve segments (RFC 4762 sections 4.4 and 10).
pub fn floods_as_surveyed()
    ensures { FloodsAsSurveyed }
{}

/// Faults that take the same wires and circuits, and set the same numbers, decide the same: in whatever order, however often, and by
/// whatever events they came.
#[tactic(auto, using(crate::proofs::SameLemmas::same_faults))]
pub fn same_faults()
    ensures { SameFaults }
{}

/// A circuit that goes off takes itself alone: whom all others reach stays as it was.
#[tactic(auto, using(crate::proofs::SameLemmas::circuit_alone))]
pub fn circuit_alone()
    ensures { CircuitAlone }
{}

/// What a case of several faults changes, a case of some of them is the first to change: where two sites lose or find each other by all of
/// the faults, they do so by some of them, and by no fewer of those.
pub fn changes_are_told()
    ensures { ChangesAreTold }
{}
