//! Laws of ends. These functions do nothing when they run; their contracts are the laws.
ghost use Rattle.connection_laws.specs.Laws.{DeliveriesRaise, EndsAreLost, EndsComeByConnections};

/// An edge's end of a connection comes to stand by the event alone that connects the two edges.
#[tactic(auto, using(crate::proofs::NetworkLemmas::come_by_connections))]
pub fn ends_come_by_connections()
    ensures { EndsComeByConnections }
{}

/// An end that is lost does not stand.
#[tactic(auto, using(crate::proofs::NetworkLemmas::are_lost))]
pub fn ends_are_lost()
    ensures { EndsAreLost }
{}

/// An end that stands before and behind a delivery is in no earlier session state then.
#[tactic(auto, using(crate::proofs::RiseLemmas::deliveries_raise))]
pub fn deliveries_raise()
    ensures { DeliveriesRaise }
{}
