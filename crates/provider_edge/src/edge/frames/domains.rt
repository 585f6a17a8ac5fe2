//! What an edge forwards by: its circuits, and the bridge of each service.
ghost use Rattle.std.specs.Prelude.{◌≡◌, ◌<◌, true, Some, length, position, IfSome};
ghost use Rattle.net_base.specs.plan.Places.{circuit_row};
ghost use Rattle.hvpls_spokes.specs.Port.{is_circuit_port, ports_of};
ghost use Rattle.edge_model.specs.State.{addresses_of, is_on, later, with_addresses, with_circuit, with_ticks, without_port};
ghost use Rattle.edge_model.specs.Tick.{forgetting};
ghost use Rattle.edge_forwarding.specs.Forwarding.{open_ports, own_service};
ghost use Rattle.provider_edge.specs.Lists.{Keeps, seen};

use crate::Edge;
use hvpls_spokes::PortName;
use net_base::{CircuitId, ServiceId};

impl Edge {
    // Turns a circuit of a service at the edge, which unsettles no end.
    #[tactic(auto, using(crate::proofs::ForwardLemmas::keeps_forwarding))]
    pub(crate) fn set_circuit(&mut self, circuit: CircuitId, service: ServiceId, on: bool)
        requires working { self.old.stopped ≡ true }
        requires own { own_service self.old.me (circuit_row self.old.plan circuit) ≡ Some service }
        ensures keeps { Keeps self.old self.new }
        ensures step { seen self.new ≡ with_circuit circuit on (seen self.old) }
    {
        self.forwarding.turn(circuit, service, on);
    }

    // The bridge forgets what it learned at a circuit of a service at the edge, which unsettles no end.
    #[tactic(auto, using(crate::proofs::ForwardLemmas::keeps_forwarding))]
    pub(crate) fn forget_circuit(&mut self, circuit: CircuitId, service: ServiceId)
        requires working { self.old.stopped ≡ true }
        requires own { own_service self.old.me (circuit_row self.old.plan circuit) ≡ Some service }
        ensures keeps { Keeps self.old self.new }
        ensures step { seen self.new
            ≡ with_addresses service (without_port (position (is_circuit_port circuit) (ports_of self.old.plan service self.old.me)) (addresses_of (seen self.old) service)) (seen self.old) }
    {
        self.forwarding.forget_circuit(circuit, service);
    }

    // The port of a circuit of a service at the edge; it is open where the circuit is on.
    #[inline(always)]
    pub(crate) fn port_of(&self, circuit: CircuitId, service: ServiceId) -> Option<u16>
        requires { service.0 < length self.now.plan.services }
        ensures port { result ≡ position (is_circuit_port circuit) (ports_of self.now.plan service self.now.me) }
        ensures on { is_on (seen self.now) circuit ≡ true → IfSome result (λ p. open_ports self.now.forwarding service p ≡ true) }
    {
        self.forwarding.port_of(PortName::Circuit(circuit), service)
    }

    // One tick more.
    #[tactic(auto, using(crate::proofs::ForwardLemmas::keeps_forwarding))]
    pub(crate) fn count_tick(&mut self)
        requires working { self.old.stopped ≡ true }
        ensures keeps { Keeps self.old self.new }
        ensures step { seen self.new ≡ with_ticks (later (seen self.old).ticks) (seen self.old) }
    {
        self.forwarding.count_tick();
    }

    // Addresses age: each bridge forgets what it has not heard for as long as its age limit.
    #[tactic(auto, using(crate::proofs::ForwardLemmas::keeps_forwarding))]
    pub(crate) fn age(&mut self)
        requires working { self.old.stopped ≡ true }
        ensures keeps { Keeps self.old self.new }
        ensures step { seen self.new ≡ forgetting self.old.plan (seen self.old) }
    {
        self.forwarding.age();
    }
}
