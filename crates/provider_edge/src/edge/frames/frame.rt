//! A customer's frame comes by a circuit.
ghost use Rattle.std.specs.Prelude.{◌≡◌, ◌==◌, Result, Ok, Some, OnOk};
ghost use Rattle.net_base.specs.plan.Places.{circuit_row};
ghost use Rattle.edge_model.specs.{State.{is_on}, Synced.{InSync}, declared.input.Input.TheVariants.{Frame}};
ghost use Rattle.edge_forwarding.specs.Forwarding.{own_service};
ghost use Rattle.provider_edge.specs.{AtWork.{IsBegun, Takes, TakesBy}, Lists.{seen}};

use crate::Edge;
use crate::ingress::Ingress;
use edge_forwarding::read_inner;
use net_base::{Arrival, CircuitId, Link, NoMemory, ServiceId};
use peer_dialogue::AtWork;

impl Edge {
    // A frame comes by a circuit of the edge that is on: it is read before anything changes.
    pub(crate) fn frame<L: Link>(
        &mut self,
        circuit: CircuitId,
        octets: &[u8],
        work: &mut AtWork<'_, L>,
    ) -> Result<(), NoMemory>
        requires begun { IsBegun self.old work.old }
        requires synced { InSync self.old.plan (seen self.old) }
        ensures goes { Takes L.calls self.old work.old self.new work.new }
        ensures step { OnOk result (TakesBy L.calls self.old work.old self.new work.new (Frame circuit octets.entry)) }
    {
        let Some(service) = self.own_service(circuit) else {
            work.effects.idle = true;
            return Ok(());
        };
        if !self.is_on(circuit) {
            work.effects.idle = true;
            return Ok(());
        }
        let read = read_inner(&self.plan, circuit, octets);
        let port = self.port_of(circuit, service);
        let ingress = Ingress {
            came: Arrival::Circuit(circuit),
            service,
            port,
        };
        self.bridge_frame(ingress, read, work)
    }

    // The service of a circuit of the edge.
    #[inline(always)]
    pub(crate) fn own_service(&self, circuit: CircuitId) -> Option<ServiceId>
        ensures { result ≡ own_service self.now.me (circuit_row self.now.plan circuit) }
    {
        match self.plan.circuits.get(circuit.0 as usize) {
            Some(row) if row.edge == self.me => Some(row.service),
            Some(_) | None => None,
        }
    }
}
