//! A MAC withdraw is heard: the bridge of the wire's service forgets, and the edge passes it on (RFC 4762 section 6.2).
ghost use Rattle.std.specs.Prelude.{◌≡◌, ◌<◌, Some, None, true, length, position, slice_get, OnOk};
ghost use Rattle.hvpls_spokes.specs.{Port.{is_wire_port, ports_of}, Role.{role_of}};
ghost use Rattle.hvpls_spokes.specs.declared.edge_role.Role.TheVariants as roles;
ghost use Rattle.mac_withdraw.specs.Passing.{is_wire_at};
ghost use Rattle.pw_ends.specs.Ends.{place_of};
ghost use Rattle.edge_model.specs.{Clear.{clears_by, hears_mac_withdraw, passes_on, tells_at, tells_by, withdrawing_at}, Ends.{wire_end}};
ghost use Rattle.provider_edge.specs.{Taking.{copied_by}, AtWork.{Works, WorksBy}, Lists.{Keeps, seen}};

use crate::Edge;
use hvpls_spokes::{Port, PortName, Role};
use mac_withdraw::pass_to;
use net_base::{EdgeId, Link, List, Mac, NoMemory, ServiceId, WireId};
use peer_dialogue::AtWork;
use pw_tlvs::PwFec;

impl Edge {
    // Address Withdraw with a FEC and a MAC list: the bridge of the service of the wire that the FEC names forgets, whatever the
    // state of its end, and the edge passes the addresses on. Without a known PW ID it changes nothing.
    pub(crate) fn hear_mac_withdraw<L: Link>(
        &mut self,
        peer: EdgeId,
        fec: &Option<PwFec>,
        macs: &Option<List<Mac>>,
        work: &mut AtWork<'_, L>,
    ) -> Result<(), NoMemory>
        requires working { self.old.stopped ≡ true }
        ensures goes { Works L.calls self.old work.old self.new work.new }
        ensures step { OnOk result (WorksBy L.calls self.old work.old self.new work.new (λ told. hears_mac_withdraw self.old.plan told peer fec.now macs.now)) }
    {
        let Some(fec) = fec else {
            return Ok(());
        };
        let Some(addresses) = macs else {
            return Ok(());
        };
        let Some(slot) = self.slot_of(peer, fec) else {
            return Ok(());
        };
        self.clear_by(slot, addresses, work)
    }

    // What came by the end of a slot is for its service, where the end is a terminal one: the bridge forgets, and the edge passes it
    // on. A switching point tells its other side.
    fn clear_by<L: Link>(
        &mut self,
        slot: usize,
        addresses: &List<Mac>,
        work: &mut AtWork<'_, L>,
    ) -> Result<(), NoMemory>
        requires working { self.old.stopped ≡ true }
        requires slot { slot < length self.old.ends.places }
        ensures goes { Works L.calls self.old work.old self.new work.new }
        ensures step { OnOk result (WorksBy L.calls self.old work.old self.new work.new (λ told. clears_by self.old.plan told addresses.now (Some (place_of self.old.ends slot)))) }
    {
        let place = self.place_at(slot);
        if !place.terminal {
            return match self.slot_beyond(slot) {
                Some(other) => self.tell_pieces(other, addresses.as_slice(), work),
                None => Ok(()),
            };
        }
        let service = self.service_at(slot);
        let Some(from) = self.wire_port(place.wire, service) else {
            return Ok(());
        };
        self.withdraw_at(service, from, addresses);
        self.pass_on(service, from, addresses.as_slice(), work)
    }

    // The port of a wire of a service.
    fn wire_port(&self, wire: WireId, service: ServiceId) -> Option<u16>
        requires { service.0 < length self.now.plan.services }
        ensures { result ≡ position (is_wire_port wire) (ports_of self.now.plan service self.now.me) }
    {
        self.forwarding.port_of(PortName::Wire(wire), service)
    }

    // The bridge of a service forgets what a MAC withdraw by a port names.
    #[tactic(auto, using(crate::proofs::ForwardLemmas::keeps_forwarding))]
    fn withdraw_at(&mut self, service: ServiceId, from: u16, addresses: &List<Mac>)
        requires working { self.old.stopped ≡ true }
        requires within { service.0 < length self.old.plan.services }
        ensures keeps { Keeps self.old self.new }
        ensures step { seen self.new ≡ withdrawing_at service addresses.now from (seen self.old) }
    {
        self.forwarding.withdraw(service, from, addresses);
    }

    // What came by a port goes on by each port to which the edge passes it, in port order. A spoke edge passes nothing on, so that it looks at
    // no port.
    fn pass_on<L: Link>(
        &mut self,
        service: ServiceId,
        from: u16,
        addresses: &[Mac],
        work: &mut AtWork<'_, L>,
    ) -> Result<(), NoMemory>
        requires working { self.old.stopped ≡ true }
        requires service { service.0 < length self.old.plan.services }
        requires wire { is_wire_at (ports_of self.old.plan service self.old.me) from ≡ true }
        ensures goes { Works L.calls self.old work.old self.new work.new }
        ensures step { OnOk result (WorksBy L.calls self.old work.old self.new work.new (λ told. passes_on self.old.plan told addresses.now service from (role_of self.old.plan service self.old.me))) }
    {
        let role = self.role_at(service, from);
        if is_spoke_edge(role) {
            return Ok(());
        }
        let Some(ports) = self.ports(service) else {
            return Ok(());
        };
        let passed = pass_to(ports, role, from);
        for port in 0..ports.len() {
            if passed.contains(port) {
                self.tell_at(service, port, addresses, work)?;
            }
        }
        Ok(())
    }

    // What the edge is to a service of which a wire ends at it, as its spokes by services tell (RFC 4762 section 10.1): no wire of the
    // plan is looked at.
    fn role_at(&self, service: ServiceId, port: u16) -> Role
        requires service { service.0 < length self.now.plan.services }
        requires wire { is_wire_at (ports_of self.now.plan service self.now.me) port ≡ true }
        ensures { role_of self.now.plan service self.now.me ≡ Some result }
    {
        if self.spokes.slots(service.0 as usize).is_empty() {
            Role::Core
        } else {
            Role::SpokeEdge
        }
    }

    // The port of a service with a number.
    fn port(&self, service: ServiceId, port: u16) -> Option<Port>
        requires { service.0 < length self.now.plan.services }
        ensures { result ≡ slice_get (ports_of self.now.plan service self.now.me) port }
    {
        match self.ports(service) {
            Some(ports) => ports.get(port),
            None => None,
        }
    }

    // The addresses go on by the port of a number, in pieces, where it leads to a wire that ends at the edge.
    fn tell_at<L: Link>(
        &mut self,
        service: ServiceId,
        port: u16,
        addresses: &[Mac],
        work: &mut AtWork<'_, L>,
    ) -> Result<(), NoMemory>
        requires working { self.old.stopped ≡ true }
        requires service { service.0 < length self.old.plan.services }
        ensures goes { Works L.calls self.old work.old self.new work.new }
        ensures step { OnOk result (WorksBy L.calls self.old work.old self.new work.new (λ told. copied_by (tells_at self.old.plan told addresses.now) (slice_get (ports_of self.old.plan service self.old.me) port))) }
    {
        match self.port(service, port) {
            Some(Port::Mesh(wire)) => self.tell_wire(wire, addresses, work),
            Some(Port::Spoke(wire)) => self.tell_wire(wire, addresses, work),
            Some(Port::Circuit(_)) | None => Ok(()),
        }
    }

    // The addresses go on by a wire, in pieces.
    fn tell_wire<L: Link>(
        &mut self,
        wire: WireId,
        addresses: &[Mac],
        work: &mut AtWork<'_, L>,
    ) -> Result<(), NoMemory>
        requires working { self.old.stopped ≡ true }
        ensures goes { Works L.calls self.old work.old self.new work.new }
        ensures step { OnOk result (WorksBy L.calls self.old work.old self.new work.new (λ told. tells_by told addresses.now (wire_end self.old.plan self.old.me wire))) }
    {
        match self.ends.terminal(wire) {
            Some(slot) => self.tell_pieces(slot, addresses, work),
            None => Ok(()),
        }
    }
}

// Whether it is a spoke edge's role.
fn is_spoke_edge(role: Role) -> bool
    ensures { result ≡ true → role ≡ roles.SpokeEdge }
{
    match role {
        Role::SpokeEdge => true,
        Role::Core => false,
    }
}
