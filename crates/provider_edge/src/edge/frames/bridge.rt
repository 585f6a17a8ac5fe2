//! An inner frame is bridged: copies of it leave at circuits and are sent on wires (RFC 4762 sections 4.1, 4.4 and 7.1).
ghost use Rattle.std.specs.Prelude.{◌≡◌, ◌≤◌, ◌<◌, ◌+◌, ◌++◌, [], ℕ, List, Result, None, Ok, Err, true, length, slice_get, if◌then◌else◌, IfOk, IfSome, OnOk, MatchResult};
ghost use Rattle.net_base.specs.declared.trace.drop_cause.DropCause.{DropCause as Cause};
ghost use Rattle.pw_messages.specs.LinkAnswers.{Agrees, Answers};
ghost use Rattle.eth_encap.specs.Fault.{cause_of};
ghost use Rattle.hvpls_spokes.specs.{Port.{ports_of}, PortSet.{holds_port}};
ghost use Rattle.edge_model.specs.{declared.effect.Effect.TheVariants.{Left}, Ends.{wire_end}};
ghost use Rattle.edge_model.specs.{Frame.{copies, copy_by, forwarded, hearing, received, targets_of}, Send.{sends, sends_copy}};
ghost use Rattle.edge_model.specs.Synced.{InSync};
ghost use Rattle.pw_ends.specs.Ends.{end_in, place_of};
ghost use Rattle.edge_forwarding.specs.Forwarding.{open_ports};
ghost use Rattle.provider_edge.specs.{Taking.{copied_by}, AtWork.{Works, at_work}, Lists.{Keeps, seen}};
ghost use Rattle.peer_dialogue.specs.AtWork.{WorkGoes};

use crate::Edge;
use crate::egress::Egress;
use crate::ingress::Ingress;
use crate::quiet::drop_for;
use edge_forwarding::{dressed, join, packet_of};
use edge_model::Effect;
use eth_encap::FrameFault;
use hvpls_spokes::{Port, PortSet, Ports};
use net_base::{Arrival, DropCause, Link, LinkStop, NoMemory, Octets, ServiceId, WireId};
use peer_dialogue::AtWork;

impl Edge {
    // What came by a port of a service, and was read as parts that join to its inner frame: what has a fault is dropped, and teaches
    // nothing. An inner frame of one part is not copied.
    #[inline(always)]
    pub(crate) fn bridge_frame<L: Link>(
        &mut self,
        ingress: Ingress,
        read: Result<(&[u8], &[u8]), FrameFault>,
        work: &mut AtWork<'_, L>,
    ) -> Result<(), NoMemory>
        requires working { self.old.stopped ≡ true }
        requires service { ingress.service.0 < length self.old.plan.services }
        requires synced { InSync self.old.plan (seen self.old) }
        requires on { IfSome ingress.port (λ p. open_ports self.old.forwarding ingress.service p ≡ true) }
        requires header { IfOk read (λ parts. 14 ≤ length parts.0.now + length parts.1.now) }
        ensures goes { Works L.calls self.old work.old self.new work.new }
        ensures step { OnOk result ((told : Answers) (formed : Result (List ℕ) Cause) → Agrees told (L.calls work.new.link.now)
            → MatchResult read.entry (λ parts. formed ≡ Ok (parts.0.now ++ parts.1.now)) (λ fault. formed ≡ Err (cause_of fault))
            → at_work L.calls self.new work.new ≡ received self.old.plan told ingress.came ingress.service ingress.port formed (at_work L.calls self.old work.old)) }
    {
        let (front, back) = match read {
            Ok(parts) => parts,
            Err(fault) => return drop_for(fault.cause(), &mut work.effects.list),
        };
        if back.is_empty() {
            return self.bridge_octets(ingress, front, work);
        }
        let frame = join(work.alloc, front, back)?;
        self.bridge_octets(ingress, frame.as_slice(), work)
    }

    // An inner frame came by a port of a service: it is heard by the bridge of the service, and then its copies go out by those ports
    // that are targets, in port order.
    fn bridge_octets<L: Link>(
        &mut self,
        ingress: Ingress,
        frame: &[u8],
        work: &mut AtWork<'_, L>,
    ) -> Result<(), NoMemory>
        requires working { self.old.stopped ≡ true }
        requires service { ingress.service.0 < length self.old.plan.services }
        requires synced { InSync self.old.plan (seen self.old) }
        requires on { IfSome ingress.port (λ p. open_ports self.old.forwarding ingress.service p ≡ true) }
        requires header { 14 ≤ length frame.now }
        ensures goes { Works L.calls self.old work.old self.new work.new }
        ensures step { OnOk result ((told : Answers) → Agrees told (L.calls work.new.link.now)
            → at_work L.calls self.new work.new ≡ forwarded self.old.plan told ingress.came ingress.service frame.now ingress.port (at_work L.calls self.old work.old)) }
    {
        let Some(arrival) = ingress.port else {
            return Ok(());
        };
        let targets = self.hear_frame(arrival, ingress.service, frame);
        let edge = &*self;
        let Some(ports) = edge.ports(ingress.service) else {
            return Ok(());
        };
        let egress = Egress {
            came: ingress.came,
            targets: &targets,
            frame,
        };
        for port in 0..ports.len() {
            edge.put_copy(ports, port, &egress, work)?;
        }
        Ok(())
    }

    // The bridge of a service hears an inner frame by a port that forwards, and decides on the targets. What always holds of an edge is
    // proved again where this ends.
    #[inline(always)]
    fn hear_frame(&mut self, arrival: u16, service: ServiceId, frame: &[u8]) -> PortSet
        requires working { self.old.stopped ≡ true }
        requires service { service.0 < length self.old.plan.services }
        requires synced { InSync self.old.plan (seen self.old) }
        requires on { open_ports self.old.forwarding service arrival ≡ true }
        requires header { 14 ≤ length frame.now }
        ensures keeps { Keeps self.old self.new }
        ensures step { seen self.new ≡ hearing service frame.now arrival (seen self.old) }
        ensures targets { holds_port result ≡ targets_of self.old.plan (seen self.new) service (ports_of self.old.plan service self.old.me) frame.now arrival }
    {
        self.forwarding.hear(arrival, service, frame)
    }

    // The ports of a service; `None` exactly where it has none at the edge. A function of its own, since it says so of the edge's plan.
    #[inline(always)]
    pub(crate) fn ports(&self, service: ServiceId) -> Option<&Ports>
        requires { service.0 < length self.now.plan.services }
        ensures some { IfSome result (λ ports. ports.now ≡ ports_of self.now.plan service self.now.me) }
        ensures none { result ≡ None → ports_of self.now.plan service self.now.me ≡ [] }
    {
        self.forwarding.ports(service)
    }

    // The copy by the port of a number, where that is a target: at a circuit the frame with the circuit's tag, and on a wire a
    // packet.
    #[inline(always)]
    fn put_copy<L: Link>(
        &self,
        ports: &Ports,
        port: u16,
        egress: &Egress<'_>,
        work: &mut AtWork<'_, L>,
    ) -> Result<(), NoMemory>
        requires port { port < 512 }
        requires header { 14 ≤ length egress.now.frame.now }
        ensures goes { WorkGoes L.calls work.old work.new }
        ensures step { OnOk result ((told : Answers) → Agrees told (L.calls work.new.link.now)
            → at_work L.calls self.now work.new
            ≡ (if holds_port egress.now.targets.now port then copied_by (copy_by self.now.plan told egress.now.came egress.now.frame.now) (slice_get ports.now port) (at_work L.calls self.now work.old) else at_work L.calls self.now work.old)) }
    {
        if !egress.targets.contains(port) {
            return Ok(());
        }
        let Some(port) = ports.get(port) else {
            return Ok(());
        };
        let circuit = match port {
            Port::Circuit(circuit) => circuit,
            Port::Mesh(wire) => return self.send_copy(egress.came, wire, egress.frame, work),
            Port::Spoke(wire) => return self.send_copy(egress.came, wire, egress.frame, work),
        };
        let tag = match self.plan.circuits.get(circuit.0 as usize) {
            Some(row) => row.tag,
            None => None,
        };
        let bytes = dressed(work.alloc, tag, egress.frame)?;
        work.effects.list.push(Effect::Left { circuit, bytes })
    }

    // A copy is sent on a wire of which the edge is a terminal edge, under the label that the peer advertises; nothing is where the end
    // holds none.
    fn send_copy<L: Link>(
        &self,
        came: Arrival,
        wire: WireId,
        frame: &[u8],
        work: &mut AtWork<'_, L>,
    ) -> Result<(), NoMemory>
        requires header { 14 ≤ length frame.now }
        ensures goes { WorkGoes L.calls work.old work.new }
        ensures step { OnOk result ((told : Answers) → Agrees told (L.calls work.new.link.now)
            → at_work L.calls self.now work.new
            ≡ sends_copy self.now.plan told came frame.now (wire_end self.now.plan self.now.me wire) (at_work L.calls self.now work.old)) }
    {
        let Some(slot) = self.ends.terminal(wire) else {
            return Ok(());
        };
        let place = self.place_at(slot);
        let Some(row) = self.plan.wires.get(place.wire.0 as usize) else {
            return Ok(());
        };
        let Some(binding) = self.end_in(slot).remote() else {
            return Ok(());
        };
        let packet = packet_of(work.alloc, &row.offer_of(self.me), binding, frame)?;
        self.send(slot, came, packet, work)
    }

    // A packet is sent by the end of a slot: what the link does not take is dropped.
    #[tactic(auto, using(peer_dialogue::proofs::SpeakerLemmas::goes_by))]
    pub(crate) fn send<L: Link>(
        &self,
        slot: usize,
        came: Arrival,
        packet: Octets,
        work: &mut AtWork<'_, L>,
    ) -> Result<(), NoMemory>
        requires { slot < length self.now.ends.places }
        ensures goes { WorkGoes L.calls work.old work.new }
        ensures step { OnOk result ((told : Answers) → Agrees told (L.calls work.new.link.now)
            → at_work L.calls self.now work.new ≡ sends told (place_of self.now.ends slot) came packet (at_work L.calls self.now work.old)) }
    {
        let place = self.place_at(slot);
        match work.link.send(place.peer, packet.as_slice()) {
            Ok(()) => work.effects.list.push(Effect::Sent {
                peer: place.peer,
                wire: place.wire,
                arrival: came,
                bytes: packet,
            }),
            Err(LinkStop::Failed) => drop_for(DropCause::LinkFault, &mut work.effects.list),
            Err(LinkStop::NoMemory) => Err(NoMemory),
        }
    }
}
