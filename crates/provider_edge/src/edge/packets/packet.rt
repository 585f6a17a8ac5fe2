//! A packet comes from a neighbour (RFC 3032 section 2.1, RFC 4448 section 4, RFC 5085 section 5): the first step that applies
//! decides.
ghost use Rattle.std.specs.Prelude.{◌≡◌, ◌==◌, ◌&&◌, ◌≤◌, ◌<◌, ◌+◌, ◌++◌, Some, Ok, Err, true, length, option_map, position, is_some, IfOk, IfSome, OnOk, MatchResult};
ghost use Rattle.net_base.specs.{declared.plan.wire_plan.WirePlan.{WirePlan}, plan.Paths.{offer_of}, plan.Places.{mtu_of, wire_row}};
ghost use Rattle.pw_messages.specs.LinkAnswers.{Agrees, Answers};
ghost use Rattle.eth_encap.specs.{Fault.{cause_of}, Packet.{entry_of}};
ghost use Rattle.hvpls_spokes.specs.Port.{is_wire_port, ports_of};
ghost use Rattle.vccv_channel.specs.declared.cc.Cc.TheVariants.{Expiry};
ghost use Rattle.edge_model.specs.{Echo.{is_picked}, Ends.{is_up}};
ghost use Rattle.edge_model.specs.Packet.{advertiser, alerted, by_control_word, enters, is_alert, is_channel, labelled, packet_input, terminated, unpacked_at};
ghost use Rattle.edge_model.specs.{Role.{down_at}, Synced.{InSync}};
ghost use Rattle.pw_ends.specs.Ends.{end_in, place_of};
ghost use Rattle.edge_forwarding.specs.Forwarding.{open_ports};
ghost use Rattle.peer_dialogue.specs.AtWork.{WorkGoes};
ghost use Rattle.pw_signalling.specs.declared.binding.Binding.{Binding as Bound};
ghost use Rattle.provider_edge.specs.{AtWork.{Works, WorksBy, at_work}, Lists.{seen}, Taking.{IsTerminalAt}};

use crate::Edge;
use crate::edge::packets::verify::is_picked;
use crate::ingress::Ingress;
use crate::quiet::drop_for;
use edge_forwarding::{read_payload, without_entry};
use eth_encap::{FrameFault, StackEntry, read_entry};
use hvpls_spokes::PortName;
use net_base::{Arrival, DropCause, Link, NoMemory, Offer, ServiceId};
use peer_dialogue::AtWork;
use vccv_channel::Cc;

// The label of a router alert (RFC 3032 section 2.1).
const ROUTER_ALERT: u32 = 1;

// The first label that is not reserved (RFC 3032 section 2.1).
const LEAST_LABEL: u32 = 16;

// The first nibble of an associated channel header (RFC 4385 section 5).
const CHANNEL: u8 = 1;

impl Edge {
    // A packet comes: its first entry is read.
    pub(crate) fn packet<L: Link>(
        &mut self,
        octets: &[u8],
        work: &mut AtWork<'_, L>,
    ) -> Result<(), NoMemory>
        requires working { self.old.stopped ≡ true }
        requires synced { InSync self.old.plan (seen self.old) }
        ensures goes { Works L.calls self.old work.old self.new work.new }
        ensures step { OnOk result (WorksBy L.calls self.old work.old self.new work.new (λ told. packet_input self.old.plan told octets.now)) }
    {
        let entry = match read_entry(octets) {
            Ok(entry) => entry,
            Err(fault) => return drop_for(fault.cause(), &mut work.effects.list),
        };
        if is_alert(&entry) {
            return self.alerted(without_entry(octets), work);
        }
        self.labelled(octets, &entry, work)
    }

    // 1. Behind a router alert a second entry is read. There a terminal end takes connectivity verification.
    fn alerted<L: Link>(&self, octets: &[u8], work: &mut AtWork<'_, L>) -> Result<(), NoMemory>
        ensures goes { WorkGoes L.calls work.old work.new }
        ensures step { OnOk result (WorksBy L.calls self.now work.old self.now work.new (λ told. alerted self.now.plan told octets.now (entry_of octets.now))) }
    {
        let entry = match read_entry(octets) {
            Ok(entry) => entry,
            Err(fault) => return drop_for(fault.cause(), &mut work.effects.list),
        };
        if !entry.bottom {
            return drop_for(DropCause::NotBottom, &mut work.effects.list);
        }
        let Some(slot) = self.advertiser(entry.label) else {
            return drop_for(DropCause::NoLabel, &mut work.effects.list);
        };
        if !self.place_at(slot).terminal {
            return drop_for(DropCause::NoLabel, &mut work.effects.list);
        }
        self.verify_in(slot, Cc::Alert, without_entry(octets), work)
    }

    // The end that advertises a label.
    fn advertiser(&self, label: u32) -> Option<usize>
        ensures named { option_map (place_of self.now.ends) result ≡ advertiser self.now.plan (seen self.now) label }
        ensures slot { IfSome result (λ slot. slot < length self.now.ends.places) }
    {
        // Named so that what always holds of the fields is at hand for the proof.
        let _ = &self.ends;
        self.ends.advertiser(label)
    }

    // 2. The label is that of one end of the edge, at the bottom of the stack.
    fn labelled<L: Link>(
        &mut self,
        octets: &[u8],
        entry: &StackEntry,
        work: &mut AtWork<'_, L>,
    ) -> Result<(), NoMemory>
        requires working { self.old.stopped ≡ true }
        requires synced { InSync self.old.plan (seen self.old) }
        requires long { 4 ≤ length octets.now }
        requires living { 1 ≤ entry.now.ttl }
        ensures goes { Works L.calls self.old work.old self.new work.new }
        ensures step { OnOk result (WorksBy L.calls self.old work.old self.new work.new (λ told. labelled self.old.plan told octets.now entry.now)) }
    {
        if entry.label < LEAST_LABEL {
            return drop_for(DropCause::NoLabel, &mut work.effects.list);
        }
        if !entry.bottom {
            return drop_for(DropCause::NotBottom, &mut work.effects.list);
        }
        let Some(slot) = self.advertiser(entry.label) else {
            return drop_for(DropCause::NoLabel, &mut work.effects.list);
        };
        let place = self.place_at(slot);
        if !place.terminal {
            return self.switch(slot, octets, entry, work);
        }
        self.terminated(slot, entry.ttl, without_entry(octets), work)
    }

    // 4. A terminal end takes what stands behind its label, where it is bound. With a control word, an associated channel is
    // connectivity verification; without one, a TTL that ends here is, where the end has picked that. Else a frame stands behind it.
    fn terminated<L: Link>(
        &mut self,
        slot: usize,
        ttl: u8,
        payload: &[u8],
        work: &mut AtWork<'_, L>,
    ) -> Result<(), NoMemory>
        requires { IsTerminalAt self.old slot }
        ensures goes { Works L.calls self.old work.old self.new work.new }
        ensures step { OnOk result (WorksBy L.calls self.old work.old self.new work.new (λ told. terminated self.old.plan told (place_of self.old.ends slot) ttl (wire_row self.old.plan (place_of self.old.ends slot).wire) (end_in self.old.ends slot).remote payload.now)) }
    {
        if self.end_in(slot).remote().is_none() {
            return drop_for(DropCause::Down, &mut work.effects.list);
        }
        if self.offer_at(slot).cword {
            return self.with_word(slot, payload, work);
        }
        if expires(ttl, self.channel_at(slot)) {
            return self.verify(slot, Cc::Expiry, payload, work);
        }
        self.enter(slot, payload, work)
    }

    // The same with a control word.
    fn with_word<L: Link>(
        &mut self,
        slot: usize,
        behind_label: &[u8],
        work: &mut AtWork<'_, L>,
    ) -> Result<(), NoMemory>
        requires { IsTerminalAt self.old slot }
        ensures goes { Works L.calls self.old work.old self.new work.new }
        ensures step { OnOk result ((told : Answers) (row : WirePlan) (binding : Bound) → Agrees told (L.calls work.new.link.now) → wire_row self.old.plan (place_of self.old.ends slot).wire ≡ Some row
            → (end_in self.old.ends slot).remote ≡ Some binding
            → at_work L.calls self.new work.new ≡ by_control_word self.old.plan told row (place_of self.old.ends slot) binding behind_label.now (at_work L.calls self.old work.old)) }
    {
        if behind_label.is_empty() {
            return drop_for(DropCause::Short, &mut work.effects.list);
        }
        if is_channel(behind_label) {
            return self.verify_in(slot, Cc::Header, behind_label, work);
        }
        self.enter(slot, behind_label, work)
    }

    // What the edge offers at the end of a slot.
    #[tactic(auto, using(edge_forwarding::proofs::ForwardingLemmas::row_read))]
    pub(crate) fn offer_at(&self, slot: usize) -> Offer
        requires { slot < length self.now.ends.places }
        ensures row { (row : WirePlan) → wire_row self.now.plan (place_of self.now.ends slot).wire ≡ Some row → result ≡ offer_of row self.now.me.0 }
        ensures within { (place_of self.now.ends slot).wire.0 < length self.now.plan.wires }
    {
        let wire = self.place_at(slot).wire;
        self.plan.wires.as_slice()[wire.0 as usize].offer_of(self.me)
    }

    // 5. A frame comes by a wire whose end forwards, and is bridged.
    fn enter<L: Link>(
        &mut self,
        slot: usize,
        payload: &[u8],
        work: &mut AtWork<'_, L>,
    ) -> Result<(), NoMemory>
        requires { IsTerminalAt self.old slot }
        ensures goes { Works L.calls self.old work.old self.new work.new }
        ensures step { OnOk result ((told : Answers) (row : WirePlan) → Agrees told (L.calls work.new.link.now) → wire_row self.old.plan (place_of self.old.ends slot).wire ≡ Some row
            → at_work L.calls self.new work.new ≡ enters self.old.plan told row (place_of self.old.ends slot) payload.now (at_work L.calls self.old work.old)) }
    {
        if self.down_of(slot).is_some() {
            return drop_for(DropCause::Down, &mut work.effects.list);
        }
        let place = self.place_at(slot);
        let service = self.service_at(slot);
        let port = self.port_at(slot, service);
        let read = self.read_frame(slot, payload);
        let ingress = Ingress {
            came: Arrival::Wire(place.wire),
            service,
            port,
        };
        self.bridge_frame(ingress, read, work)
    }

    // The service of the wire of an end.
    #[tactic(auto, using(edge_forwarding::proofs::ForwardingLemmas::row_read))]
    pub(crate) fn service_at(&self, slot: usize) -> ServiceId
        requires { slot < length self.now.ends.places }
        ensures row { (row : WirePlan) → wire_row self.now.plan (place_of self.now.ends slot).wire ≡ Some row → result ≡ row.service }
        ensures within { result.0 < length self.now.plan.services }
    {
        let wire = self.place_at(slot).wire;
        self.plan.wires.as_slice()[wire.0 as usize].service
    }

    // The port of the wire of a terminal end that forwards; it is open.
    fn port_at(&self, slot: usize, service: ServiceId) -> Option<u16>
        requires service { service.0 < length self.now.plan.services }
        requires synced { InSync self.now.plan (seen self.now) }
        requires slot { slot < length self.now.ends.places }
        requires terminal { (place_of self.now.ends slot).terminal ≡ true }
        requires up { is_up (down_at self.now.plan (seen self.now) (place_of self.now.ends slot)) ≡ true }
        ensures port { result ≡ position (is_wire_port (place_of self.now.ends slot).wire) (ports_of self.now.plan service self.now.me) }
        ensures on { IfSome result (λ p. open_ports self.now.forwarding service p ≡ true) }
    {
        let place = self.ends.place(slot);
        self.forwarding.port_of(PortName::Wire(place.wire), service)
    }

    // The parts that join to the inner frame of what came by the end of a slot, by the edge's own offer.
    fn read_frame<'a>(
        &self,
        slot: usize,
        payload: &'a [u8],
    ) -> Result<(&'a [u8], &'a [u8]), FrameFault>
        requires { slot < length self.now.ends.places }
        ensures read { (row : WirePlan) → wire_row self.now.plan (place_of self.now.ends slot).wire ≡ Some row
            → MatchResult result (λ parts. unpacked_at self.now.plan row self.now.me payload.now ≡ Ok (parts.0.now ++ parts.1.now)) (λ fault. unpacked_at self.now.plan row self.now.me payload.now ≡ Err (cause_of fault)) }
        ensures header { IfOk result (λ parts. 14 ≤ length parts.0.now + length parts.1.now) }
    {
        let offer = self.offer_at(slot);
        let mtu = self.mtu_of(self.service_at(slot));
        read_payload(&offer, mtu, payload)
    }

    // The MTU of a service. A function of its own, since its clause is what a frame is read by.
    fn mtu_of(&self, service: ServiceId) -> u16
        requires { service.0 < length self.now.plan.services }
        ensures { mtu_of self.now.plan service ≡ Some result }
    {
        self.plan.services.as_slice()[service.0 as usize].mtu
    }
}

// Whether an entry is a router alert, behind which another entry stands.
fn is_alert(entry: &StackEntry) -> bool
    ensures { result ≡ is_alert entry.now }
{
    entry.label == ROUTER_ALERT && !entry.bottom
}

// Whether a TTL ends at an end that has picked that as its control channel (RFC 5085 section 5.1.3).
fn expires(ttl: u8, channel: Option<Cc>) -> bool
    ensures { result ≡ (ttl == 1 && is_picked Expiry channel) }
{
    ttl == 1 && is_picked(Cc::Expiry, channel)
}

// Whether an associated channel stands behind the label stack.
fn is_channel(payload: &[u8]) -> bool
    requires { 1 ≤ length payload.now }
    ensures { result ≡ is_channel payload.now }
{
    payload[0] / 16 == CHANNEL
}
