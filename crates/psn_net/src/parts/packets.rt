//! Packets under way: one reaches its edge, is lost, or is repeated, and each grows older.
ghost use Rattle.std.specs.{Prelude.{◌≡◌, ◌<◌, ◌+◌, None, option_map, length, IfOk, IfSome, OnOk}, List.{find}};
ghost use Rattle.net_base.specs.plan.Planned.{IsEventOf};
ghost use Rattle.network_model.specs.{Age.{ageing}, Packet.{again_event, arrive_event, discard_event, next_arrival, packet_at}};
ghost use Rattle.network_model.specs.State.{with_older, without_number, without_packet};
ghost use Rattle.psn_net.specs.Lists.{HasRoom, HasStepped, KeepsNetwork, copied, network_seen};
ghost use Rattle.psn_net.specs.Packets.{IsPacketOf, is_aged, number_of, without_aged};

use crate::parts::Parts;
use crate::trail::Trail;
use edge_model::Input;
use net_base::{Entry, Event, NoMemory};
use network_model::Packet;
use std::alloc::Global;

impl Parts {
    // A packet reaches its edge: what that gives out has the packet's origin, and has passed as many segments.
    #[tactic(auto, using(crate::proofs::UnderWayLemmas::arrive_steps))]
    pub(crate) fn arrive(&mut self, alloc: Global, number: u64) -> Result<(), NoMemory>
        requires room { HasRoom self.old }
        ensures keeps { KeepsNetwork self.old self.new }
        ensures step { OnOk result (HasStepped self.old self.new (arrive_event self.old.plan (packet_at (network_seen self.old) number) (network_seen self.old))) }
    {
        let Some(packet) = self.take_packet(number) else {
            return self.tell(Entry::Idle);
        };
        let trail = Trail {
            origin: packet.origin,
            hops: packet.hops,
        };
        let bytes = packet.bytes.as_slice();
        self.absorb_input(alloc, packet.to, trail, Input::Packet { bytes })
    }

    // A packet is lost on its way.
    #[tactic(auto, using(crate::proofs::UnderWayLemmas::discard_steps))]
    pub(crate) fn discard(&mut self, number: u64) -> Result<(), NoMemory>
        requires room { HasRoom self.old }
        ensures keeps { KeepsNetwork self.old self.new }
        ensures step { OnOk result (HasStepped self.old self.new (discard_event (packet_at (network_seen self.old) number) (network_seen self.old))) }
    {
        match self.take_packet(number) {
            Some(_) => Ok(()),
            None => self.tell(Entry::Idle),
        }
    }

    // Takes the packet with a number off its way, where it is under way.
    #[tactic(auto, using(crate::proofs::UnderWayLemmas::taken_steps), unfolding(crate::specs::Lists::network_seen, network_model::specs::State::without_packet))]
    fn take_packet(&mut self, number: u64) -> Option<Packet>
        ensures keeps { KeepsNetwork self.old self.new }
        ensures trace { self.new.trace ≡ self.old.trace }
        ensures room { HasRoom self.old → HasRoom self.new }
        ensures ticks { self.new.packets.ticks ≡ self.old.packets.ticks }
        ensures packet { result ≡ packet_at (network_seen self.old) number }
        ensures planned { IfSome result (IsPacketOf self.new.plan self.new.packets.last) }
        ensures state { network_seen self.new ≡ without_packet number (network_seen self.old) }
    {
        self.packets.take(number)
    }

    // A copy of a packet is under way under the next number, and is as old.
    #[tactic(auto, using(crate::proofs::UnderWayLemmas::again_steps))]
    pub(crate) fn again(&mut self, alloc: Global, number: u64) -> Result<(), NoMemory>
        requires room { HasRoom self.old }
        ensures keeps { KeepsNetwork self.old self.new }
        ensures step { OnOk result (HasStepped self.old self.new (again_event (packet_at (network_seen self.old) number) (network_seen self.old))) }
    {
        match self.repeat_packet(alloc, number) {
            Ok(Some(packet)) => self.tell(Entry::Copied { packet, of: number }),
            Ok(None) => self.tell(Entry::Idle),
            Err(fault) => Err(fault),
        }
    }

    // A copy of the packet with a number is sent, where that one is under way: the number of the copy.
    #[tactic(auto, using(crate::proofs::UnderWayLemmas::repeated_steps))]
    fn repeat_packet(&mut self, alloc: Global, number: u64) -> Result<Option<u64>, NoMemory>
        requires room { HasRoom self.old }
        ensures keeps { KeepsNetwork self.old self.new }
        ensures trace { self.new.trace ≡ self.old.trace }
        ensures number { IfOk result (λ copy. copy ≡ option_map (λ packet. (network_seen self.old).sent + 1) (packet_at (network_seen self.old) number)) }
        ensures state { OnOk result (network_seen self.new ≡ copied (packet_at (network_seen self.old) number) (network_seen self.old)) }
    {
        // Asked so that what always holds of it is at hand for the proof.
        let _told = self.ledger.trace().len();
        self.packets.repeat(alloc, number)
    }

    // A tick passes for the packets under way: those that it makes too old go, and are told by rising number.
    #[tactic(auto, using(crate::proofs::AgeLemmas::age_steps))]
    pub(crate) fn age(&mut self) -> Result<(), NoMemory>
        requires room { HasRoom self.old }
        requires time { self.old.packets.ticks < length self.old.trace }
        ensures keeps { KeepsNetwork self.old self.new }
        ensures room { OnOk result (HasRoom self.new) }
        ensures step { OnOk result (HasStepped self.old self.new (ageing (network_seen self.old))) }
    {
        'ageing: while let Some(packet) = self.first_aged() {
            self.take_packet(packet);
            self.tell(Entry::Aged { packet })?;
        }
        self.count_tick();
        Ok(())
    }

    // The number of the first packet that a further tick makes too old.
    #[tactic(auto, unfolding(crate::specs::Lists::network_seen))]
    fn first_aged(&self) -> Option<u64>
        ensures number { result ≡ option_map number_of (find is_aged (network_seen self.now).under_way) }
        ensures left { IfSome result (λ number. without_number number (network_seen self.now).under_way ≡ without_aged (network_seen self.now).under_way) }
    {
        self.packets.first_aged()
    }

    // Each packet under way is a tick older.
    #[tactic(auto, using(crate::proofs::AgeLemmas::planned_older), unfolding(crate::specs::Lists::network_seen, network_model::specs::State::with_older))]
    fn count_tick(&mut self)
        requires young { find is_aged (network_seen self.old).under_way ≡ None }
        requires time { self.old.packets.ticks < length self.old.trace }
        ensures keeps { KeepsNetwork self.old self.new }
        ensures trace { self.new.trace ≡ self.old.trace }
        ensures room { HasRoom self.old → HasRoom self.new }
        ensures state { network_seen self.new ≡ with_older (network_seen self.old) }
    {
        // Asked so that what always holds of it is at hand for the proof.
        let _told = self.ledger.trace().len();
        self.packets.tick();
    }

    /// The next arrival: the packet under way with the lowest number. `None` exactly where none is under way.
    #[tactic(auto, unfolding(crate::specs::Lists::network_seen))]
    pub fn next_arrival(&self) -> Option<Event>
        ensures next { result ≡ next_arrival (network_seen self.now) }
        ensures planned { IfSome result (IsEventOf self.now.plan) }
    {
        match self.packets.first() {
            Some(packet) => Some(Event::Arrive { packet }),
            None => None,
        }
    }
}
