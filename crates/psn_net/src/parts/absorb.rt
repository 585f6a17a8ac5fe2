//! An edge's work goes into the network.
ghost use Rattle.std.specs.Prelude.{◌≡◌, ◌<◌, ◌≤◌, ◌+◌, ◌∷◌, [], length, IfOk, OnOk};
ghost use Rattle.net_base.specs.declared.trace.entry.Entry.TheVariants as Entry;
ghost use Rattle.network_model.specs.Absorb.{absorb_all, absorb_one, all_entries_of, entries_told, put_towards};
ghost use Rattle.network_model.specs.State.{with_packet, with_pipe};
ghost use Rattle.provider_edge.specs.Said.{AllFit, NamesPlaces};
ghost use Rattle.psn_net.specs.Lists.{HasRoom, HasStepped, KeepsNetwork, network_seen};

use crate::departure::Departure;
use crate::parts::Parts;
use crate::trail::Trail;
use edge_model::Effect;
use net_base::{Arrival, EdgeId, Entry, List, NoMemory, Octets};
use std::alloc::Global;

impl Parts {
    // All that an edge gave out on an input that has this trail, in order.
    #[tactic(auto, using(crate::proofs::AbsorbLemmas::absorb_steps))]
    pub(crate) fn absorb(
        &mut self,
        alloc: Global,
        me: EdgeId,
        trail: Trail,
        effects: List<Effect>,
    ) -> Result<(), NoMemory>
        requires me { me.0 < length self.old.plan.edges }
        requires fit { AllFit self.old.plan effects }
        requires passed { trail.hops ≤ self.old.packets.last }
        requires room { HasRoom self.old }
        ensures keeps { KeepsNetwork self.old self.new }
        ensures room { OnOk result (HasRoom self.new) }
        ensures step { OnOk result (HasStepped self.old self.new (record {
          state = absorb_all me trail.origin trail.hops effects (network_seen self.old);
          entries = all_entries_of me trail.origin trail.hops effects (network_seen self.old);
        })) }
    {
        for effect in effects.into_items() {
            self.absorb_one(alloc, me, trail, effect)?;
        }
        Ok(())
    }

    // One thing that an edge gave out.
    #[tactic(auto, unfolding(crate::specs::Lists::network_seen, network_model::specs::State::with_pipe))]
    fn absorb_one(
        &mut self,
        alloc: Global,
        me: EdgeId,
        trail: Trail,
        effect: Effect,
    ) -> Result<(), NoMemory>
        requires me { me.0 < length self.old.plan.edges }
        requires fit { NamesPlaces self.old.plan effect }
        requires passed { trail.hops ≤ self.old.packets.last }
        requires room { HasRoom self.old }
        ensures keeps { KeepsNetwork self.old self.new }
        ensures room { OnOk result (HasRoom self.new) }
        ensures more { OnOk result (self.old.packets.last ≤ self.new.packets.last) }
        ensures step { OnOk result (HasStepped self.old self.new (record {
          state = absorb_one me trail.origin trail.hops effect (network_seen self.old);
          entries = entries_told me trail.origin trail.hops effect (network_seen self.old);
        })) }
    {
        match effect {
            Effect::Said { peer, bytes } => self.say(me, peer, bytes),
            Effect::Sent {
                peer,
                wire,
                arrival,
                bytes,
            } => {
                let departure = Departure {
                    wire,
                    from: me,
                    to: peer,
                    trail: self.one_more(trail),
                    bytes,
                };
                self.send(alloc, departure, arrival)
            }
            Effect::Left { circuit, bytes } => self.tell(Entry::Left {
                circuit,
                origin: trail.origin,
                hops: trail.hops,
                bytes,
            }),
            Effect::Dropped(cause) => self.tell(Entry::Dropped {
                edge: me,
                origin: trail.origin,
                cause,
            }),
            Effect::Session { peer, state } => self.tell(Entry::Session {
                edge: me,
                peer,
                state,
            }),
            Effect::Wire { wire, down } => self.tell(Entry::Wire {
                edge: me,
                wire,
                down,
            }),
            Effect::Pong { wire, sequence } => self.tell(Entry::Pong {
                edge: me,
                wire,
                sequence,
            }),
            Effect::Closed { peer } => {
                self.pipes.clear(peer, me);
                Ok(())
            }
        }
    }

    // The trail with one segment more.
    fn one_more(&self, trail: Trail) -> Trail
        requires passed { trail.hops ≤ self.now.packets.last }
        requires room { HasRoom self.now }
        ensures { result ≡ record { origin = trail.origin; hops = trail.hops + 1 } }
    {
        // Asked so that what always holds of it is at hand for the proof.
        let _told = self.ledger.trace().len();
        Trail {
            origin: trail.origin,
            hops: trail.hops + 1,
        }
    }

    // Octets of LDP towards a peer: they go into the pipe where its end stands.
    #[tactic(auto, unfolding(crate::specs::Lists::network_seen, network_model::specs::State::with_pipe))]
    fn say(&mut self, me: EdgeId, peer: EdgeId, bytes: Octets) -> Result<(), NoMemory>
        requires me { me.0 < length self.old.plan.edges }
        requires peer { peer.0 < length self.old.plan.edges }
        requires room { HasRoom self.old }
        ensures keeps { KeepsNetwork self.old self.new }
        ensures room { OnOk result (HasRoom self.new) }
        ensures last { self.new.packets.last ≡ self.old.packets.last }
        ensures step { OnOk result (HasStepped self.old self.new (record {
          state = put_towards me peer bytes (network_seen self.old);
          entries = Entry.Said me peer bytes ∷ [];
        })) }
    {
        if self.stands(peer, me) {
            self.pipes.put(me, peer, bytes.as_slice())?;
        }
        self.tell(Entry::Said {
            from: me,
            to: peer,
            bytes,
        })
    }

    // A packet leaves for a neighbour, and is told.
    fn send(
        &mut self,
        alloc: Global,
        departure: Departure,
        arrival: Arrival,
    ) -> Result<(), NoMemory>
        requires from { departure.from.0 < length self.old.plan.edges }
        requires to { departure.to.0 < length self.old.plan.edges }
        requires passed { departure.trail.hops ≤ self.old.packets.last + 1 }
        requires room { HasRoom self.old }
        ensures keeps { KeepsNetwork self.old self.new }
        ensures room { OnOk result (HasRoom self.new) }
        ensures more { OnOk result (self.old.packets.last ≤ self.new.packets.last) }
        ensures step { OnOk result (HasStepped self.old self.new (record {
          state = with_packet departure.wire departure.from departure.to departure.trail.origin departure.trail.hops departure.bytes (network_seen self.old);
          entries = Entry.Sent departure.from departure.to departure.wire arrival ((network_seen self.old).sent + 1) departure.trail.origin departure.trail.hops departure.bytes ∷ [];
        })) }
    {
        let Departure {
            wire,
            from,
            to,
            trail,
            bytes,
        } = departure;
        let packet = self.add_packet(Departure {
            wire,
            from,
            to,
            trail,
            bytes: bytes.copy(alloc)?,
        })?;
        self.tell(Entry::Sent {
            packet,
            from,
            to,
            wire,
            arrival,
            origin: trail.origin,
            hops: trail.hops,
            bytes,
        })
    }

    // A packet is under way, and has the next number.
    #[tactic(auto, using(crate::proofs::UnderWayLemmas::packets_more), unfolding(crate::specs::Lists::network_seen, network_model::specs::State::with_packet))]
    pub(crate) fn add_packet(&mut self, departure: Departure) -> Result<u64, NoMemory>
        requires from { departure.from.0 < length self.old.plan.edges }
        requires to { departure.to.0 < length self.old.plan.edges }
        requires passed { departure.trail.hops ≤ self.old.packets.last + 1 }
        requires room { HasRoom self.old }
        ensures keeps { KeepsNetwork self.old self.new }
        ensures trace { self.new.trace ≡ self.old.trace }
        ensures entered { self.new.entered ≡ self.old.entered }
        ensures last { OnOk result (self.new.packets.last ≡ self.old.packets.last + 1) }
        ensures number { IfOk result (λ number. number ≡ (network_seen self.old).sent + 1) }
        ensures state { OnOk result (network_seen self.new ≡ with_packet departure.wire departure.from departure.to departure.trail.origin departure.trail.hops departure.bytes (network_seen self.old)) }
    {
        // Asked so that what always holds of it is at hand for the proof.
        let _told = self.ledger.trace().len();
        match self.packets.add(departure) {
            Ok(()) => Ok(self.packets.last()),
            Err(fault) => Err(fault),
        }
    }
}
