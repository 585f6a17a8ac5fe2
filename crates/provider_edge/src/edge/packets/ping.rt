//! An edge pings the far end of a wire (RFC 5085 sections 3 and 5).
ghost use Rattle.std.specs.Prelude.{◌≡◌, ◌<◌, Some, true, length, IfOk, OnOk};
ghost use Rattle.net_base.specs.{declared.plan.wire_plan.WirePlan.{WirePlan}, plan.Places.{wire_row}};
ghost use Rattle.pw_ends.specs.Ends.{place_of};
ghost use Rattle.edge_model.specs.{Echo.{ping_number}, Ping.{far_address, following_ping, pinging}};
ghost use Rattle.edge_model.specs.declared.input.Input.TheVariants as input;
ghost use Rattle.provider_edge.specs.{AtWork.{IsBegun, Takes, TakesBy}, Lists.{Keeps, seen}, Pings.{ping_of, request_of}};

use crate::Edge;
use crate::echo::request_under;
use crate::edge::packets::stitched::has_told;
use crate::spokes::is_first;
use net_base::{Addr, Arrival, Link, NoMemory, Octets, WireId, first_of, last_of};
use peer_dialogue::AtWork;
use std::alloc::Global;
use vccv_channel::Ping;

impl Edge {
    // The far end of a wire is pinged, where the edge's end of it advertises its label, is bound and has picked a control channel.
    pub(crate) fn ping<L: Link>(
        &mut self,
        wire: WireId,
        work: &mut AtWork<'_, L>,
    ) -> Result<(), NoMemory>
        requires { IsBegun self.old work.old }
        ensures goes { Takes L.calls self.old work.old self.new work.new }
        ensures step { OnOk result (TakesBy L.calls self.old work.old self.new work.new (input.Ping wire)) }
    {
        let Some(slot) = self.ends.terminal(wire) else {
            work.effects.idle = true;
            return Ok(());
        };
        let Some(packet) = self.request_at(work.alloc, slot)? else {
            work.effects.idle = true;
            return Ok(());
        };
        self.count_ping(self.place_at(slot).wire);
        self.send(slot, Arrival::Own, packet, work)
    }

    // The packet of the next ping that the end of a slot asks, where it can.
    fn request_at(&self, alloc: Global, slot: usize) -> Result<Option<Octets>, NoMemory>
        requires { slot < length self.now.ends.places }
        ensures { IfOk result (λ packet. packet ≡ request_of self.now.plan (seen self.now) (place_of self.now.ends slot)) }
    {
        // Named so that what always holds of the fields is at hand for the proof.
        let _ = &self.ends;
        let end = self.end_in(slot);
        if !has_told(end) {
            return Ok(None);
        }
        let Some(binding) = end.remote() else {
            return Ok(None);
        };
        let Some(kind) = self.channel_at(slot) else {
            return Ok(None);
        };
        let Some(ping) = self.ping_at(slot) else {
            return Ok(None);
        };
        let packet = request_under(alloc, kind, binding, ping)?;
        Ok(Some(packet))
    }

    // The next ping of the wire of an end, where both addresses are known.
    fn ping_at(&self, slot: usize) -> Option<Ping>
        requires { slot < length self.now.ends.places }
        ensures { (row : WirePlan) → wire_row self.now.plan (place_of self.now.ends slot).wire ≡ Some row → result ≡ ping_of self.now.plan (seen self.now) (place_of self.now.ends slot).wire row }
    {
        let wire = self.place_at(slot).wire;
        let from = self.address_of(self.me)?;
        let to = self.far_address(wire)?;
        Some(Ping {
            from,
            to,
            number: self.ping_number(slot),
            sequence: self.next_ping(wire),
        })
    }

    // The address of the terminal edge at the other end of a wire.
    #[tactic(auto, using(edge_forwarding::proofs::ForwardingLemmas::row_read))]
    fn far_address(&self, wire: WireId) -> Option<Addr>
        requires { wire.0 < length self.now.plan.wires }
        ensures { (row : WirePlan) → wire_row self.now.plan wire ≡ Some row → result ≡ far_address self.now.plan self.now.me row }
    {
        let path = self.plan.wires.as_slice()[wire.0 as usize].path.as_slice();
        let far = if is_first(path, self.me) {
            last_of(path)
        } else {
            first_of(path)
        };
        match far {
            Some(far) => self.address_of(far),
            None => None,
        }
    }

    // The next ping of a wire has the next sequence number.
    fn count_ping(&mut self, wire: WireId)
        requires working { self.old.stopped ≡ true }
        requires within { wire.0 < length self.old.plan.wires }
        ensures keeps { Keeps self.old self.new }
        ensures step { seen self.new ≡ pinging wire (seen self.old) }
    {
        self.pings[wire.0 as usize] = following_ping(self.next_ping(wire));
    }

    // The sequence number of the next ping of a wire.
    #[tactic(auto, unfolding(crate::specs::Lists::seen))]
    fn next_ping(&self, wire: WireId) -> u16
        requires { wire.0 < length self.now.plan.wires }
        ensures { result ≡ (seen self.now).next_ping wire.0 }
    {
        self.pings[wire.0 as usize]
    }
}

// Pings are numbered modulo 65,536.
fn following_ping(sequence: u16) -> u16
    ensures { result ≡ following_ping sequence }
{
    ((sequence as u32 + 1) % 0x1_0000) as u16
}
