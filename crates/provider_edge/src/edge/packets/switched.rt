//! A switching point passes a packet on to its other neighbour on the wire (RFC 6073 section 4).
ghost use Rattle.std.specs.Prelude.{◌≡◌, ◌≤◌, ◌<◌, ◌-◌, length, IfOk, OnOk};
ghost use Rattle.pw_stitch.specs.{Relabelling.{relabelled}, Swap.{label_onward}};
ghost use Rattle.edge_model.specs.Packet.{switched};
ghost use Rattle.pw_ends.specs.Ends.{end_in, place_of};
ghost use Rattle.peer_dialogue.specs.AtWork.{WorkGoes};
ghost use Rattle.provider_edge.specs.AtWork.{WorksBy};

use crate::Edge;
use crate::quiet::drop_for;
use eth_encap::StackEntry;
use net_base::{Arrival, DropCause, Label, Link, List, NoMemory, Octets};
use peer_dialogue::AtWork;
use pw_stitch::{label_onward, relabel};
use std::alloc::Global;

// The octets of an entry of a label stack (RFC 3032 section 2.1).
const ENTRY: usize = 4;

impl Edge {
    // 3. A packet came under the label of the end of a slot, which is not terminal: it goes on by the other end of the wire, under
    // the label that is bound there.
    pub(crate) fn switch<L: Link>(
        &self,
        slot: usize,
        octets: &[u8],
        entry: &StackEntry,
        work: &mut AtWork<'_, L>,
    ) -> Result<(), NoMemory>
        requires slot { slot < length self.now.ends.places }
        requires long { 4 ≤ length octets.now }
        requires living { 1 ≤ entry.now.ttl }
        ensures goes { WorkGoes L.calls work.old work.new }
        ensures step { OnOk result (WorksBy L.calls self.now work.old self.now work.new (λ told. switched self.now.plan told octets.now entry.now (place_of self.now.ends slot))) }
    {
        let Some(mate) = self.mate_at(slot) else {
            return Ok(());
        };
        let wire = self.place_at(slot).wire;
        let Some(onward) = self.ends.beside(wire, mate) else {
            return drop_for(DropCause::NoBinding, &mut work.effects.list);
        };
        let label = match label_onward(self.end_in(onward).remote(), entry.ttl) {
            Ok(label) => label,
            Err(why) => return drop_for(why.cause(), &mut work.effects.list),
        };
        let packet = under_label(work.alloc, label, entry.ttl - 1, octets)?;
        let came = Arrival::Wire(self.place_at(onward).wire);
        self.send(onward, came, packet, work)
    }
}

// A packet with another label and another TTL, in one buffer that is taken for it.
#[tactic(auto, using(crate::proofs::SwitchLemmas::relabelled_front))]
fn under_label(alloc: Global, label: Label, ttl: u8, octets: &[u8]) -> Result<Octets, NoMemory>
    requires { 4 ≤ length octets.now }
    ensures { IfOk result (λ packet. packet ≡ relabelled label ttl octets.now) }
{
    let (front, behind) = octets.split_at(ENTRY);
    let mut entry = [0; ENTRY];
    entry.copy_from_slice(front);
    relabel(label, ttl, &mut entry);
    let mut packet = List::with_capacity(alloc, octets.len())?;
    packet.extend_from_slice(&entry)?;
    packet.extend_from_slice(behind)?;
    Ok(packet)
}
