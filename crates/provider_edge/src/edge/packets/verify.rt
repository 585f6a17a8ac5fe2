//! An echo packet came in a control channel of an end (RFC 5085 sections 3 and 5).
ghost use Rattle.std.specs.Prelude.{◌≡◌, ◌<◌, ◌≤◌, true, Some, length, take, OnOk};
ghost use Rattle.net_base.specs.{declared.plan.wire_plan.WirePlan.{WirePlan}, plan.Places.{wire_row}};
ghost use Rattle.net_base.specs.declared.trace.arrival.Arrival.TheVariants.{Own};
ghost use Rattle.pw_messages.specs.LinkAnswers.{Agrees, Answers};
ghost use Rattle.pw_ends.specs.Ends.{end_in, place_of};
ghost use Rattle.pw_signalling.specs.declared.binding.Binding.{Binding as Bound};
ghost use Rattle.vccv_channel.specs.{Channel.{has_header}, Pick.{picked}, Reading.{behind_header}};
ghost use Rattle.edge_model.specs.{Echo.{is_picked, ping_number, verifies}, declared.effect.Effect.TheVariants.{Pong}};
ghost use Rattle.peer_dialogue.specs.AtWork.{WorkGoes};
ghost use Rattle.provider_edge.specs.{AtWork.{at_work}, Pings.{channel_by, verified_by}};

use crate::Edge;
use crate::echo::answer_under;
use crate::quiet::drop_for;
use edge_model::Effect;
use net_base::{Arrival, DropCause, Link, NoMemory};
use peer_dialogue::AtWork;
use vccv_channel::{Cc, Echo, pick, read_echo};

impl Edge {
    // What came in a control channel of the end of a slot is looked at, where the end has picked that type; any other is not
    // offered.
    pub(crate) fn verify_in<L: Link>(
        &self,
        slot: usize,
        kind: Cc,
        behind_label: &[u8],
        work: &mut AtWork<'_, L>,
    ) -> Result<(), NoMemory>
        requires { slot < length self.now.ends.places }
        ensures goes { WorkGoes L.calls work.old work.new }
        ensures step { OnOk result ((told : Answers) (row : WirePlan) → Agrees told (L.calls work.new.link.now) → wire_row self.now.plan (place_of self.now.ends slot).wire ≡ Some row
            → at_work L.calls self.now work.new ≡ verified_by told (place_of self.now.ends slot) row kind (end_in self.now.ends slot).remote behind_label.now (at_work L.calls self.now work.old)) }
    {
        if !is_picked(kind, self.channel_at(slot)) {
            return drop_for(DropCause::NotOffered, &mut work.effects.list);
        }
        self.verify(slot, kind, behind_label, work)
    }

    // The type of control channel that the end of a slot picks, where it is bound (RFC 5085 section 7).
    pub(crate) fn channel_at(&self, slot: usize) -> Option<Cc>
        requires { slot < length self.now.ends.places }
        ensures { (row : WirePlan) → wire_row self.now.plan (place_of self.now.ends slot).wire ≡ Some row → result ≡ channel_by row self.now.me (end_in self.now.ends slot).remote }
    {
        let offer = self.offer_at(slot);
        match self.end_in(slot).remote() {
            Some(binding) => pick(
                offer.vccv,
                binding.told.vccv,
                offer.cword,
                binding.told.points.len(),
            ),
            None => None,
        }
    }

    // What came in the control channel of the end of a slot, which is bound: a request is answered in the same control channel, and
    // an answer is told.
    pub(crate) fn verify<L: Link>(
        &self,
        slot: usize,
        kind: Cc,
        payload: &[u8],
        work: &mut AtWork<'_, L>,
    ) -> Result<(), NoMemory>
        requires { slot < length self.now.ends.places }
        ensures goes { WorkGoes L.calls work.old work.new }
        ensures step { OnOk result ((told : Answers) (row : WirePlan) (binding : Bound) → Agrees told (L.calls work.new.link.now) → wire_row self.now.plan (place_of self.now.ends slot).wire ≡ Some row
            → (end_in self.now.ends slot).remote ≡ Some binding
            → at_work L.calls self.now work.new ≡ verifies told (place_of self.now.ends slot) row kind binding payload.now (at_work L.calls self.now work.old)) }
    {
        let header = has_header(kind);
        let echo = match read_echo(payload, header, self.ping_number(slot)) {
            Ok(echo) => echo,
            Err(fault) => return drop_for(fault.cause(), &mut work.effects.list),
        };
        let length = match echo {
            Echo::Request { length, .. } => length,
            Echo::Answer { sequence } => {
                let wire = self.place_at(slot).wire;
                return work.effects.list.push(Effect::Pong { wire, sequence });
            }
        };
        let Some(binding) = self.end_in(slot).remote() else {
            return Ok(());
        };
        let ip = ip_packet(payload, header, length);
        let packet = answer_under(work.alloc, kind, binding, ip)?;
        self.send(slot, Arrival::Own, packet, work)
    }

    // The identifier of the pings of the wire of an end: its PW ID modulo 65,536.
    #[tactic(auto, using(edge_forwarding::proofs::ForwardingLemmas::row_read))]
    pub(crate) fn ping_number(&self, slot: usize) -> u16
        requires { slot < length self.now.ends.places }
        ensures row { (row : WirePlan) → wire_row self.now.plan (place_of self.now.ends slot).wire ≡ Some row → result ≡ ping_number row }
        ensures within { (place_of self.now.ends slot).wire.0 < length self.now.plan.wires }
    {
        let wire = self.place_at(slot).wire;
        (self.plan.wires.as_slice()[wire.0 as usize].pw_id % 0x1_0000) as u16
    }
}

// Whether this type was picked.
pub(crate) fn is_picked(kind: Cc, picked: Option<Cc>) -> bool
    ensures { result ≡ is_picked kind picked }
{
    match (kind, picked) {
        (Cc::Header, Some(Cc::Header))
        | (Cc::Alert, Some(Cc::Alert))
        | (Cc::Expiry, Some(Cc::Expiry)) => true,
        _ => false,
    }
}

// Whether an associated channel header stands in front in a control channel.
fn has_header(kind: Cc) -> bool
    ensures { result ≡ has_header kind }
{
    matches!(kind, Cc::Header)
}

// The IPv4 packet of a payload, which has so many octets.
fn ip_packet(payload: &[u8], channel: bool, count: u16) -> &[u8]
    requires header { channel ≡ true → 4 ≤ length payload.now }
    requires whole { count ≤ length (behind_header channel payload.now) }
    ensures { result.now ≡ take count (behind_header channel payload.now) }
{
    behind(payload, channel).split_at(count as usize).0
}

// What stands behind the associated channel header, where there is one.
fn behind(payload: &[u8], channel: bool) -> &[u8]
    requires { channel ≡ true → 4 ≤ length payload.now }
    ensures { result.now ≡ behind_header channel payload.now }
{
    if channel {
        payload.split_at(4).1
    } else {
        payload
    }
}
