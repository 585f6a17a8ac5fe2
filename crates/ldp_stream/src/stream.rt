//! Streams.
ghost use Rattle.std.specs.Prelude.{◌≡◌, ◌≤◌, ◌↔◌, ◌⊎◌, ◌++◌, ℕ, List, Ok, Err, Some, None, IfErr, IfOk, IfSome, drop, length, take};
ghost use Rattle.ldp_grammar.specs.{declared.fault.Fault.{Fault}, declared.pdu.Pdu.{Pdu}};
ghost use Rattle.ldp_codec.specs.Decoded.{refusal_of};
ghost use Rattle.ldp_stream.specs.Front.{HasFront, IsPending};
ghost use Rattle.ldp_stream.specs.declared.stream_fault.StreamFault.TheVariants as stop;
ghost use Rattle.ldp_stream.specs.Seen.{HasNext, IsPeeked, IsRefusal};
ghost use Rattle.ldp_stream.specs.State.{AnswersNext, IsFaultOf, Passes, Refuses, empty, place_behind, taken_count};

use crate::StreamFault;
use crate::front::{decode_front, size_in, view_front};
use crate::ring::Ring;
use ldp_codec::{DecodeFault, PduView, Stop};
use ldp_grammar::{Fault, Pdu};
use net_values::NoMemory;
use std::alloc::Global;
use std::marker::Model;

/// The octets of one direction of a connection, as they come in, and the PDUs that they spell. Contracts see the octets
/// held, the maximum, the place in the stream of the first octet held, and the fault that was answered.
#[derive(Drop)]
pub struct Stream {
    ring: Ring,
    max: u16,
    base: u64,
    refused: Option<Fault>,
}

impl Model for Stream {
    ghost use Rattle.std.specs.Prelude.{◌≤◌, length};
    ghost use Rattle.ldp_stream.specs.State.{StreamState};

    ghost Value = { StreamState };

    ghost view = { λ s. record { held = s.ring; max = s.max; base = s.base; refused = s.refused } };

    ghost invariant = { λ s. (256 ≤ s.max) × (s.max ≤ 4096) × (length s.ring ≤ 4100) };
}

impl Stream {
    /// A stream of which nothing came yet, with the memory for all octets that it will hold. The maximum is 4096.
    pub fn new(alloc: Global) -> Result<Stream, NoMemory>
        ensures { IfOk result (λ stream. stream ≡ empty) }
    {
        Ok(Stream {
            ring: Ring::new(alloc)?,
            max: 4096,
            base: 0,
            refused: None,
        })
    }

    /// Sets the maximum of a PDU Length, in octets, for the PDUs that are answered from now on (RFC 5036 section
    /// 3.5.3, Max PDU Length).
    pub fn set_max(&mut self, max: u16)
        requires least { 256 ≤ max }
        requires most { max ≤ 4096 }
        ensures { self.new ≡ record self.old { max = max } }
    {
        self.max = max;
    }

    /// Takes octets from the front of the piece, and answers how many: all of it, or as many as there is room for in
    /// 4,100 octets; none after a fault was answered. To call `next` until it answers `None` makes room for at least
    /// one octet. This takes no memory.
    pub fn feed(&mut self, piece: &[u8]) -> usize
        ensures count { result ≡ taken_count self.old.refused (length self.old.held) (length piece.now) }
        ensures held { self.new ≡ record self.old { held = self.old.held ++ take result piece.now } }
        ensures within { length self.new.held ≤ 4100 }
    {
        if self.refused.is_some() {
            return 0;
        }
        self.ring.take(piece)
    }

    /// The PDU in front of the octets held, which are then those behind it. `None` exactly where they are a proper
    /// prefix of a PDU: nothing changes then. `Refused` exactly where there is a fault in front, or it was answered
    /// before: another version as soon as two octets are held, a PDU Length out of range as soon as four are, and
    /// another fault of the PDU as soon as all of it is held (RFC 5036 sections 3.5.1.2.1 and 3.5.1.2.2).
    pub fn next(&mut self, alloc: Global) -> Result<Option<Pdu>, StreamFault>
        ensures answer { IfOk result (AnswersNext self.old self.new) }
        ensures refusal { IfErr result (Refuses self.old self.new) }
        ensures waits { (result ≡ Ok None) ↔ ((self.old.refused ≡ None) × IsPending self.old.max self.old.held) }
        ensures accepts { (pdu : Pdu) (rest : List ℕ) → self.old.refused ≡ None → HasFront self.old.max self.old.held pdu rest → (result ≡ Ok (Some pdu)) ⊎ (result ≡ Err stop.NoMemory) }
        ensures refuses { (fault : Fault) → IsFaultOf self.old fault → (result ≡ Err (stop.Refused self.old.base (refusal_of fault))) ⊎ (result ≡ Err stop.NoMemory) }
        ensures again { (fault : Fault) → self.old.refused ≡ Some fault → (result ≡ Err (stop.Refused self.old.base (refusal_of fault))) × (self.new ≡ self.old) }
    {
        if let Some(fault) = self.refused {
            return Err(self.refuse(fault));
        }
        match decode_front(alloc, self.ring.part(), self.max) {
            Ok(None) => Ok(None),
            Ok(Some((pdu, size))) => {
                self.give_up(size);
                Ok(Some(pdu))
            }
            Err(Stop::At(fault)) => Err(self.refuse(fault)),
            Err(Stop::NoMemory) => Err(StreamFault::NoMemory),
        }
    }

    /// The PDU in front of the octets held, lent from them: it takes no memory, and nothing changes. `None` and `Refused`
    /// come exactly where `next` answers them.
    #[tactic(auto, using(crate::proofs::StreamLemmas::peeked))]
    #[inline(always)]
    pub fn peek(&self) -> Result<Option<PduView<'_>>, StreamFault>
        ensures seen { IfOk result (λ front. IfSome front (IsPeeked self.now)) }
        ensures ready { IfOk result (λ front. IfSome front (λ _. HasNext self.now)) }
        ensures waits { (result ≡ Ok None) ↔ ((self.now.refused ≡ None) × IsPending self.now.max self.now.held) }
        ensures refused { IfErr result (IsRefusal self.now) }
        ensures refuses { (fault : Fault) → IsFaultOf self.now fault → result ≡ Err (stop.Refused self.now.base (refusal_of fault)) }
    {
        if let Some(fault) = self.refused {
            return Err(refusal(self.base, fault));
        }
        match view_front(self.ring.part(), self.max) {
            Ok(None) => Ok(None),
            Ok(Some(view)) => Ok(Some(view)),
            Err(fault) => Err(refusal(self.base, fault)),
        }
    }

    /// Gives up the PDU in front, where `peek` lends one.
    #[tactic(auto, using(crate::proofs::StreamLemmas::next_whole))]
    pub fn pass(&mut self)
        requires { HasNext self.old }
        ensures { (pdu : Pdu) (rest : List ℕ) → HasFront self.old.max self.old.held pdu rest → Passes self.old self.new pdu }
    {
        let size = size_in(self.ring.part());
        self.give_up(size);
    }

    /// How many octets are held: at most 4,100.
    pub fn held(&self) -> usize
        ensures count { result ≡ length self.now.held }
        ensures within { result ≤ 4100 }
    {
        self.ring.len()
    }

    // The answer that refuses with the fault, which is kept.
    fn refuse(&mut self, fault: Fault) -> StreamFault
        ensures answer { result ≡ stop.Refused self.old.base (refusal_of fault) }
        ensures kept { self.new ≡ record self.old { refused = Some fault } }
    {
        self.refused = Some(fault);
        refusal(self.base, fault)
    }

    // Passes the first octets, and their number goes to the place.
    #[tactic(auto, unfolding(crate::specs::State::place_behind))]
    fn give_up(&mut self, count: usize)
        requires { count ≤ length self.old.held }
        ensures { self.new ≡ record self.old { held = drop count self.old.held; base = place_behind self.old.base count } }
    {
        self.ring.pass(count);
        // Behind 2^64 - 1 octets the place is counted no further.
        self.base = self.base.saturating_add(count as u64);
    }
}

// The answer that refuses with a fault at this place.
fn refusal(base: u64, fault: Fault) -> StreamFault
    ensures { result ≡ stop.Refused base (refusal_of fault) }
{
    StreamFault::Refused {
        base,
        fault: DecodeFault::from(fault),
    }
}
