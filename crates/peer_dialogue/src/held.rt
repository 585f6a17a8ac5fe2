//! What an edge has heard of a neighbour.
ghost use Rattle.std.specs.Prelude.{◌≡◌, ◌≤◌, ◌<◌, ◌+◌, ◌++◌, [], length, take, drop, IfOk};
ghost use Rattle.net_values.specs.Octets.{AreOctets};
ghost use Rattle.peer_dialogue.specs.Hearing.{StandsNext};

use crate::front::front_in;
use crate::next::Next;
use ldp_stream::Stream;
use net_base::NoMemory;
use std::alloc::Global;
use std::marker::Model;

/// The octets that an edge has heard of a neighbour and that are no whole PDU yet, at most 4,100. Memory for all of them is
/// taken where the first ones come. Contracts see the octets.
#[derive(Drop)]
pub struct Held {
    stream: Option<Stream>,
}

impl Model for Held {
    ghost use Rattle.std.specs.Prelude.{List as Items, ℕ};
    ghost use Rattle.peer_dialogue.specs.Hearing.{AreReady, octets_in};

    ghost Value = { Items ℕ };

    ghost view = { λ h. octets_in h.stream };

    ghost invariant = { λ h. AreReady h.stream };
}

impl Held {
    /// No octets.
    #[inline(always)]
    pub fn none() -> Held
        ensures { result ≡ [] }
    {
        Held { stream: None }
    }

    /// How many there are.
    #[inline(always)]
    pub fn len(&self) -> usize
        ensures count { result ≡ length self.now }
        ensures within { result ≤ 4100 }
    {
        match &self.stream {
            Some(stream) => stream.held(),
            None => 0,
        }
    }

    /// Gives the octets up, and their memory back.
    pub fn clear(&mut self)
        ensures { self.new ≡ [] }
    {
        self.stream = None;
    }

    /// What stands in front, within this maximum of a PDU Length; a PDU is taken out, and behind a fault all is given up. A
    /// KeepAlive takes no memory.
    #[tactic(auto, using(crate::proofs::HearLemmas::waiting_none, crate::proofs::FrontLemmas::set_ready, crate::proofs::FrontLemmas::front_next, crate::proofs::FrontLemmas::front_waits, crate::proofs::FrontLemmas::front_fault))]
    pub fn next(&mut self, alloc: Global, max: u16) -> Result<Next, NoMemory>
        requires least { 256 ≤ max }
        requires most { max ≤ 4096 }
        ensures octets { AreOctets self.old }
        ensures next { IfOk result (StandsNext max self.old self.new) }
    {
        let Some(stream) = &mut self.stream else {
            return Ok(Next::More);
        };
        stream.set_max(max);
        match front_in(alloc, stream)? {
            Next::More => Ok(Next::More),
            Next::KeepAlive { sender, id } => {
                stream.pass();
                Ok(Next::KeepAlive { sender, id })
            }
            Next::Pdu(pdu) => {
                stream.pass();
                Ok(Next::Pdu(pdu))
            }
            Next::Fault(fault) => {
                self.stream = None;
                Ok(Next::Fault(fault))
            }
        }
    }

    /// Puts as many of the octets from a place on behind those that are held as there is room for, and answers how many.
    #[tactic(auto, using(crate::proofs::HearLemmas::fed_ready))]
    pub fn feed_from(&mut self, alloc: Global, octets: &[u8], at: usize) -> Result<usize, NoMemory>
        requires room { length self.old < 4100 }
        requires more { at < length octets.now }
        ensures some { IfOk result (λ count. 1 ≤ count) }
        ensures within { IfOk result (λ count. at + count ≤ length octets.now) }
        ensures held { IfOk result (λ count. self.new ≡ self.old ++ take count (drop at octets.now)) }
    {
        let (_, rest) = octets.split_at(at);
        if let Some(stream) = &mut self.stream {
            return Ok(stream.feed(rest));
        }
        let mut stream = Stream::new(alloc)?;
        let count = stream.feed(rest);
        self.stream = Some(stream);
        Ok(count)
    }
}
