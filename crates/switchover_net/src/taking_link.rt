//! The link of an edge in the network.
ghost use Rattle.std.specs.Prelude.{◌≡◌, []};
ghost use Rattle.net_base.specs.outside.Link.{Counts, IsCallAnswer};
ghost use Rattle.pw_messages.specs.LinkAnswers.{Agrees};
ghost use Rattle.switchover_model.specs.Network.{takes_all};

use net_base::{EdgeId, Link, LinkCall, LinkStop, List};
use std::alloc::Global;
use std::marker::Model;

/// Takes every call and keeps it. It is made anew for each call of an edge. Contracts see the calls.
#[derive(Drop)]
pub struct TakingLink {
    calls: List<LinkCall>,
    alloc: Global,
}

impl Model for TakingLink {
    ghost use Rattle.std.specs.Prelude.{List};
    ghost use Rattle.net_base.specs.declared.outside.link_call.LinkCall.{LinkCall};
    ghost use Rattle.pw_messages.specs.LinkAnswers.{Agrees};
    ghost use Rattle.switchover_model.specs.Network.{takes_all};

    ghost Value = { List LinkCall };

    ghost view = { λ l. l.calls };

    ghost invariant = { λ l. Agrees takes_all l.calls };
}

impl TakingLink {
    /// A link without calls.
    #[tactic(auto, using(crate::proofs::LinkLemmas::agrees_none))]
    pub fn new(alloc: Global) -> TakingLink
        ensures { result ≡ [] }
    {
        TakingLink {
            calls: List::new(alloc),
            alloc,
        }
    }

    /// The calls in order, which the link gives up.
    pub fn into_calls(self) -> List<LinkCall>
        ensures calls { result ≡ self }
        ensures taken { Agrees takes_all self }
    {
        self.calls
    }

    // Takes a call.
    #[tactic(auto, using(crate::proofs::LinkLemmas::agrees_more))]
    fn take(&mut self, peer: EdgeId, packet: bool, bytes: &[u8]) -> Result<(), LinkStop>
        ensures calls { IsCallAnswer self.old self.new peer packet bytes.now result }
        ensures counts { Counts 0 0 result }
    {
        let bytes = List::from_bytes(self.alloc, bytes)?;
        self.calls.push(LinkCall {
            peer,
            packet,
            bytes,
            taken: true,
        })?;
        Ok(())
    }
}

impl Link for TakingLink {
    ghost calls = { λ link. link };

    ghost faults = { λ _. 0 };

    fn put(&mut self, peer: EdgeId, bytes: &[u8]) -> Result<(), LinkStop> {
        self.take(peer, false, bytes)
    }

    fn send(&mut self, peer: EdgeId, packet: &[u8]) -> Result<(), LinkStop> {
        self.take(peer, true, packet)
    }

    fn faults(&self) -> u64 {
        0
    }
}
