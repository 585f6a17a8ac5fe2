//! The link of an edge in the network.
ghost use Rattle.std.specs.Prelude.{◌≡◌, ◌++◌, ◌∷◌, [], true, false};
ghost use Rattle.pw_messages.specs.LinkAnswers.{Agrees};
ghost use Rattle.network_model.specs.Absorb.{taken_all};
ghost use Rattle.net_base.specs.outside.Link.{call_of};

use crate::call::Call;
use crate::call_log::CallLog;
use net_base::{EdgeId, Link, LinkStop};
use std::marker::Model;

/// Takes every call. It is made anew for each input of an edge, and keeps nothing: the edge gives out what the link took, and the
/// network takes it from there. Contracts see the calls all the same.
#[derive(Drop)]
pub struct PsnLink {
    log: CallLog,
}

impl Model for PsnLink {
    ghost use Rattle.std.specs.Prelude.{List};
    ghost use Rattle.net_base.specs.declared.outside.link_call.LinkCall.{LinkCall};
    ghost use Rattle.pw_messages.specs.LinkAnswers.{Agrees};
    ghost use Rattle.network_model.specs.Absorb.{taken_all};

    ghost Value = { List LinkCall };

    ghost view = { λ l. l.log.calls };

    ghost invariant = { λ l. Agrees taken_all l.log.calls };
}

impl PsnLink {
    /// A link without calls.
    #[tactic(auto, using(crate::proofs::LinkLemmas::agrees_none))]
    pub fn new() -> PsnLink
        ensures { result ≡ [] }
    {
        PsnLink {
            log: CallLog::new(),
        }
    }

    /// Gives the link up, which took every call.
    pub fn close(self)
        ensures { Agrees taken_all self }
    {}

    // Takes a call.
    #[tactic(auto, using(crate::proofs::LinkLemmas::agrees_more))]
    fn take(&mut self, peer: EdgeId, packet: bool, bytes: &[u8])
        ensures { self.new ≡ self.old ++ call_of peer packet bytes.now true ∷ [] }
    {
        self.log = self.log.with_call(&Call {
            peer,
            packet,
            bytes,
        });
    }
}

impl Link for PsnLink {
    ghost calls = { λ link. link };

    ghost faults = { λ _. 0 };

    fn put(&mut self, peer: EdgeId, bytes: &[u8]) -> Result<(), LinkStop> {
        self.take(peer, false, bytes);
        Ok(())
    }

    fn send(&mut self, peer: EdgeId, packet: &[u8]) -> Result<(), LinkStop> {
        self.take(peer, true, packet);
        Ok(())
    }

    fn faults(&self) -> u64 {
        0
    }
}
