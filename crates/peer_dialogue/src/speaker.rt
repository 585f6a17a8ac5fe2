//! Who puts messages to a neighbour.
ghost use Rattle.std.specs.{Prelude.{◌≡◌, ◌≤◌, ◌+◌, ◌++◌, ◌∷◌, [], ℕ, List, Some, length, true, false, not, IfOk}, List.{AllByRecursion}};
ghost use Rattle.ldp_grammar.specs.Written.{written};
ghost use Rattle.session_core.specs.{Messages.{HasData, message_of}, State.{SessionState}};
ghost use Rattle.pw_messages.specs.{LinkAnswers.{Agrees, Answers}, Sender.{following, platform_of}};
ghost use Rattle.edge_model.specs.{Put.{put_octets, put_replies, put_reply}, State.{EdgeState}, Work.{GoesOn}};
ghost use Rattle.peer_dialogue.specs.{AtWork.{WorkGoes}, Peering.{at_peer, having_put, put_message}, PwMessage.{CanBeSaid, numbered}};

use crate::at_work::AtWork;
use crate::pw_message::PwMessage;
use edge_model::Effect;
use net_base::{EdgeId, Link, LinkStop, NoMemory, Octets};
use pw_messages::{following, pdu_octets};
use session_core::{Peers, Replies, Reply};
use std::alloc::Global;

/// One who puts messages to a neighbour: the two ends of the session, and the number of the next message.
#[derive(Clone, Copy)]
pub struct Speaker {
    pub(crate) peers: Peers,
    pub(crate) next_id: u32,
}

/// What became of replies that were put.
#[derive(Clone, Copy)]
pub struct Put {
    /// The link took one of them.
    pub(crate) spoke: bool,
    /// The link did not take one of them, and none behind it was put.
    pub(crate) failed: bool,
}

impl Speaker {
    /// Puts replies in order, until the link does not take one.
    #[tactic(auto, using(crate::proofs::AtWorkLemmas::work_both, crate::proofs::SpeakerLemmas::data_at))]
    pub fn put_replies<L: Link>(
        &mut self,
        peer: EdgeId,
        replies: &Replies,
        work: &mut AtWork<'_, L>,
    ) -> Result<Put, NoMemory>
        requires { AllByRecursion HasData replies.now }
        ensures peers { self.new.peers ≡ self.old.peers }
        ensures goes { WorkGoes L.calls work.old work.new }
        ensures step { IfOk result (λ put. (told : Answers) (s : SessionState) (held : List ℕ) (edge : EdgeState) → Agrees told (L.calls work.new.link.now) → s.peers ≡ self.old.peers
            → put_replies told peer replies.now (at_peer peer (Some (record { session = s; held = held; next_id = self.old.next_id })) edge (L.calls work.old.link.now) work.old.effects.now.list)
            ≡ record { work = at_peer peer (Some (record { session = having_put put.spoke s; held = held; next_id = self.new.next_id })) edge (L.calls work.new.link.now) work.new.effects.now.list; failed = put.failed }) }
    {
        let mut spoke = false;
        for place in 0..replies.len() {
            let Some(reply) = replies.get(place) else {
                return Ok(Put {
                    spoke,
                    failed: false,
                });
            };
            if !self.put_reply(peer, reply, work)? {
                return Ok(Put {
                    spoke,
                    failed: true,
                });
            }
            spoke = true;
        }
        Ok(Put {
            spoke,
            failed: false,
        })
    }

    /// Puts a reply, and answers whether the link took it; what it takes is said.
    pub fn put_reply<L: Link>(
        &mut self,
        peer: EdgeId,
        reply: Reply,
        work: &mut AtWork<'_, L>,
    ) -> Result<bool, NoMemory>
        requires { HasData reply }
        ensures peers { self.new.peers ≡ self.old.peers }
        ensures goes { WorkGoes L.calls work.old work.new }
        ensures step { IfOk result (λ taken. (told : Answers) (s : SessionState) (held : List ℕ) (edge : EdgeState) → Agrees told (L.calls work.new.link.now) → s.peers ≡ self.old.peers
            → put_reply told peer reply (at_peer peer (Some (record { session = s; held = held; next_id = self.old.next_id })) edge (L.calls work.old.link.now) work.old.effects.now.list)
            ≡ record { work = at_peer peer (Some (record { session = having_put taken s; held = held; next_id = self.new.next_id })) edge (L.calls work.new.link.now) work.new.effects.now.list; failed = not taken }) }
    {
        let octets = self.octets_of(work.alloc, reply)?;
        self.put_octets(peer, octets, work)
    }

    /// Puts a message about a pseudowire, and answers whether the link took it; what it takes is said.
    pub fn say<L: Link>(
        &mut self,
        peer: EdgeId,
        message: &PwMessage<'_>,
        work: &mut AtWork<'_, L>,
    ) -> Result<bool, NoMemory>
        requires { CanBeSaid message.now }
        ensures peers { self.new.peers ≡ self.old.peers }
        ensures goes { WorkGoes L.calls work.old work.new }
        ensures step { IfOk result (λ taken. (told : Answers) (s : SessionState) (held : List ℕ) (edge : EdgeState) → Agrees told (L.calls work.new.link.now) → s.peers ≡ self.old.peers
            → put_message told peer (numbered message.now) (at_peer peer (Some (record { session = s; held = held; next_id = self.old.next_id })) edge (L.calls work.old.link.now) work.old.effects.now.list)
            ≡ record { work = at_peer peer (Some (record { session = having_put taken s; held = held; next_id = self.new.next_id })) edge (L.calls work.new.link.now) work.new.effects.now.list; failed = not taken }) }
    {
        let octets = self.message_octets_of(work.alloc, message)?;
        self.put_octets(peer, octets, work)
    }

    // Puts octets, and answers whether the link took them; what it takes is said.
    fn put_octets<L: Link>(
        &mut self,
        peer: EdgeId,
        octets: Octets,
        work: &mut AtWork<'_, L>,
    ) -> Result<bool, NoMemory>
        ensures peers { self.new.peers ≡ self.old.peers }
        ensures goes { WorkGoes L.calls work.old work.new }
        ensures step { IfOk result (λ taken. (told : Answers) (s : SessionState) (held : List ℕ) (edge : EdgeState) → Agrees told (L.calls work.new.link.now)
            → put_octets peer octets (told (length (L.calls work.old.link.now))) (at_peer peer (Some (record { session = s; held = held; next_id = self.old.next_id })) edge (L.calls work.old.link.now) work.old.effects.now.list)
            ≡ record { work = at_peer peer (Some (record { session = having_put taken s; held = held; next_id = self.new.next_id })) edge (L.calls work.new.link.now) work.new.effects.now.list; failed = not taken }) }
    {
        if !put_bytes(peer, octets.as_slice(), work.link)? {
            return Ok(false);
        }
        work.effects.list.push(Effect::Said {
            peer,
            bytes: octets,
        })?;
        self.next_id = following(self.next_id);
        Ok(true)
    }

    // The octets of a reply, in a PDU of its own.
    fn octets_of(&self, alloc: Global, reply: Reply) -> Result<Octets, NoMemory>
        requires { HasData reply }
        ensures { IfOk result (λ octets. octets ≡ written (message_of reply self.now.next_id self.now.peers) (platform_of self.now.peers.me)) }
    {
        let message = reply.message(self.next_id, &self.peers);
        pdu_octets(alloc, &message, self.peers.me)
    }

    // The octets of a message about a pseudowire, in a PDU of its own.
    fn message_octets_of(&self, alloc: Global, message: &PwMessage<'_>) -> Result<Octets, NoMemory>
        requires { CanBeSaid message.now }
        ensures { IfOk result (λ octets. octets ≡ written (numbered message.now self.now.next_id) (platform_of self.now.peers.me)) }
    {
        let message = message.with_id(alloc, self.next_id)?;
        pdu_octets(alloc, &message, self.peers.me)
    }
}

// Puts octets, and answers whether the link took them.
fn put_bytes<L: Link>(peer: EdgeId, bytes: &[u8], link: &mut L) -> Result<bool, NoMemory>
    ensures called { IfOk result (λ taken. L.calls link.new ≡ L.calls link.old ++ record { peer = peer; packet = false; bytes = bytes.now; taken = taken } ∷ []) }
    ensures calls { GoesOn (L.calls link.old) (L.calls link.new) }
{
    match link.put(peer, bytes) {
        Ok(()) => Ok(true),
        Err(LinkStop::Failed) => Ok(false),
        Err(LinkStop::NoMemory) => Err(NoMemory),
    }
}
