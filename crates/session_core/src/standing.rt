//! What a session that stands has, in each of its states.
ghost use Rattle.std.specs.Prelude.{◌≡◌, ◌<◌, ◌+◌, ◌-◌, ◌^◌, ◌↔◌, ◌&&◌, [], ◌∷◌, IfSome, IfNone, None, min, false, true, nat_le, if◌then◌else◌};
ghost use Rattle.session_core.specs.{Parameters.{is_platform, longest, proposal_refusal}, State.{IsKept, IsProper}};
ghost use Rattle.session_core.specs.Phase as phase;
ghost use Rattle.session_core.specs.Table.{one_more, third};
ghost use Rattle.session_core.specs.declared.reply.Reply.TheVariants as reply;

use crate::parameters::{is_platform, longest};
use crate::{Peers, Replies, Reply};
use ldp_grammar::{LdpId, SessionParams};

/// What a session that stands has, in each of its states.
#[derive(Clone, Copy, PartialEq, Eq)]
pub struct Standing {
    /// The two ends, and what this one proposes.
    pub peers: Peers,
    /// The hold time in force, in ticks (RFC 5036 section 2.5.6).
    pub hold: u16,
    /// The most that a PDU Length may be, in octets (RFC 5036 section 3.5.3).
    pub max_pdu: u16,
    /// The ticks since the last PDU was heard.
    pub wait: u64,
    /// The ticks since something was put, up to 2^64 - 1.
    pub silence: u64,
}

impl Standing {
    // What the two proposals agree on: the smaller of both, of the KeepAlive Time and of the Max PDU Length. The proposal
    // is acceptable.
    pub(crate) fn agreed(self, params: &SessionParams) -> Standing
        requires proper { IsProper self.peers }
        requires waiting { self.wait < self.peers.keepalive }
        requires acceptable { proposal_refusal self.peers params.now ≡ None }
        ensures state { result ≡ record self { hold = min self.peers.keepalive params.now.keepalive; max_pdu = min self.peers.max_pdu (longest params.now.max_pdu) } }
        ensures agreed { IsKept phase.OpenRec result }
    {
        Standing {
            hold: self.peers.keepalive.min(params.keepalive),
            max_pdu: self.peers.max_pdu.min(longest(params.max_pdu)),
            ..self
        }
    }

    // The same, once a PDU of the sender came; `None` exactly where the sender is not the peer with label space 0.
    pub(crate) fn heard(self, sender: LdpId) -> Option<Standing>
        ensures other { (result ≡ None) ↔ (is_platform self.peers.peer sender ≡ false) }
        ensures some { IfSome result (λ next. next ≡ record self { wait = 0 }) }
    {
        if !is_platform(self.peers.peer, sender) {
            return None;
        }
        Some(Standing { wait: 0, ..self })
    }

    // The same, once something was put.
    pub(crate) fn spoke(self) -> Standing
        ensures { result ≡ record self { silence = 0 } }
    {
        Standing { silence: 0, ..self }
    }

    // The same a tick later; `None` exactly where nothing was then heard for the hold time.
    #[tactic(auto, unfolding(crate::specs::Table::one_more), using(crate::proofs::TickLemmas::quiet_by_count))]
    pub(crate) fn later(self) -> Option<Standing>
        requires { self.wait < 2 ^ 16 }
        ensures expired { IfNone result (nat_le self.hold (self.wait + 1) ≡ true) }
        ensures going { IfSome result (λ next. nat_le self.hold (self.wait + 1) ≡ false) }
        ensures state { IfSome result (λ next. next ≡ record self { wait = self.wait + 1; silence = one_more self.silence }) }
        ensures quiet { IfSome result (λ next. nat_le (third next.hold) next.silence ≡ nat_le (third self.hold) (self.silence + 1)) }
    {
        let wait = self.wait + 1;
        if self.hold as u64 <= wait {
            return None;
        }
        // It stays at its limit, which is far above the third of each hold time.
        let silence = self.silence.saturating_add(1);
        Some(Standing {
            wait,
            silence,
            ..self
        })
    }

    // A KeepAlive, where an Initialization was accepted and nothing was put for a third of the hold time, and for one tick
    // at least (RFC 5036 section 2.5.6).
    pub(crate) fn due(&self, agreed: bool) -> Replies
        ensures { result ≡ (if agreed && nat_le (third self.now.hold) self.now.silence then reply.KeepAlive ∷ [] else []) }
    {
        if agreed && self.third() <= self.silence {
            return Replies::one(Reply::KeepAlive);
        }
        Replies::none()
    }

    // A third of the hold time, and one tick at least.
    fn third(&self) -> u64
        ensures { result ≡ third self.now.hold }
    {
        (self.hold / 3).max(1) as u64
    }

    // How many ticks pass before one at which nothing was heard for the hold time or, where an Initialization was accepted,
    // nothing was put for a third of it.
    pub(crate) fn quiet(&self, agreed: bool) -> u64
        ensures { result ≡ (if agreed then min (self.now.hold - (self.now.wait + 1)) (third self.now.hold - (self.now.silence + 1)) else self.now.hold - (self.now.wait + 1)) }
    {
        let heard = (self.hold as u64).saturating_sub(self.wait.saturating_add(1));
        if !agreed {
            return heard;
        }
        heard.min(self.third().saturating_sub(self.silence.saturating_add(1)))
    }

    // So many ticks pass.
    pub(crate) fn pass(&mut self, ticks: u64)
        requires { self.old.wait + ticks < 2 ^ 64 }
        ensures { self.new ≡ record self.old { wait = self.old.wait + ticks; silence = min (self.old.silence + ticks) (2 ^ 64 - 1) } }
    {
        self.wait += ticks;
        self.silence = self.silence.saturating_add(ticks);
    }
}
