//! A session that an event has moved.
ghost use Rattle.std.specs.Prelude.{◌≡◌, ◌++◌, ◌∷◌, [], IfOk, OnOk, Some, None};
ghost use Rattle.net_base.specs.declared.trace.state_name.Reason.{Reason};
ghost use Rattle.net_base.specs.declared.trace.state_name.StateName.TheVariants as name;
ghost use Rattle.session_core.specs.{Session.{phase_name, view_of}, State.{EndedBy, SessionState, Stands}};
ghost use Rattle.edge_model.specs.State.{EdgeState};
ghost use Rattle.edge_model.specs.declared.effect.Effect.TheVariants as told;
ghost use Rattle.peer_dialogue.specs.{AtWork.{WorkGoes}, Peering.{IsBetween, at_peer, ending_reason, having_put, next_state, settled}};

use crate::at_work::AtWork;
use crate::held::Held;
use crate::peering::Peering;
use crate::speaker::{Put, Speaker};
use edge_model::Effect;
use net_base::{EdgeId, Link, NoMemory, Reason, StateName};
use session_core::Session;

/// What an edge keeps of a neighbour, once an event has moved the session and everything was put: it is still to be told.
#[derive(Drop)]
pub struct Moved {
    /// The name of the session's state before.
    pub(crate) before: StateName,
    /// The session as it is now, which may have ended.
    pub(crate) session: Session,
    /// What became of its replies.
    pub(crate) put: Put,
    pub(crate) speaker: Speaker,
    pub(crate) held: Held,
}

impl Moved {
    /// Tells what became of the session; what is left is nothing, where it ended.
    pub fn settle<L: Link>(
        self,
        peer: EdgeId,
        work: &mut AtWork<'_, L>,
    ) -> Result<Option<Peering>, NoMemory>
        requires { IsBetween self.speaker.peers (view_of self.session) }
        ensures goes { WorkGoes L.calls work.old work.new }
        ensures link { work.new.link.now ≡ work.old.link.now }
        ensures ended { IfOk result (λ left. (why : Reason) → view_of self.session ≡ EndedBy why → left ≡ None) }
        ensures step { IfOk result (λ left. (s : SessionState) (edge : EdgeState) → phase_name s.phase ≡ self.before
            → at_peer peer left edge (L.calls work.new.link.now) work.new.effects.now.list
            ≡ settled peer s.phase (view_of self.session) (record { work = at_peer peer (Some (record { session = having_put self.put.spoke (next_state s (view_of self.session)); held = self.held; next_id = self.speaker.next_id })) edge (L.calls work.old.link.now) work.old.effects.now.list; failed = self.put.failed })) }
    {
        let Moved {
            before,
            session,
            put,
            speaker,
            held,
        } = self;
        if let Some(reason) = reason_of(&session) {
            end(peer, reason, work)?;
            return Ok(None);
        }
        if put.failed {
            end(peer, Reason::LinkFault, work)?;
            return Ok(None);
        }
        tell_change(peer, before, session.state(), work)?;
        let session = with_put(session, put.spoke);
        Ok(Some(Peering {
            session,
            speaker,
            held,
        }))
    }
}

// Why the session ended; `None` exactly where it stands.
fn reason_of(session: &Session) -> Option<Reason>
    ensures { result ≡ ending_reason (view_of session.now) }
{
    match session {
        Session::Ended(ended) => Some(ended.reason()),
        Session::Initialized(_)
        | Session::OpenSent(_)
        | Session::OpenRec(_)
        | Session::Operational(_) => None,
    }
}

// The same session, once something was put or nothing was.
#[tactic(auto, using(crate::proofs::SettleLemmas::spoken_is))]
fn with_put(session: Session, spoke: bool) -> Session
    ensures { (s : SessionState) → view_of session ≡ Stands s → view_of result ≡ Stands (having_put spoke s) }
{
    if spoke { session.spoke() } else { session }
}

// A state that has changed is told.
fn tell_change<L: Link>(
    peer: EdgeId,
    old: StateName,
    new: StateName,
    work: &mut AtWork<'_, L>,
) -> Result<(), NoMemory>
    ensures goes { WorkGoes L.calls work.old work.new }
    ensures link { work.new.link.now ≡ work.old.link.now }
    ensures same { OnOk result (old ≡ new → work.new.effects.now.list ≡ work.old.effects.now.list) }
    ensures other { OnOk result ((old ≡ new → ⊥) → work.new.effects.now.list ≡ work.old.effects.now.list ++ told.Session peer new ∷ []) }
{
    if old == new {
        return Ok(());
    }
    work.effects.list.push(Effect::Session { peer, state: new })
}

/// The session has ended: it is told, and then that the edge's end of the connection is gone.
pub fn end<L: Link>(peer: EdgeId, reason: Reason, work: &mut AtWork<'_, L>) -> Result<(), NoMemory>
    ensures goes { WorkGoes L.calls work.old work.new }
    ensures link { work.new.link.now ≡ work.old.link.now }
    ensures told { OnOk result (work.new.effects.now.list ≡ (work.old.effects.now.list ++ told.Session peer (name.Ended reason) ∷ []) ++ told.Closed peer ∷ []) }
{
    work.effects.list.push(Effect::Session {
        peer,
        state: StateName::Ended(reason),
    })?;
    work.effects.list.push(Effect::Closed { peer })
}
