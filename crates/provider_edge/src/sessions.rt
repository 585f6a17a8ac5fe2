//! What an edge keeps of its neighbours.
ghost use Rattle.std.specs.Prelude.{◌≡◌, ◌≤◌, ◌<◌, ◌==◌, ◌||◌, [], ℕ, IfOk, IfSome, None, false, if◌then◌else◌, length, map, min, nat_lt, not, option_copied, option_map, replicate, slice_index_or, slice_set, true};
ghost use Rattle.std.specs.List.{list_all};
ghost use Rattle.pw_ends.specs.Marks.{is_marked};
ghost use Rattle.edge_model.specs.{Hear.{was_up}, State.{is_there}};
ghost use Rattle.peer_dialogue.specs.Peering.{gone, held_octets, peering_later, session_name};
ghost use Rattle.provider_edge.specs.{Sessions.{AreStanding, all_later, holding, least_quiet, longest_of, quiet_for}};

use net_base::{EdgeId, NoMemory, StateName};
use peer_dialogue::{Held, Peering};
use pw_ends::PeerMarks;
use std::alloc::Global;
use std::marker::Model;

/// What an edge keeps of each edge of the plan, where its end of their connection stands. Ticks at which no session has anything to do are
/// counted once for all of them; before one changes, each counts them. Contracts see a list by the plan's places.
#[derive(Drop)]
pub struct Sessions {
    kept: Vec<Option<Peering>>,
    // The neighbours of which something is kept.
    standing: PeerMarks,
    // Ticks that have passed and that no session has counted.
    passed: u64,
    // How many more may pass before a session has anything to do.
    spare: u64,
}

impl Model for Sessions {
    ghost use Rattle.std.specs.Prelude.{List as Items, Option};
    ghost use Rattle.edge_model.specs.State.{Peering as Kept};
    ghost use Rattle.provider_edge.specs.Sessions.{AreWatched, all_later};

    ghost Value = { Items (Option Kept) };

    ghost view = { λ s. all_later s.passed s.kept.items };

    ghost invariant = { λ s. AreWatched s.standing s.passed s.spare s.kept.items };
}

impl Sessions {
    /// Nothing is kept of so many edges.
    #[tactic(auto, using(crate::proofs::SessionsLemmas::later_nothing, crate::proofs::SessionsLemmas::watched_first))]
    pub(crate) fn open(alloc: Global, count: usize) -> Result<Sessions, NoMemory>
        ensures { IfOk result (λ sessions. sessions ≡ replicate count None) }
    {
        Ok(Sessions {
            kept: none_kept(alloc, count)?,
            standing: PeerMarks::new(),
            passed: 0,
            spare: 0,
        })
    }

    /// How many edges the plan has.
    #[inline(always)]
    #[tactic(auto, using(crate::proofs::SessionsLemmas::length_later))]
    pub(crate) fn len(&self) -> usize
        ensures { result ≡ length self.now }
    {
        self.kept.len()
    }

    /// Whether something is kept of a neighbour.
    #[inline(always)]
    #[tactic(auto, using(crate::proofs::SessionsLemmas::there_at))]
    pub(crate) fn has(&self, peer: EdgeId) -> bool
        ensures { result ≡ is_there (slice_index_or self.now peer.0 None) }
    {
        look(&self.kept, peer).is_some()
    }

    /// The name of the state of the session with a neighbour.
    #[tactic(auto, using(crate::proofs::SessionsLemmas::name_at))]
    pub(crate) fn state(&self, peer: EdgeId) -> StateName
        ensures { result ≡ session_name (slice_index_or self.now peer.0 None) }
    {
        match look(&self.kept, peer) {
            Some(peering) => peering.state(),
            None => StateName::NonExistent,
        }
    }

    /// Whether the session with a neighbour is up.
    #[inline(always)]
    #[tactic(auto, using(crate::proofs::SessionsLemmas::up_at))]
    pub(crate) fn is_up(&self, peer: EdgeId) -> bool
        ensures { result ≡ was_up (slice_index_or self.now peer.0 None) }
    {
        match look(&self.kept, peer) {
            Some(peering) => peering.is_up(),
            None => false,
        }
    }

    /// The most that a PDU Length of a neighbour may be.
    #[inline(always)]
    #[tactic(auto, using(crate::proofs::SessionsLemmas::longest_at))]
    pub(crate) fn max_pdu(&self, peer: EdgeId) -> Option<u16>
        ensures value { result ≡ longest_of (slice_index_or self.now peer.0 None) }
        ensures least { IfSome result (λ max. 256 ≤ max) }
        ensures longest { IfSome result (λ max. max ≤ 4096) }
    {
        match look(&self.kept, peer) {
            Some(peering) => Some(peering.max_pdu()),
            None => None,
        }
    }

    /// How many octets of a neighbour are held.
    #[tactic(auto, using(crate::proofs::SessionsLemmas::held_at))]
    pub(crate) fn held(&self, peer: EdgeId) -> usize
        ensures count { result ≡ length (held_octets (slice_index_or self.now peer.0 None)) }
        ensures within { result ≤ 4100 }
    {
        match look(&self.kept, peer) {
            Some(peering) => peering.held(),
            None => 0,
        }
    }

    /// Whether nothing is kept of any neighbour.
    #[tactic(auto, using(crate::proofs::SessionsLemmas::empty_later))]
    pub(crate) fn is_empty(&self) -> bool
        ensures { result ≡ list_all (λ kept. not (is_there kept)) self.now }
    {
        is_none_kept(&self.kept)
    }

    /// The neighbours of which something is kept have a mark.
    #[tactic(auto, using(crate::proofs::SessionsLemmas::standing_later))]
    pub(crate) fn standing(&self) -> PeerMarks
        ensures { AreStanding result self.now }
    {
        self.standing
    }

    /// Takes out what is kept of a neighbour.
    pub(crate) fn take(&mut self, peer: EdgeId) -> Option<Peering>
        requires { peer.0 < length self.old }
        ensures taken { result ≡ slice_index_or self.old peer.0 None }
        ensures rest { self.new ≡ slice_set self.old peer.0 None }
    {
        pass_all(&mut self.kept, self.passed);
        self.passed = 0;
        self.standing = self.standing.without(peer);
        self.kept[peer.0 as usize].take()
    }

    /// Keeps this of a neighbour, or nothing any more.
    pub(crate) fn put(&mut self, peer: EdgeId, kept: Option<Peering>)
        requires { peer.0 < length self.old }
        ensures { self.new ≡ slice_set self.old peer.0 kept }
    {
        pass_all(&mut self.kept, self.passed);
        self.passed = 0;
        self.spare = with_one(self.spare, &kept);
        self.standing = with_kept(self.standing, peer, &kept);
        self.kept[peer.0 as usize] = kept;
    }

    /// Takes out the octets that are held of a neighbour, so that none are, where something is kept of it.
    pub(crate) fn take_held(&mut self, peer: EdgeId) -> Option<Held>
        requires { peer.0 < length self.old }
        ensures taken { result ≡ option_map (λ kept. kept.held) (slice_index_or self.old peer.0 None) }
        ensures rest { self.new ≡ slice_set self.old peer.0 (holding [] (slice_index_or self.old peer.0 None)) }
    {
        pass_all(&mut self.kept, self.passed);
        self.passed = 0;
        take_held(&mut self.kept[peer.0 as usize])
    }

    /// Holds octets of a neighbour, where something is kept of it.
    pub(crate) fn hold(&mut self, peer: EdgeId, held: Held)
        requires { peer.0 < length self.old }
        ensures { self.new ≡ slice_set self.old peer.0 (holding held (slice_index_or self.old peer.0 None)) }
    {
        pass_all(&mut self.kept, self.passed);
        self.passed = 0;
        hold(&mut self.kept[peer.0 as usize], held);
    }

    /// Nothing is kept of any neighbour.
    pub(crate) fn clear(&mut self)
        ensures { self.new ≡ map gone self.old }
    {
        self.passed = 0;
        self.standing = PeerMarks::new();
        drop_all(&mut self.kept);
    }

    /// A tick passes, where it is known that no session has anything to do at it; false where it is not.
    pub(crate) fn pass_quietly(&mut self) -> bool
        ensures quiet { result ≡ true → 1 ≤ least_quiet self.old }
        ensures later { result ≡ true → self.new ≡ all_later 1 self.old }
        ensures stays { result ≡ false → self.new ≡ self.old }
    {
        if self.spare == 0 {
            return false;
        }
        self.spare -= 1;
        self.passed += 1;
        true
    }

    /// Finds how many ticks may pass before a session has anything to do. It walks over all of them, so it is asked behind a tick that did.
    pub(crate) fn look_ahead(&mut self)
        ensures { self.new ≡ self.old }
    {
        pass_all(&mut self.kept, self.passed);
        self.passed = 0;
        self.spare = least_quiet(&self.kept);
    }
}

// Nothing of so many edges.
#[tactic(auto, using(edge_forwarding::proofs::EachLemmas::one_more))]
fn none_kept(alloc: Global, count: usize) -> Result<Vec<Option<Peering>>, NoMemory>
    ensures { IfOk result (λ kept. kept.items ≡ replicate count None) }
{
    let mut all = Vec::with_capacity(alloc, count)?;
    for _place in 0..count {
        all.push(None)?;
    }
    Ok(all)
}

// What is kept of a neighbour, as it was before the ticks that it has not counted.
#[inline(always)]
fn look(kept: &[Option<Peering>], peer: EdgeId) -> Option<&Peering>
    ensures { option_copied result ≡ slice_index_or kept.now peer.0 None }
{
    match kept.get(peer.0 as usize) {
        Some(Some(peering)) => Some(peering),
        Some(None) | None => None,
    }
}

// Takes out the octets that are held, where something is kept.
fn take_held(kept: &mut Option<Peering>) -> Option<Held>
    ensures taken { result ≡ option_map (λ kept. kept.held) kept.old }
    ensures rest { kept.new ≡ holding [] kept.old }
{
    match kept {
        Some(peering) => Some(peering.take_held()),
        None => None,
    }
}

// Holds octets, where something is kept.
fn hold(kept: &mut Option<Peering>, held: Held)
    ensures { kept.new ≡ holding held kept.old }
{
    if let Some(peering) = kept {
        peering.hold(held);
    }
}

// Whether nothing is kept of any neighbour. A test by a closure is proved where it stands alone.
fn is_none_kept(kept: &[Option<Peering>]) -> bool
    ensures { result ≡ list_all (λ kept. not (is_there kept)) kept.now }
{
    kept.iter().all(|one| one.is_none())
}

// Each session counts so many ticks.
#[inline(always)]
#[tactic(auto, using(edge_forwarding::proofs::EachLemmas::each_next, crate::proofs::SessionsLemmas::later_none, crate::proofs::SessionsLemmas::quiet_at))]
fn pass_all(kept: &mut Vec<Option<Peering>>, ticks: u64)
    requires { ticks ≤ least_quiet kept.old.items }
    ensures { kept.new.items ≡ all_later ticks kept.old.items }
{
    if ticks == 0 {
        return;
    }
    for one in kept.iter_mut() {
        pass_one(one, ticks);
    }
}

// A session counts them, where one stands.
fn pass_one(kept: &mut Option<Peering>, ticks: u64)
    requires { ticks ≤ quiet_for kept.old }
    ensures { kept.new ≡ option_map (peering_later ticks) kept.old }
{
    if let Some(peering) = kept {
        peering.pass(ticks);
    }
}

// How many ticks may pass before the session has anything to do.
fn quiet_for(kept: &Option<Peering>) -> u64
    ensures { result ≡ quiet_for kept.now }
{
    match kept {
        Some(peering) => peering.quiet(),
        None => u64::MAX,
    }
}

// How many ticks of so many may pass, with this session. Where none may it is not asked.
#[inline(always)]
fn with_one(spare: u64, kept: &Option<Peering>) -> u64
    ensures { result ≡ min spare (quiet_for kept.now) }
{
    if spare == 0 {
        return 0;
    }
    spare.min(quiet_for(kept))
}

// How many ticks may pass before any session has anything to do.
#[tactic(auto, using(crate::proofs::SessionsLemmas::least_first, crate::proofs::SessionsLemmas::least_last))]
fn least_quiet(kept: &[Option<Peering>]) -> u64
    ensures { result ≡ least_quiet kept.now }
{
    let mut least = u64::MAX;
    for one in kept {
        least = least.min(quiet_for(one));
    }
    least
}

// The marks with that of a neighbour, where something is kept of it, and else without.
#[inline(always)]
fn with_kept(standing: PeerMarks, peer: EdgeId, kept: &Option<Peering>) -> PeerMarks
    ensures { (k : ℕ) → is_marked result k ≡ (if k == peer.0 then is_there kept.now || not (nat_lt k 64) else is_marked standing k) }
{
    match kept {
        Some(_) => standing.with(peer),
        None => standing.without(peer),
    }
}

// Nothing is kept of any neighbour.
#[tactic(auto, using(edge_forwarding::proofs::EachLemmas::each_next))]
fn drop_all(kept: &mut Vec<Option<Peering>>)
    ensures { kept.new.items ≡ map gone kept.old.items }
{
    for one in kept.iter_mut() {
        *one = None;
    }
}
