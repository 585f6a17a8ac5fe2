//! The sites of a service: its circuits that are on, by their edges.
ghost use Rattle.std.specs.Prelude.{◌≡◌, ◌<◌, ◌≤◌, ◌==◌, ◌||◌, ℕ, drop, false, length, nat_lt, slice_get, true, if◌then◌else◌};
ghost use Rattle.network_model.specs.State.{NetworkState};
ghost use Rattle.survey_reach.specs.Words.{in_word};
ghost use Rattle.survey_text.specs.{Relations.{count_sites, sites_where}, Surveys.{AreSites, IsOver, count_in}, Text.{name_at, names_at, names_if, names_where}};
ghost use Rattle.text_lines.specs.Written.{PutsOn};
ghost use Rattle.text_pieces.specs.Pieces.{spaced};

use crate::over::{Over, OverService};
use net_base::{EdgePlan, Failed, ServiceId, Sink};
use survey_reach::{has_bit, with_bit};
use text_lines::{LineWord, Page};

/// How many sites a service has at each edge, and the edges that have some.
#[derive(Clone, Copy)]
pub struct Sites {
    pub counts: [u16; 64],
    pub at: u64,
}

// How many sites the service has at an edge.
#[tactic(auto, using(crate::proofs::SiteLemmas::sites_step, crate::proofs::SiteLemmas::few_circuits))]
fn count_at(over: Over<'_>, service: ServiceId, edge: usize) -> u16
    ghost before: { NetworkState }
    requires over { IsOver before over }
    ensures { result ≡ count_sites over.entry.plan.now before service edge }
{
    let mut count = 0u16;
    for circuit in 0..over.plan.circuits.len() {
        if over.is_site(service, edge, circuit) {
            count += 1;
        }
    }
    count
}

impl Sites {
    // No sites.
    fn none() -> Sites
        ensures counts { (edge : ℕ) → count_in result edge ≡ 0 }
        ensures at { (edge : ℕ) → in_word result.at edge ≡ false }
    {
        Sites {
            counts: [0; 64],
            at: 0,
        }
    }

    // Adds the sites of an edge that had none so far.
    fn add(&mut self, edge: usize, count: u16)
        requires { edge < 64 }
        ensures counts { (k : ℕ) → count_in self.new k ≡ (if k == edge then count else count_in self.old k) }
        ensures at { (k : ℕ) → in_word self.new.at k ≡ (if k == edge then nat_lt 0 count || in_word self.old.at k else in_word self.old.at k) }
    {
        self.counts[edge] = count;
        if count > 0 {
            self.at = with_bit(self.at, edge);
        }
    }

    /// The sites of a service.
    #[tactic(auto, using(crate::proofs::SiteLemmas::sites_start, crate::proofs::SiteLemmas::sites_more, crate::proofs::SiteLemmas::sites_all))]
    pub fn of(over: Over<'_>, service: ServiceId) -> Sites
        ghost before: { NetworkState }
        requires over { IsOver before over }
        ensures { AreSites over.entry.plan.now before service result }
    {
        let mut sites = Sites::none();
        for edge in 0..over.plan.edges.len() {
            sites.add(edge, count_at(over, service, edge));
        }
        sites
    }

    /// How many there are at these edges.
    #[tactic(auto, using(crate::proofs::EdgeLemmas::sites_step))]
    pub fn count(&self, edges: &[EdgePlan]) -> u64
        requires { length edges.now ≤ 64 }
        ensures { result ≡ sites_where (count_in self.now) (λ edge. true) 0 edges.now }
    {
        let mut sum = 0u64;
        for edge in 0..edges.len() {
            sum += u64::from(self.counts[edge]);
        }
        sum
    }
}

// Puts the name of a circuit behind a blank, where it is a site at an edge.
fn put_site<K: Sink>(
    page: &mut Page,
    sink: &mut K,
    of: OverService<'_>,
    edge: usize,
    circuit: usize,
) -> Result<(), Failed>
    ghost before: { NetworkState }
    requires over { IsOver before of.over }
    ensures { PutsOn K.taken K.faults page.old page.new sink.old sink.new result (spaced (name_at before of.entry.service edge circuit (slice_get of.entry.over.plan.now.circuits circuit))) }
{
    match of.over.plan.circuits.get(circuit) {
        Some(row) => {
            if of.over.is_site_at(of.service, edge, circuit, row) {
                page.put_next(sink, LineWord::Text(row.name.as_slice()))
            } else {
                Ok(())
            }
        }
        None => Ok(()),
    }
}

/// Puts the names of the sites at an edge, a blank before each.
pub fn put_at<K: Sink>(
    page: &mut Page,
    sink: &mut K,
    of: OverService<'_>,
    edge: usize,
) -> Result<(), Failed>
    ghost before: { NetworkState }
    requires over { IsOver before of.over }
    ensures { PutsOn K.taken K.faults page.old page.new sink.old sink.new result (spaced (names_at before of.entry.service edge 0 of.entry.over.plan.now.circuits)) }
{
    for circuit in 0..of.over.plan.circuits.len() {
        put_site(page, sink, of, edge, circuit)?;
    }
    Ok(())
}

// Puts those at an edge that is one of these.
fn put_if<K: Sink>(
    page: &mut Page,
    sink: &mut K,
    of: OverService<'_>,
    edges: u64,
    edge: usize,
) -> Result<(), Failed>
    ghost before: { NetworkState }
    requires over { IsOver before of.over }
    requires edge { edge < 64 }
    ensures { PutsOn K.taken K.faults page.old page.new sink.old sink.new result (spaced (names_if of.entry.over.plan.now before of.entry.service (in_word edges) edge)) }
{
    if has_bit(edges, edge) {
        put_at(page, sink, of, edge)
    } else {
        Ok(())
    }
}

/// Puts the names of the sites at those of these edges that stand from a place on, a blank before each.
pub fn put_sites<K: Sink>(
    page: &mut Page,
    sink: &mut K,
    of: OverService<'_>,
    edges: u64,
    from: usize,
) -> Result<(), Failed>
    ghost before: { NetworkState }
    requires over { IsOver before of.over }
    requires from { from ≤ length of.over.plan.now.edges }
    ensures { PutsOn K.taken K.faults page.old page.new sink.old sink.new result (spaced (names_where of.entry.over.plan.now before of.entry.service (in_word edges) from (drop from of.entry.over.plan.now.edges))) }
{
    for edge in from..of.over.plan.edges.len() {
        put_if(page, sink, of, edges, edge)?;
    }
    Ok(())
}
