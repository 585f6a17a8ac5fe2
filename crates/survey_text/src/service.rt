//! A service on the ground.
ghost use Rattle.std.specs.Prelude.{◌≡◌, ◌≤◌, ◌++◌, ◌&&◌, ℕ, IfOk, [], nat_lt};
ghost use Rattle.net_base.specs.plan.Accepted.{IsChecked};
ghost use Rattle.network_model.specs.State.{NetworkState};
ghost use Rattle.survey_reach.specs.{Ground.{IsGroundOf}, Reach.{HasBefallen, IsShapeOf}, Words.{has_pair, in_word}};
ghost use Rattle.survey_text.specs.{Cases.{changes_beside}, Relations.{are_apart, lose}};
ghost use Rattle.survey_text.specs.Surveys.{Case, IsLeft, IsOver, IsService, IsServiceOver};
ghost use Rattle.survey_text.specs.Text.{apart_text, found_text, lost_text, service_line, service_text};
ghost use Rattle.text_lines.specs.Written.{PutsOn};

use crate::change::{Change, pairs_less};
use crate::counting::count_pairs;
use crate::off::put_off;
use crate::over::{Over, OverService};
use crate::relation::{Relation, cut_edges};
use crate::sites::Sites;
use net_base::{Failed, NoMemory, Sink};
use survey_reach::{EdgePairs, FailedGround, Reaching, Shape};
use text_lines::{LineWord, Page};

/// A service: what the plan says of it, its sites, and whom each edge reaches before each case.
#[derive(Drop)]
pub struct Service {
    pub shape: Shape,
    pub sites: Sites,
    pub reach: EdgePairs,
}

// The pairs of any two edges, of so many, of which the second one is one of these.
#[tactic(auto, using(crate::proofs::ChangeLemmas::two_steps))]
fn all_pairs(at: u64, count: usize) -> EdgePairs
    requires { count ≤ 64 }
    ensures { (a b : ℕ) → has_pair result a b ≡ (nat_lt a count && in_word at b) }
{
    let mut pairs = EdgePairs::none();
    for edge in 0..count {
        pairs.set_row(edge, at);
    }
    pairs
}

impl Service {
    /// The service over the ground, on which no fault has befallen.
    pub fn new(over: Over<'_>, reaching: &mut Reaching, shape: Shape) -> Result<Service, NoMemory>
        ghost before: { NetworkState }
        requires over { IsOver before over }
        requires befallen { HasBefallen over.plan.now before [] reaching.old }
        requires shape { IsShapeOf over.plan.now shape.service shape }
        ensures is { IfOk result (IsService over.entry.plan.now before shape.service) }
        ensures befallen { HasBefallen over.entry.plan.now before [] reaching.new }
    {
        let unfailed = FailedGround {
            plan: over.plan,
            ground: over.ground,
            faults: &[],
        };
        let sites = Sites::of(over, shape.service);
        match reaching.of(unfailed, &shape) {
            Ok(reach) => Ok(Service {
                shape,
                sites,
                reach,
            }),
            Err(NoMemory) => {
                drop(shape);
                Err(NoMemory)
            }
        }
    }

    /// What faults that have befallen the ground change.
    #[tactic(auto, using(crate::proofs::ChangeLemmas::change_made))]
    pub fn change(
        &self,
        reaching: &mut Reaching,
        failed: FailedGround<'_>,
    ) -> Result<Change, NoMemory>
        ghost before: { NetworkState }
        requires checked { IsChecked failed.plan.now }
        requires ground { IsGroundOf failed.plan.now before failed.ground.now }
        requires befallen { HasBefallen failed.plan.now before failed.faults.now reaching.old }
        requires service { IsService failed.plan.now before self.now.shape.service self.now }
        ensures is { IfOk result (IsLeft failed.entry.plan.now before self.now.shape.service failed.entry.faults.now []) }
        ensures befallen { HasBefallen failed.entry.plan.now before failed.entry.faults.now reaching.new }
    {
        let now = reaching.of(failed, &self.shape)?;
        let count = failed.plan.edges.len();
        Ok(Change::between(&self.reach, &now, self.sites.at, count))
    }

    // The pairs of its sites that are apart.
    #[tactic(auto, using(crate::proofs::ChangeLemmas::apart_made))]
    fn apart(&self, over: Over<'_>) -> EdgePairs
        ghost before: { NetworkState }
        requires { IsServiceOver before over self.now }
        ensures { (a b : ℕ) → has_pair result a b ≡ are_apart over.entry.plan.now before self.now.shape.service a b }
    {
        let count = over.plan.edges.len();
        let all = all_pairs(self.sites.at, count);
        pairs_less(&all, &self.reach, self.sites.at, count)
    }

    // Puts its first line.
    #[tactic(auto, using(crate::proofs::TextLemmas::all_counted, crate::proofs::TextLemmas::apart_counted))]
    fn put_line<K: Sink>(
        &self,
        page: &mut Page,
        sink: &mut K,
        over: Over<'_>,
        apart: &EdgePairs,
    ) -> Result<(), Failed>
        ghost before: { NetworkState }
        requires service { IsServiceOver before over self.now }
        requires apart { (a b : ℕ) → has_pair apart.now a b ≡ are_apart over.plan.now before self.now.shape.service a b }
        ensures { PutsOn K.taken K.faults page.old page.new sink.old sink.new result (service_line over.entry.plan.now before self.now.shape.service) }
    {
        let edges = over.plan.edges.as_slice();
        let words = [
            LineWord::Text(over.name_of(self.shape.service)),
            LineWord::Labelled(b"sites=", self.sites.count(edges)),
            LineWord::Labelled(b"apart=", count_pairs(apart, &self.sites, edges)),
        ];
        page.put_line(sink, b"service", &words)
    }

    // Pairs of its edges, whose lines begin with a word, and those of them that are cut.
    fn relation<'a>(
        &self,
        over: Over<'a>,
        word: &'a [u8],
        pairs: &'a EdgePairs,
        cut: u64,
    ) -> Relation<'a>
        ensures of { result.of ≡ record { over = over.entry; service = self.now.shape.service } }
        ensures word { result.word.now ≡ word.now }
        ensures pairs { result.pairs.now ≡ pairs.now }
        ensures cut { result.cut ≡ cut }
    {
        let of = OverService {
            over,
            service: self.shape.service,
        };
        Relation {
            of,
            word,
            pairs,
            cut,
        }
    }

    // Puts the lines of its pairs of sites that are apart.
    #[tactic(auto, using(crate::proofs::TextLemmas::relation_over))]
    fn put_apart<K: Sink>(
        &self,
        page: &mut Page,
        sink: &mut K,
        over: Over<'_>,
        apart: &EdgePairs,
    ) -> Result<(), Failed>
        ghost before: { NetworkState }
        requires service { IsServiceOver before over self.now }
        requires apart { (a b : ℕ) → has_pair apart.now a b ≡ are_apart over.plan.now before self.now.shape.service a b }
        ensures { PutsOn K.taken K.faults page.old page.new sink.old sink.new result (apart_text over.entry.plan.now before self.now.shape.service) }
    {
        let edges = over.plan.edges.as_slice();
        let all = all_pairs(self.sites.at, edges.len());
        let cut = cut_edges(apart, &all, self.sites.at, edges);
        self.relation(over, b"apart", apart, cut).put(page, sink)
    }

    /// Puts the lines of the service before each case.
    pub fn put<K: Sink>(&self, page: &mut Page, sink: &mut K, over: Over<'_>) -> Result<(), Failed>
        ghost before: { NetworkState }
        requires { IsServiceOver before over self.now }
        ensures { PutsOn K.taken K.faults page.old page.new sink.old sink.new result (service_text over.entry.plan.now before self.now.shape.service) }
    {
        let apart = self.apart(over);
        let of = OverService {
            over,
            service: self.shape.service,
        };
        self.put_line(page, sink, over, &apart)?;
        put_off(page, sink, of)?;
        self.put_apart(page, sink, over, &apart)
    }

    // Puts the lines of the pairs of sites that lose each other in a case.
    #[tactic(auto, using(crate::proofs::TextLemmas::relation_over))]
    fn put_lost<K: Sink>(
        &self,
        page: &mut Page,
        sink: &mut K,
        over: Over<'_>,
        lost: &EdgePairs,
    ) -> Result<(), Failed>
        ghost case: { Case }
        requires service { IsServiceOver case.before over self.now }
        requires lost { (a b : ℕ) → has_pair lost.now a b ≡ changes_beside (lose over.plan.now case.before self.now.shape.service) case.faults [] a b }
        ensures { PutsOn K.taken K.faults page.old page.new sink.old sink.new result (lost_text over.entry.plan.now case.before case.faults self.now.shape.service) }
    {
        let edges = over.plan.edges.as_slice();
        let cut = cut_edges(lost, &self.reach, self.sites.at, edges);
        self.relation(over, b"lost", lost, cut).put(page, sink)
    }

    /// Puts the lines of the pairs that lose each other in a case, and of those that find each other.
    #[tactic(auto, using(crate::proofs::TextLemmas::relation_over))]
    pub fn put_change<K: Sink>(
        &self,
        page: &mut Page,
        sink: &mut K,
        over: Over<'_>,
        change: &Change,
    ) -> Result<(), Failed>
        ghost case: { Case }
        requires service { IsServiceOver case.before over self.now }
        requires change { IsLeft over.plan.now case.before self.now.shape.service case.faults [] change.now }
        ensures { PutsOn K.taken K.faults page.old page.new sink.old sink.new result (lost_text over.entry.plan.now case.before case.faults self.now.shape.service ++ found_text over.entry.plan.now case.before case.faults self.now.shape.service) }
    {
        match self.put_lost(page, sink, over, &change.lost) {
            Ok(()) => self
                .relation(over, b"found", &change.found, 0)
                .put(page, sink),
            Err(fault) => Err(fault),
        }
    }
}
