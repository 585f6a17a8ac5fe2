//! The lines of the pairs of sites that lost or found each other, or are apart.
ghost use Rattle.std.specs.Prelude.{◌≡◌, ◌<◌, ◌≤◌, ◌+◌, ◌&&◌, not, ℕ, codes, drop, length, nat_lt};
ghost use Rattle.network_model.specs.State.{NetworkState};
ghost use Rattle.survey_reach.specs.Words.{has_pair, in_word};
ghost use Rattle.survey_text.specs.Relations.{is_cut};
ghost use Rattle.survey_text.specs.Surveys.{IsOver, is_whole};
ghost use Rattle.survey_text.specs.Text.{are_left, cut_line, names_line, names_where, relation_text, row_line, row_lines, sites_line};
ghost use Rattle.text_lines.specs.Written.{PutsOn};

use crate::edges::{has_any, only};
use crate::over::OverService;
use crate::sites::{put_at, put_sites};
use crate::words::{put_end, put_head};
use net_base::{EdgePlan, Failed, Sink};
use survey_reach::{EdgePairs, has_bit, in_both, with_bit, without};
use text_lines::Page;

// Whether an edge is a pair with some, and with each of these but itself with which it is one by a whole relation.
#[tactic(auto, using(crate::proofs::EdgeLemmas::any_same))]
fn is_cut(pairs: &EdgePairs, whole: &EdgePairs, at: u64, edges: &[EdgePlan], edge: usize) -> bool
    requires few { length edges.now ≤ 64 }
    requires edge { edge < 64 }
    ensures { result ≡ is_cut edges.now (has_pair pairs.now) (is_whole whole.now at) edge }
{
    has_any(pairs.row(edge), edges, 0) && !has_any(left_of(pairs, whole, at, edge), edges, 0)
}

// The other edges of some that are a pair with an edge by a whole relation, and not by another one.
fn left_of(pairs: &EdgePairs, whole: &EdgePairs, at: u64, edge: usize) -> u64
    requires { edge < 64 }
    ensures { (k : ℕ) → in_word result k ≡ (is_whole whole.now at edge k && not (has_pair pairs.now edge k)) }
{
    let others = without(in_both(whole.row(edge), at), only(edge));
    without(others, pairs.row(edge))
}

/// The edges that are a pair with some, and with each other one with which they are by a whole relation.
#[tactic(auto, using(crate::proofs::EdgeLemmas::cut_start, crate::proofs::EdgeLemmas::cut_more, crate::proofs::EdgeLemmas::cut_other, crate::proofs::EdgeLemmas::cut_end))]
pub fn cut_edges(pairs: &EdgePairs, whole: &EdgePairs, at: u64, edges: &[EdgePlan]) -> u64
    requires few { length edges.now ≤ 64 }
    ensures { (k : ℕ) → in_word result k ≡ (nat_lt k (length edges.now) && is_cut edges.now (has_pair pairs.now) (is_whole whole.now at) k) }
{
    let mut cut = 0;
    for edge in 0..edges.len() {
        if is_cut(pairs, whole, at, edges, edge) {
            cut = with_bit(cut, edge);
        }
    }
    cut
}

/// Pairs of edges of a service, by the word with which their lines begin, and the edges of them that are cut.
#[derive(Clone, Copy)]
pub struct Relation<'a> {
    pub of: OverService<'a>,
    pub word: &'a [u8],
    pub pairs: &'a EdgePairs,
    pub cut: u64,
}

impl Relation<'_> {
    // Puts the line of the edges that are cut.
    fn put_cut_line<K: Sink>(self, page: &mut Page, sink: &mut K) -> Result<(), Failed>
        ghost before: { NetworkState }
        requires over { IsOver before self.of.over }
        ensures { PutsOn K.taken K.faults page.old page.new sink.old sink.new result (names_line self.entry.of.over.plan.now self.entry.of.service (codes "cut") (names_where self.entry.of.over.plan.now before self.entry.of.service (in_word self.entry.cut) 0 self.entry.of.over.plan.now.edges)) }
    {
        put_head(page, sink, self.of, b"cut")?;
        put_sites(page, sink, self.of, self.cut, 0)?;
        put_end(page, sink)
    }

    // The edges that are a pair with an edge, where neither is cut.
    #[tactic(auto, using(survey_reach::proofs::WordLemmas::none_in_zero))]
    fn others(self, edge: usize) -> u64
        requires { edge < 64 }
        ensures { (k : ℕ) → in_word result k ≡ are_left (has_pair self.entry.pairs.now) (in_word self.entry.cut) edge k }
    {
        if has_bit(self.cut, edge) {
            0
        } else {
            without(self.pairs.row(edge), self.cut)
        }
    }

    // Puts the line of an edge and of some behind it.
    fn put_line<K: Sink>(
        self,
        page: &mut Page,
        sink: &mut K,
        edge: usize,
        others: u64,
    ) -> Result<(), Failed>
        ghost before: { NetworkState }
        requires over { IsOver before self.of.over }
        requires edge { edge < length self.of.over.plan.now.edges }
        ensures { PutsOn K.taken K.faults page.old page.new sink.old sink.new result (sites_line self.entry.of.over.plan.now before self.entry.of.service self.entry.word.now (in_word others) edge (drop (edge + 1) self.entry.of.over.plan.now.edges)) }
    {
        put_head(page, sink, self.of, self.word)?;
        put_at(page, sink, self.of, edge)?;
        page.put(sink, b" :")?;
        put_sites(page, sink, self.of, others, edge + 1)?;
        put_end(page, sink)
    }

    // Puts the line of an edge, where it is a pair with some behind it.
    #[tactic(auto, using(text_lines::proofs::WrittenLemmas::goes_none))]
    fn put_row<K: Sink>(self, page: &mut Page, sink: &mut K, edge: usize) -> Result<(), Failed>
        ghost before: { NetworkState }
        requires over { IsOver before self.of.over }
        requires edge { edge < length self.of.over.plan.now.edges }
        ensures { PutsOn K.taken K.faults page.old page.new sink.old sink.new result (row_line self.entry.of.over.plan.now before self.entry.of.service self.entry.word.now (are_left (has_pair self.entry.pairs.now) (in_word self.entry.cut) edge) edge (drop (edge + 1) self.entry.of.over.plan.now.edges)) }
    {
        let others = self.others(edge);
        if has_any(others, self.of.over.plan.edges.as_slice(), edge + 1) {
            self.put_line(page, sink, edge, others)
        } else {
            Ok(())
        }
    }

    // Puts those of all edges.
    fn put_rows<K: Sink>(self, page: &mut Page, sink: &mut K) -> Result<(), Failed>
        ghost before: { NetworkState }
        requires over { IsOver before self.of.over }
        ensures { PutsOn K.taken K.faults page.old page.new sink.old sink.new result (row_lines self.entry.of.over.plan.now before self.entry.of.service self.entry.word.now (are_left (has_pair self.entry.pairs.now) (in_word self.entry.cut)) 0 self.entry.of.over.plan.now.edges) }
    {
        for edge in 0..self.of.over.plan.edges.len() {
            self.put_row(page, sink, edge)?;
        }
        Ok(())
    }

    /// Puts its lines: first the edges that are cut, and then of each other one the later ones that are a pair with it.
    #[tactic(auto, using(text_lines::proofs::WrittenLemmas::puts_two, text_lines::proofs::WrittenLemmas::cut_first, text_lines::proofs::WrittenLemmas::goes_none))]
    pub fn put<K: Sink>(self, page: &mut Page, sink: &mut K) -> Result<(), Failed>
        ghost before: { NetworkState }
        requires over { IsOver before self.of.over }
        ensures { PutsOn K.taken K.faults page.old page.new sink.old sink.new result (relation_text self.entry.of.over.plan.now before self.entry.of.service self.entry.word.now (has_pair self.entry.pairs.now) (in_word self.entry.cut)) }
    {
        if !has_any(self.cut, self.of.over.plan.edges.as_slice(), 0) {
            return self.put_rows(page, sink);
        }
        match self.put_cut_line(page, sink) {
            Ok(()) => self.put_rows(page, sink),
            Err(fault) => Err(fault),
        }
    }
}
