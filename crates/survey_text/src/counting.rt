//! How many pairs of sites.
ghost use Rattle.std.specs.Prelude.{◌≡◌, ◌<◌, ◌≤◌, ◌+◌, ◌*◌, drop, length, if◌then◌else◌};
ghost use Rattle.survey_reach.specs.Words.{has_pair, in_word};
ghost use Rattle.survey_text.specs.{Relations.{pairs_where, sites_where}, Surveys.{count_in}};

use crate::sites::Sites;
use net_base::EdgePlan;
use survey_reach::{EdgePairs, has_bit};

// How many sites stand at an edge that is one of these.
fn at_one(row: u64, sites: &Sites, edge: usize) -> u64
    requires { edge < 64 }
    ensures is { result ≡ (if in_word row edge then count_in sites.now edge else 0) }
    ensures few { result ≤ 65535 }
{
    if has_bit(row, edge) {
        u64::from(sites.counts[edge])
    } else {
        0
    }
}

// How many sites stand at these edges from a place on.
#[tactic(auto, using(crate::proofs::EdgeLemmas::sites_step))]
fn behind(row: u64, sites: &Sites, edges: &[EdgePlan], from: usize) -> u64
    requires few { length edges.now ≤ 64 }
    requires from { from ≤ length edges.now }
    ensures is { result ≡ sites_where (count_in sites.now) (in_word row) from (drop from edges.now) }
    ensures most { result ≤ 4194240 }
{
    let mut sum = 0u64;
    for edge in from..edges.len() {
        sum += at_one(row, sites, edge);
    }
    sum
}

// How many pairs of sites stand at an edge and at these behind it.
#[tactic(auto, using(crate::proofs::CountLemmas::product_fits, crate::proofs::CountLemmas::none_behind))]
fn in_row(row: u64, sites: &Sites, edges: &[EdgePlan], edge: usize) -> u64
    requires few { length edges.now ≤ 64 }
    requires edge { edge < length edges.now }
    ensures is { result ≡ count_in sites.now edge * sites_where (count_in sites.now) (in_word row) (edge + 1) (drop (edge + 1) edges.now) }
    ensures most { result ≤ 274869518400 }
{
    if row == 0 {
        return 0;
    }
    u64::from(sites.counts[edge]) * behind(row, sites, edges, edge + 1)
}

/// How many pairs of sites stand at the pairs of edges.
#[tactic(auto, using(crate::proofs::EdgeLemmas::pairs_step, crate::proofs::EdgeLemmas::sites_same))]
pub fn count_pairs(pairs: &EdgePairs, sites: &Sites, edges: &[EdgePlan]) -> u64
    requires { length edges.now ≤ 64 }
    ensures is { result ≡ pairs_where (count_in sites.now) (has_pair pairs.now) 0 edges.now }
    ensures most { result ≤ 17591649177600 }
{
    let mut sum = 0u64;
    for edge in 0..edges.len() {
        sum += in_row(pairs.row(edge), sites, edges, edge);
    }
    sum
}
