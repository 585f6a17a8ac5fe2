//! What is counted of the cases.
ghost use Rattle.std.specs.Prelude.{◌≡◌, ◌++◌, OnOk, codes};
ghost use Rattle.survey_text.specs.{Surveys.{tallied}, Text.{case_end, count_head, counted, end_line, end_text, no_cases, worst_line}};
ghost use Rattle.text_lines.specs.Written.{PutsOn};

use crate::case_words::put_case_words;
use crate::words::put_count;
use net_base::{Failed, NoMemory, Plan, Sink};
use std::alloc::Global;
use survey_laws::Fault;
use text_lines::{LineWord, Page};

/// How many cases there were, how many lose a pair and how many are told, and the first case that loses the most. A count stands still at
/// the greatest number that it holds.
#[derive(Drop)]
pub struct Tally {
    cases: u64,
    split: u64,
    told: u64,
    worst: u64,
    worst_case: Vec<Fault>,
}

// Puts the line of a case that loses so many pairs.
fn put_worst_line<K: Sink>(
    page: &mut Page,
    sink: &mut K,
    plan: &Plan,
    lost: u64,
    faults: &[Fault],
) -> Result<(), Failed>
    ensures { PutsOn K.taken K.faults page.old page.new sink.old sink.new result (count_head (codes "worst") lost ++ case_end plan.now faults.now) }
{
    match put_count(page, sink, b"worst", lost) {
        Ok(()) => put_case_words(page, sink, plan, faults),
        Err(fault) => Err(fault),
    }
}

impl Tally {
    /// No case yet.
    pub fn new(alloc: Global) -> Tally
        ensures { tallied result ≡ no_cases }
    {
        Tally {
            cases: 0,
            split: 0,
            told: 0,
            worst: 0,
            worst_case: Vec::new(alloc),
        }
    }

    /// Counts a case that loses so many pairs, and is told or not.
    pub fn add(
        &mut self,
        alloc: Global,
        faults: &[Fault],
        lost: u64,
        told: bool,
    ) -> Result<(), NoMemory>
        ensures { OnOk result (tallied self.new ≡ counted faults.now lost told (tallied self.old)) }
    {
        self.cases = self.cases.saturating_add(1);
        if lost > 0 {
            self.split = self.split.saturating_add(1);
        }
        if told {
            self.told = self.told.saturating_add(1);
        }
        if lost > self.worst {
            self.worst = lost;
            self.worst_case = Vec::from_slice(alloc, faults)?;
        }
        Ok(())
    }

    // Puts the line of the worst case, where a case loses a pair.
    #[tactic(auto, using(text_lines::proofs::WrittenLemmas::goes_none))]
    fn put_worst<K: Sink>(&self, page: &mut Page, sink: &mut K, plan: &Plan) -> Result<(), Failed>
        ensures { PutsOn K.taken K.faults page.old page.new sink.old sink.new result (worst_line plan.now (tallied self.now)) }
    {
        if self.worst > 0 {
            put_worst_line(page, sink, plan, self.worst, self.worst_case.as_slice())
        } else {
            Ok(())
        }
    }

    // Puts the last line.
    fn put_end<K: Sink>(&self, page: &mut Page, sink: &mut K, faults: usize) -> Result<(), Failed>
        ensures { PutsOn K.taken K.faults page.old page.new sink.old sink.new result (end_line faults (tallied self.now)) }
    {
        let words = [
            LineWord::Labelled(b"faults=", faults as u64),
            LineWord::Labelled(b"cases=", self.cases),
            LineWord::Labelled(b"split=", self.split),
            LineWord::Labelled(b"told=", self.told),
        ];
        page.put_line(sink, b"end", &words)
    }

    /// Puts the last lines.
    pub fn put<K: Sink>(
        &self,
        page: &mut Page,
        sink: &mut K,
        plan: &Plan,
        faults: usize,
    ) -> Result<(), Failed>
        ensures { PutsOn K.taken K.faults page.old page.new sink.old sink.new result (end_text plan.now faults (tallied self.now)) }
    {
        match self.put_worst(page, sink, plan) {
            Ok(()) => self.put_end(page, sink, faults),
            Err(fault) => Err(fault),
        }
    }
}
