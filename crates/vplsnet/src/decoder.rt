//! A stream whose messages are written as lines.
ghost use Rattle.std.specs.Prelude.{◌≡◌, ◌<◌, ◌^◌, [], None, length, IfErr, IfOk, OnOk};
ghost use Rattle.ldp_stream.specs.{Front.{IsPending}, State.{empty}};
ghost use Rattle.text_lines.specs.Written.{lines_written};
ghost use Rattle.vplsnet.specs.StreamSteps.{IsStreamGoing, IsStopped, LeavesSome, StopsIn, TakesOne, TextGoesOn};
ghost use Rattle.vplsnet.specs.{StreamText.{largest_pdu}, Writing.{EndsStream}};

use crate::outcome::Outcome;
use crate::stream_stop::StreamStop;
use crate::stream_text::{flush_page, outcome_at, outcome_with, piece_at, put_front, write_front};
use ldp_stream::Stream;
use net_base::{NoMemory, Sink};
use std::alloc::Global;
use text_lines::Page;

/// A stream that is fed in pieces, the lines of the PDU that was taken last, and the page in which lines wait.
#[derive(Drop)]
pub struct Decoder {
    /// The octets that were fed and not yet given up, at most as many as the longest PDU has.
    pub stream: Stream,
    /// The lines of one PDU. Its room is used again for each.
    pub lines: Vec<u8>,
    /// The lines that wait.
    pub page: Page,
}

impl Decoder {
    /// A decoder of which nothing came yet, with the memory for its page.
    pub fn new(alloc: Global) -> Result<Decoder, NoMemory>
        ensures stream { IfOk result (λ decoder. decoder.stream ≡ empty) }
        ensures page { IfOk result (λ decoder. decoder.page ≡ []) }
    {
        Ok(Decoder {
            stream: Stream::new(alloc)?,
            lines: Vec::new(alloc),
            page: Page::new(alloc)?,
        })
    }

    // Writes the lines of the messages of the PDU in front, and gives it up; `false` where none stands there whole. `fed` is how many
    // octets were fed.
    #[tactic(auto, using(crate::proofs::StreamLemmas::takes_none, crate::proofs::StreamLemmas::takes_pdu))]
    fn take_pdu<K: Sink>(
        &mut self,
        alloc: Global,
        fed: u64,
        sink: &mut K,
    ) -> Result<bool, StreamStop>
        requires going { IsStreamGoing self.old.stream fed }
        ensures taken { IfOk result (λ more. TakesOne more self.old.stream self.new.stream (lines_written (K.taken sink.old) (K.faults sink.old) self.old.page) (lines_written (K.taken sink.new) (K.faults sink.new) self.new.page)) }
        ensures stopped { IfErr result (λ stop. IsStopped stop self.old.stream (lines_written (K.taken sink.old) (K.faults sink.old) self.old.page) (lines_written (K.taken sink.new) (K.faults sink.new) self.new.page)) }
    {
        self.lines.truncate(0);
        match put_front(alloc, &self.stream, fed, &mut self.lines) {
            Ok(true) => {}
            Ok(false) => return Ok(false),
            Err(fault) => return Err(StreamStop::Fault(fault)),
        }
        match write_front(
            &mut self.stream,
            self.lines.as_slice(),
            &mut self.page,
            sink,
        ) {
            Ok(()) => Ok(true),
            Err(_) => Err(StreamStop::Failed),
        }
    }

    // Takes the PDUs that stand in front whole, and writes the lines of their messages.
    #[tactic(auto, using(crate::proofs::StreamLemmas::goes_on_same, crate::proofs::StreamLemmas::taken_less, crate::proofs::StreamLemmas::taken_none, crate::proofs::StreamLemmas::stopped_more))]
    fn take_pdus<K: Sink>(
        &mut self,
        alloc: Global,
        fed: u64,
        sink: &mut K,
    ) -> Result<(), StreamStop>
        requires going { IsStreamGoing self.old.stream fed }
        requires few { fed < 2 ^ 63 }
        ensures going { OnOk result (IsStreamGoing self.new.stream fed) }
        ensures pending { OnOk result (IsPending largest_pdu self.new.stream.held) }
        ensures on { OnOk result (TextGoesOn self.old.stream self.new.stream (lines_written (K.taken sink.old) (K.faults sink.old) self.old.page) (lines_written (K.taken sink.new) (K.faults sink.new) self.new.page)) }
        ensures stopped { IfErr result (λ stop. IsStopped stop self.old.stream (lines_written (K.taken sink.old) (K.faults sink.old) self.old.page) (lines_written (K.taken sink.new) (K.faults sink.new) self.new.page)) }
    {
        'taking: loop {
            if !self.take_pdu(alloc, fed, sink)? {
                return Ok(());
            }
        }
    }

    // Feeds octets to a stream of which nothing came yet, writes the lines of their messages, and answers how many octets are left
    // behind the last PDU.
    #[tactic(auto, using(crate::proofs::StreamLemmas::fed_less, crate::proofs::StreamLemmas::fed_going))]
    fn take_all<K: Sink>(
        &mut self,
        alloc: Global,
        octets: &[u8],
        sink: &mut K,
    ) -> Result<usize, StreamStop>
        requires few { length octets.now < 2 ^ 62 }
        requires none { self.old.stream ≡ empty }
        ensures left { IfOk result (LeavesSome octets.now (lines_written (K.taken sink.old) (K.faults sink.old) self.old.page) (lines_written (K.taken sink.new) (K.faults sink.new) self.new.page)) }
        ensures stopped { IfErr result (λ stop. StopsIn stop octets.now (lines_written (K.taken sink.old) (K.faults sink.old) self.old.page) (lines_written (K.taken sink.new) (K.faults sink.new) self.new.page)) }
    {
        let mut at = 0;
        'feeding: while at < octets.len() {
            at += self.stream.feed(piece_at(octets, at));
            match self.take_pdus(alloc, at as u64, sink) {
                Ok(()) => {}
                Err(stop) => return Err(stop),
            }
        }
        Ok(self.stream.held())
    }

    /// Writes the lines of the messages of these octets, those before their first fault, and answers the outcome. Nothing came and
    /// nothing waits before.
    #[tactic(auto, using(crate::proofs::StreamLemmas::stream_cut))]
    pub fn write<K: Sink>(&mut self, alloc: Global, octets: &[u8], sink: &mut K) -> Outcome
        requires few { length octets.now < 2 ^ 62 }
        requires none { self.old.stream ≡ empty }
        requires empty { self.old.page ≡ [] }
        ensures { EndsStream octets.now (lines_written (K.taken sink.old) (K.faults sink.old) []) (lines_written (K.taken sink.new) (K.faults sink.new) []) None result }
    {
        match self.take_all(alloc, octets, sink) {
            Ok(left) => flush_page(&mut self.page, sink, outcome_with(octets.len(), left)),
            Err(StreamStop::Fault(fault)) => flush_page(&mut self.page, sink, outcome_at(fault)),
            Err(StreamStop::Failed) => Outcome::WriteFault,
        }
    }
}
