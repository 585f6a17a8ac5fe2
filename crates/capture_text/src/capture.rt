//! Captures of a circuit.
ghost use Rattle.std.specs.Prelude.{◌≡◌, ◌<◌, ◌≤◌, ◌+◌, ◌^◌, flat_map, option_map};
ghost use Rattle.capture_text.specs.Capture.{capture_text, timed_frame_of, frames_left, octets_left, ticks_after};
ghost use Rattle.pcap_file.specs.Written.{written_frame, written_header};
ghost use Rattle.text_lines.specs.Written.{PutsOn};

use crate::record::put_record;
use net_base::{CircuitId, Entry, Event, Failed, Sink};
use pcap_file::write_header;
use text_lines::Page;

// How many ticks have passed after one more entry.
#[tactic(auto, unfolding(crate::specs::Capture::ticks_after))]
fn later(ticks: u64, entry: &Entry) -> u64
    requires { ticks < 2 ^ 63 }
    ensures is { result ≡ ticks_after entry.now ticks }
    ensures most { result ≤ ticks + 1 }
{
    match entry {
        Entry::Did { event: Event::Tick } => ticks + 1,
        _ => ticks,
    }
}

// The octets of an entry's frame, where it left the circuit.
#[tactic(auto, unfolding(crate::specs::Capture::octets_left))]
fn octets_left<'a>(circuit: CircuitId, entry: &'a Entry) -> Option<&'a [u8]>
    ensures { option_map (λ octets. octets.now) result ≡ octets_left circuit entry.now }
{
    match entry {
        Entry::Left {
            circuit: from,
            bytes,
            ..
        } if from.0 == circuit.0 => Some(bytes.as_slice()),
        _ => None,
    }
}

// Puts the record of an entry's frame, where it left the circuit.
fn put_entry<K: Sink>(
    page: &mut Page,
    sink: &mut K,
    circuit: CircuitId,
    ticks: u64,
    entry: &Entry,
) -> Result<(), Failed>
    ensures { PutsOn K.taken K.faults page.old page.new sink.old sink.new result (flat_map written_frame (timed_frame_of circuit ticks entry.now)) }
{
    match octets_left(circuit, entry) {
        Some(octets) => put_record(page, sink, ticks, octets),
        None => Ok(()),
    }
}

// Puts the records of all frames that left the circuit.
fn put_frames<K: Sink>(
    page: &mut Page,
    sink: &mut K,
    trace: &[Entry],
    circuit: CircuitId,
) -> Result<(), Failed>
    ensures { PutsOn K.taken K.faults page.old page.new sink.old sink.new result (flat_map written_frame (frames_left circuit 0 trace.now)) }
{
    let mut ticks = 0;
    for entry in trace {
        put_entry(page, sink, circuit, ticks, entry)?;
        ticks = later(ticks, entry);
    }
    Ok(())
}

// The header of a capture.
#[tactic(auto, using(crate::proofs::RecordLemmas::header_whole))]
fn header() -> [u8; 24]
    ensures { result ≡ written_header }
{
    let mut header = [0u8; 24];
    write_header(&mut header);
    header
}

/// Puts the capture of the frames that left a circuit: a header, and a record for each of them. Its time in seconds is the number of
/// ticks before it, of which the low 32 bits are written. It takes no memory. After `Failed` a front of what waited and of the capture
/// was taken, and the sink counted a fault.
pub fn put_capture<K: Sink>(
    page: &mut Page,
    sink: &mut K,
    trace: &[Entry],
    circuit: CircuitId,
) -> Result<(), Failed>
    ensures { PutsOn K.taken K.faults page.old page.new sink.old sink.new result (capture_text trace.now circuit) }
{
    match page.put(sink, &header()) {
        Ok(()) => put_frames(page, sink, trace, circuit),
        Err(fault) => Err(fault),
    }
}
