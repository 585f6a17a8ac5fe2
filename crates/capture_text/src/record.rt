//! The record of a frame.
ghost use Rattle.std.specs.Prelude.{◌≡◌};
ghost use Rattle.pcap_file.specs.Written.{written_frame, written_record};
ghost use Rattle.text_lines.specs.Written.{PutsOn};

use net_base::{Failed, Sink};
use pcap_file::write_record;
use text_lines::Page;

/// One more than the largest number of four octets.
const NUMBERS: u64 = 4_294_967_296;

// What stands before the octets of a frame of so many octets, at a time.
fn head_of(seconds: u64, size: usize) -> [u8; 16]
    ensures { result ≡ written_record seconds size }
{
    let mut head = [0u8; 16];
    write_record(
        (seconds % NUMBERS) as u32,
        (size as u64 % NUMBERS) as u32,
        &mut head,
    );
    head
}

/// Puts the record of a frame at a time in seconds, of which the low 32 bits are written.
pub fn put_record<K: Sink>(
    page: &mut Page,
    sink: &mut K,
    seconds: u64,
    frame: &[u8],
) -> Result<(), Failed>
    ensures { PutsOn K.taken K.faults page.old page.new sink.old sink.new result (written_frame (record { seconds = seconds; frame = frame.now })) }
{
    match page.put(sink, &head_of(seconds, frame.len())) {
        Ok(()) => page.put(sink, frame),
        Err(fault) => Err(fault),
    }
}
