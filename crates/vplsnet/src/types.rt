//! What the types of entries say of them. Nothing is worked out here: where a value is named, its type tells the proof its range. The walk
//! over the entries, one for each run, takes run time for the proof alone.
ghost use Rattle.std.specs.{Prelude.{◌<◌, ◌^◌, length}, List.{All, AllByRecursion}};
ghost use Rattle.report_laws.specs.Types.{IsTypedEntry, IsTypedEvent};

use net_base::{Entry, Event};
use psn_net::Network;

/// The numbers of a run's entries are in the ranges of their types, their octets are octets, and there are fewer than 2^64 of them. The
/// types say so; that a report is read as its trace asks for it in a clause.
pub fn see_entries(network: &Network)
    ensures typed { All IsTypedEntry network.now.trace }
    ensures few { length network.now.trace < 2 ^ 64 }
{
    see_trace(network.trace().as_slice());
}

// The entries one after another.
#[tactic(auto, using(crate::proofs::SeenLemmas::entry_steps))]
fn see_trace(entries: &[Entry])
    ensures typed { All IsTypedEntry entries.now }
    ensures few { length entries.now < 2 ^ 64 }
{
    for place in 0..entries.len() {
        see_entry(&entries[place]);
    }
}

// The numbers and octets of one entry.
fn see_entry(entry: &Entry)
    ensures { IsTypedEntry entry.now }
{
    match entry {
        Entry::Did { event } => see_event(event),
        Entry::Said { bytes, .. } => see_octets(bytes.as_slice()),
        Entry::In { number, bytes, .. } => {
            let _number = *number;
            see_octets(bytes.as_slice());
        }
        Entry::Sent {
            packet,
            origin,
            hops,
            bytes,
            ..
        } => {
            let _packet = *packet;
            let _origin = *origin;
            let _hops = *hops;
            see_octets(bytes.as_slice());
        }
        Entry::Copied { packet, of } => {
            let _packet = *packet;
            let _of = *of;
        }
        Entry::Aged { packet } => {
            let _packet = *packet;
        }
        Entry::Left {
            origin,
            hops,
            bytes,
            ..
        } => {
            let _origin = *origin;
            let _hops = *hops;
            see_octets(bytes.as_slice());
        }
        Entry::Dropped { origin, .. } => {
            let _origin = *origin;
        }
        Entry::Pong { sequence, .. } => {
            let _sequence = *sequence;
        }
        Entry::Idle | Entry::Session { .. } | Entry::Wire { .. } => {}
    }
}

// The numbers and octets of one event.
fn see_event(event: &Event)
    ensures { IsTypedEvent event.now }
{
    match event {
        Event::Deliver { count, .. } => {
            let _count = *count;
        }
        Event::Frame { bytes, .. } => see_octets(bytes.as_slice()),
        Event::Arrive { packet } => {
            let _packet = *packet;
        }
        Event::Discard { packet } => {
            let _packet = *packet;
        }
        Event::Again { packet } => {
            let _packet = *packet;
        }
        Event::Priority { priority, .. } => {
            let _priority = *priority;
        }
        Event::Connect { .. }
        | Event::Lose { .. }
        | Event::Restart { .. }
        | Event::Tick
        | Event::Wire { .. }
        | Event::Circuit { .. }
        | Event::Status { .. }
        | Event::Ping { .. } => {}
    }
}

// Octets are octets.
fn see_octets(octets: &[u8])
    ensures octets { AllByRecursion (λ octet. octet < 256) octets.now }
{
    let _len = octets.len();
}
