//! Whole files and whole texts over a shelf and a sink in memory.

use crate::around::{holds, shelf_of, sink_of};
use net_base::{Failed, MemShelf, MemSink, Shelf, Sink};
use std::alloc::Global;
use std::process::Abort;
use vplsnet::{ReadStop, read_file, write_text};

// A file `f` of so many octets, of which a call may fail, the name and the limit with which one is read, and how many octets
// come of it.
#[derive(Clone, Copy)]
struct Read {
    count: usize,
    fails: u64,
    name: &'static str,
    limit: u32,
    want: Result<usize, ReadStop>,
}

// An empty file is read up to a limit of 0.
const EMPTY: Read = Read {
    count: 0,
    fails: 0,
    name: "f",
    limit: 0,
    want: Ok(0),
};

static READS: [Read; 8] = [
    Read {
        count: 5,
        limit: 5,
        want: Ok(5),
        ..EMPTY
    },
    Read {
        count: 6,
        limit: 5,
        want: Err(ReadStop::TooLong),
        ..EMPTY
    },
    EMPTY,
    Read {
        count: 1,
        want: Err(ReadStop::TooLong),
        ..EMPTY
    },
    Read {
        count: 9000,
        limit: 9000,
        want: Ok(9000),
        ..EMPTY
    },
    Read {
        count: 9001,
        limit: 9000,
        want: Err(ReadStop::TooLong),
        ..EMPTY
    },
    Read {
        count: 9000,
        fails: 2,
        limit: 9000,
        want: Err(ReadStop::Fault),
        ..EMPTY
    },
    // A file that is not held.
    Read {
        count: 5,
        name: "g",
        limit: 5,
        want: Err(ReadStop::Fault),
        ..EMPTY
    },
];

// The shelf that holds the file.
fn shelf_for(rt: &impl Abort, alloc: Global, read: &Read) -> MemShelf {
    let octets = Vec::from_elem(alloc, 7u8, read.count).expect(rt, "memory");
    shelf_of(rt, alloc, octets.as_slice(), read.fails)
}

// Whether a fault is counted where the reading is to fail, and for its name alone.
fn counts(shelf: &MemShelf, read: &Read) -> bool {
    let faults = u64::from(read.want == Err(ReadStop::Fault));
    shelf.faults(read.name) == faults && (read.name == "f" || shelf.faults("f") == 0)
}

// Whether the file is read so.
fn is_read(alloc: Global, shelf: &mut MemShelf, read: &Read) -> bool {
    let length = match read_file(alloc, shelf, read.name, read.limit as usize) {
        Ok(octets) => Ok(octets.len()),
        Err(stop) => Err(stop),
    };
    length == read.want && counts(shelf, read)
}

// The file is read so.
fn reads(rt: &impl Abort, alloc: Global, read: &Read) {
    let mut shelf = shelf_for(rt, alloc, read);
    let is_read = is_read(alloc, &mut shelf, read);
    drop(shelf);
    holds(rt, is_read, read.name);
}

#[test]
fn reads_up_to_the_limit(rt: HostRuntime) {
    for read in READS.as_slice() {
        reads(&rt, rt.alloc(), read);
    }
}

// The room of a sink, the answer where it is to take `abcdef`, and what it takes.
static WRITES: [(usize, Result<(), Failed>, &str); 2] = [
    (6, Ok(()), "abcdef"),
    (3, Err(Failed), "abc"),
];

// Whether a sink answers so, takes so much, and counts a fault where it fails.
fn takes(sink: &mut MemSink, want: Result<(), Failed>, taken: &str) -> bool {
    let answer = write_text(sink, b"abcdef");
    let faults = u64::from(want.is_err());
    answer == want && sink.taken() == taken.as_bytes() && sink.faults() == faults
}

// A sink with this room takes so much.
fn writes(rt: &impl Abort, alloc: Global, room: usize, want: Result<(), Failed>, taken: &str) {
    let mut sink = sink_of(rt, alloc, room, 0);
    let takes = takes(&mut sink, want, taken);
    drop(sink);
    holds(rt, takes, taken);
}

#[test]
fn writes_as_much_as_is_taken(rt: HostRuntime) {
    for (room, want, taken) in WRITES.as_slice() {
        writes(&rt, rt.alloc(), *room, *want, taken);
    }
}
