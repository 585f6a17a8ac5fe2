//! The system's files, and one that signals interrupt: which octets are read where.

use crate::around::holds;
use crate::signals::Signals;
use net_base::{Failed, Shelf};
use std::process::Abort;
use std::{env, fs, process};
use vplsnet::FileShelf;

// The path of a file of this process, by a name of its own.
fn path_of(rt: &HostRuntime, test: &impl Abort, name: &str) -> String {
    let folder = env::temp_dir(rt).expect(test, "a folder");
    let number = process::id(rt.process());
    format!(in rt.alloc(); "{}/vplsnet-{number}-{name}", folder.as_str()).expect(test, "memory")
}

// Whether these are the octets that a shelf reads next from a place of a file.
fn reads(shelf: &mut impl Shelf, name: &str, from: u64, octets: &str) -> bool {
    let mut buf = [0u8; 3];
    let read = shelf.read_at(name, from, &mut buf);
    read == Ok(octets.len()) && buf.starts_with(octets.as_bytes())
}

// The places from which `abcde` is read in turn, and what is read there.
static READS: [(u64, &str); 7] = [
    (0, "abc"),
    (3, "de"),
    (5, ""),
    (1, "bcd"),
    (4, "e"),
    (9, ""),
    (0, "abc"),
];

// A shelf reads so from a file, with no fault.
fn reads_all(test: &impl Abort, shelf: &mut impl Shelf, name: &str) {
    for (from, octets) in READS.as_slice() {
        holds(test, reads(shelf, name, *from, octets), octets);
    }
    holds(test, shelf.faults(name) == 0, name);
}

// Stores a file.
fn store(rt: &HostRuntime, test: &impl Abort, name: &str, octets: &str) {
    fs::write(rt, name, octets.as_bytes()).expect(test, "a file");
}

// A shelf reads a file in order and at any place, and on in the file that it opened, though another one has its name.
fn reads_on(rt: &HostRuntime, test: &impl Abort, shelf: &mut impl Shelf, name: &str, other: &str) {
    store(rt, test, name, "abcde");
    reads_all(test, shelf, name);
    store(rt, test, other, "ABCDE");
    fs::rename(rt, other, name).expect(test, "a file");
    reads_all(test, shelf, name);
    fs::remove_file(rt, name).expect(test, "a file");
}

// The same under names of this process.
fn reads_files(rt: &HostRuntime, test: &impl Abort, shelf: &mut impl Shelf) {
    let path = path_of(rt, test, "first");
    let other = path_of(rt, test, "second");
    reads_on(rt, test, shelf, path.as_str(), other.as_str());
    drop(other);
    drop(path);
}

// What is no file.
static MISSING: [&str; 3] = ["/no/such/file", "", "/"];

// Whether a shelf cannot read a file.
fn fails(shelf: &mut impl Shelf, name: &str) -> bool {
    let mut buf = [0u8; 3];
    shelf.read_at(name, 0, &mut buf) == Err(Failed)
}

// A shelf that has read all so far counts what it cannot read.
fn counts(test: &impl Abort, shelf: &mut impl Shelf) {
    for name in MISSING.as_slice() {
        holds(test, fails(shelf, name), name);
    }
    holds(test, shelf.faults("/") == 3, "three faults");
}

// A shelf reads what it opened at any place, and counts what it cannot read.
fn reads_and_counts(rt: &HostRuntime, test: &impl Abort, shelf: &mut impl Shelf) {
    reads_files(rt, test, shelf);
    counts(test, shelf);
}

#[test]
fn reads_the_files_of_the_system(rt: HostRuntime) {
    let mut shelf = FileShelf::new(rt.alloc(), &rt);
    reads_and_counts(&rt, &rt, &mut shelf);
    drop(shelf);
}

#[test]
fn reads_again_where_signals_interrupt(rt: HostRuntime) {
    let mut shelf = FileShelf::new(rt.alloc(), Signals);
    reads_all(&rt, &mut shelf, "f");
    drop(shelf);
}
