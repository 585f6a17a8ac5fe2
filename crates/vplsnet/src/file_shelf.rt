//! The shelf of the system's files.
ghost use Rattle.std.specs.Prelude.{◌≡◌, ◌<◌, ◌≤◌, ◌↔◌, ◌++◌, ◌∷◌, [], true, length, slice_get, string_bytes, IfOk, IfSome};
ghost use Rattle.net_base.specs.outside.Outside.{HasCause, NeverFall, answer_of};
ghost use Rattle.vplsnet.specs.Files.{count_after};

use net_base::{Failed, Read as ReadCall, ReadLog, Shelf};
use std::alloc::Global;
use std::io::{ErrorKind, Read, Seek, SeekFrom};
use std::marker::Model;
use std::rt::Files;
use std::{fs, io};

// A file that was opened, the name under which it was, and the place of the octet that it reads next.
#[derive(Drop)]
struct Opened<F: Read + Seek + Drop> {
    name: String,
    file: F,
    at: u64,
}

impl<F: Read + Seek + Drop> Opened<F> {
    // Whether it was opened under this name.
    fn has_name(&self, name: &str) -> bool
        ensures { (result ≡ true) ↔ (string_bytes self.now.name ≡ name.now) }
    {
        self.name.as_str() == name
    }

    // Reads once from the place on, where the file of this name is asked for. What is read in order is not sought, so a pipe
    // serves.
    fn read_from(&mut self, name: &str, from: u64, buf: &mut [u8]) -> io::Result<usize>
        requires asked { string_bytes self.old.name ≡ name.now }
        ensures bound { IfOk result (λ count. count ≤ length buf.new) }
        ensures name { string_bytes self.new.name ≡ string_bytes self.old.name }
    {
        if from != self.at {
            self.file.seek(SeekFrom::Start(from))?;
            self.at = from;
        }
        let count = read_again(&mut self.file, buf)?;
        self.at = self.at.saturating_add(count as u64);
        Ok(count)
    }
}

// Reads once, and again where a signal interrupts it.
fn read_again<F: Read>(file: &mut F, buf: &mut [u8]) -> io::Result<usize>
    ensures { IfOk result (λ count. count ≤ length buf.new) }
{
    for _ in 0..u64::MAX {
        match file.read(buf) {
            Err(error) if error.kind() == ErrorKind::Interrupted => {}
            result => return result,
        }
    }
    Err(io::Error::from(ErrorKind::Interrupted))
}

// The place of the file of this name among those that are open.
fn place_of<F: Read + Seek + Drop>(opened: &[Opened<F>], name: &str) -> Option<usize>
    ensures within { IfSome result (λ place. place < length opened.now) }
    ensures name { IfSome result (λ place. IfSome (slice_get opened.now place) (λ file. string_bytes file.name ≡ name.now)) }
{
    for (place, file) in opened.iter().enumerate() {
        if file.has_name(name) {
            return Some(place);
        }
    }
    None
}

// Opens the file of this name, at its first octet.
fn open_file<R: Files>(alloc: Global, files: &R, name: &str) -> io::Result<Opened<R::File>>
    ensures { IfOk result (λ file. string_bytes file.name ≡ name.now) }
{
    let file = fs::open(files, name)?;
    let name = String::from_str(alloc, name)?;
    Ok(Opened { name, file, at: 0 })
}

/// The files of the system, by their paths. Each is opened once and stays open, so that a file that is replaced meanwhile
/// is still read as the one that it was. Contracts see its one count of faults, which is that of every name, and the reads that it was
/// asked for, with the octets that they answered. That a file has these octets is the system's part.
#[derive(Drop)]
pub struct FileShelf<R: Files> {
    files: R,
    opened: Vec<Opened<R::File>>,
    alloc: Global,
    faults: u64,
    log: ReadLog,
}

impl<R: Files> Model for FileShelf<R> {
    ghost use Rattle.vplsnet.specs.Files.{ShelfState};

    ghost Value = { ShelfState };

    ghost view = { λ s. record { faults = s.faults; reads = s.log.reads } };
}

impl<R: Files> FileShelf<R> {
    /// A shelf over the files of a runtime, with none opened and no fault counted, that was asked for no read.
    pub fn new(alloc: Global, files: R) -> Self
        ensures { result ≡ record { faults = 0; reads = [] } }
    {
        FileShelf {
            files,
            opened: Vec::new(alloc),
            alloc,
            faults: 0,
            log: ReadLog::new(),
        }
    }

    // Reads once from the place on, of a file that is opened where it is not open yet.
    fn read_from(&mut self, name: &str, from: u64, buf: &mut [u8]) -> io::Result<usize>
        ensures bound { IfOk result (λ count. count ≤ length buf.new) }
        ensures same { self.new ≡ self.old }
    {
        if let Some(place) = place_of(self.opened.as_slice(), name) {
            return self.opened[place].read_from(name, from, buf);
        }
        let mut file = match open_file(self.alloc, &self.files, name) {
            Ok(file) => file,
            Err(error) => return Err(error),
        };
        match file.read_from(name, from, buf) {
            Ok(count) => {
                self.opened.push(file)?;
                Ok(count)
            }
            Err(error) => Err(error),
        }
    }
}

impl<R: Files> Shelf for FileShelf<R> {
    ghost reads = { λ shelf. shelf.reads };

    ghost faults = { λ shelf _. shelf.faults };

    /// Reads once. Each error of the system is a fault, and so is that memory for an open file is refused.
    fn read_at(&mut self, name: &str, from: u64, buf: &mut [u8]) -> Result<usize, Failed>
        ensures bound { IfOk result (λ count. count ≤ length buf.new) }
        ensures never_fall { NeverFall (λ _. self.old.faults) (λ _. self.new.faults) }
        ensures cause { HasCause self.old.faults self.new.faults result }
        ensures counted { self.new.faults ≡ count_after self.old.faults result }
        ensures reads { self.new.reads ≡ self.old.reads ++ record { name = name.now; from = from; room = length buf.old; answer = answer_of result buf.new } ∷ [] }
    {
        let room = buf.len();
        match self.read_from(name, from, buf) {
            Ok(count) => {
                self.log = self.log.with_read(&ReadCall {
                    name,
                    from,
                    room,
                    octets: &buf[..count],
                    failed: false,
                });
                Ok(count)
            }
            Err(_) => {
                self.log = self.log.with_read(&ReadCall {
                    name,
                    from,
                    room,
                    octets: &buf[..0],
                    failed: true,
                });
                self.faults = self.faults.saturating_add(1);
                Err(Failed)
            }
        }
    }

    fn faults(&self, _name: &str) -> u64 {
        self.faults
    }
}
