//! A writer that takes little, and that signals interrupt.

use crate::around::holds;
use net_base::{Failed, Sink};
use std::io;
use std::io::{ErrorKind, Write};
use std::process::Abort;
use vplsnet::{StdSink, write_text};

// Takes two octets a call, and none past its room; each second call is interrupted and takes none.
#[derive(Drop)]
struct Narrow<'a> {
    taken: &'a mut Vec<u8>,
    room: usize,
    interrupts: bool,
}

impl<'a> Write for Narrow<'a> {
    fn write(&mut self, piece: &[u8]) -> io::Result<usize> {
        self.interrupts = !self.interrupts;
        if self.interrupts {
            return Err(io::Error::from(ErrorKind::Interrupted));
        }
        let room = self.room.saturating_sub(self.taken.len());
        let count = piece.len().min(2).min(room);
        self.taken.extend_from_slice(&piece[..count])?;
        Ok(count)
    }

    fn flush(&mut self) -> io::Result<()> {
        Ok(())
    }
}

// What a call of the sink answers: of a piece that is written, or of a whole text.
#[derive(Clone, Copy)]
enum Want {
    Write(Result<usize, Failed>),
    Text(Result<(), Failed>),
}

// The octets of a call of the sink, what it answers, and how many faults are counted after it.
type Step = (&'static str, Want, u64);

static STEPS: [Step; 5] = [
    ("abc", Want::Write(Ok(2)), 0),
    ("", Want::Write(Ok(0)), 0),
    ("cde", Want::Text(Ok(())), 0),
    ("fghij", Want::Text(Err(Failed)), 1),
    ("i", Want::Write(Err(Failed)), 2),
];

// The sink answers a step so.
fn takes(rt: &impl Abort, sink: &mut StdSink<Narrow<'_>>, (octets, want, faults): Step) {
    let agrees = match want {
        Want::Write(want) => sink.write(octets.as_bytes()) == want,
        Want::Text(want) => write_text(sink, octets.as_bytes()) == want,
    };
    holds(rt, agrees && sink.faults() == faults, octets);
}

// A sink over a writer with room for eight octets takes these steps.
fn takes_all(rt: &impl Abort, taken: &mut Vec<u8>, steps: &[Step]) {
    let mut sink = StdSink::new(Narrow {
        taken,
        room: 8,
        interrupts: false,
    });
    for step in steps {
        takes(rt, &mut sink, *step);
    }
}

// The writer has taken all that there is room for.
#[test]
fn takes_pieces_until_there_is_no_room(rt: HostRuntime) {
    let mut taken = Vec::new(rt.alloc());
    takes_all(&rt, &mut taken, STEPS.as_slice());
    holds(&rt, taken.as_slice() == b"abcdefgh".as_slice(), "abcdefgh");
    drop(taken);
}
