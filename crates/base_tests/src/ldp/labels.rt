//! One label space through its calls: which numbers wait, rest and are given again, worked out by hand.
ghost use Rattle.std.specs.Prelude.{◌≡◌, ◌≤◌, length};

use crate::steps::{cut, event_of, label, number_of};
use crate::words::{holds, is_same};
use label_space::{LabelSpace, NoLabel};
use net_base::{EdgeId, NoMemory, SegKey, WireId};
use std::alloc::Global;
use std::process::Abort;

// More labels than are ever given here.
const ROOM: u32 = 8400;

// A label space, and how many labels it gave, of which no more are owned.
#[derive(Drop)]
struct Labels {
    space: LabelSpace,
    owned: u32,
    ghost counted: { length space.owners ≤ owned },
    ghost roomy: { space.room ≡ 8400 },
}

// The neighbour of this name, B or C.
fn neighbour(name: &str) -> EdgeId {
    EdgeId(if is_same(name.as_bytes(), b"C") { 2 } else { 1 })
}

// The segment to a neighbour.
fn segment(peer: EdgeId) -> SegKey {
    SegKey {
        wire: WireId(peer.0),
        segment: 0,
    }
}

impl Labels {
    // Its first number is this one.
    fn open(rt: &impl Abort, alloc: Global, first: u32) -> Result<Labels, NoMemory> {
        holds(rt, 16 <= first, "a label");
        holds(rt, first <= 1_048_576, "a label");
        let space = LabelSpace::open(alloc, first, ROOM)?;
        Ok(Labels { space, owned: 0 })
    }

    // The number that the end towards a neighbour gets.
    #[tactic(auto, using(label_space::proofs::HeldLemmas::long_issued))]
    fn issue(&mut self, rt: &impl Abort, peer: EdgeId) -> Result<u32, NoLabel> {
        holds(rt, self.owned < ROOM, "room for one label more");
        self.owned += 1;
        Ok(self.space.issue(segment(peer), 1, peer)?.number())
    }

    // Whether the label with this number is owned so.
    fn is_owned(&self, rt: &impl Abort, number: u32, owner: Option<(SegKey, u8)>) -> bool {
        self.space.owner(label(rt, number)) == owner
    }

    // Whether the end towards a neighbour gets this number, and owns it.
    fn gives(&mut self, rt: &impl Abort, peer: EdgeId, number: u32) -> bool {
        self.space.has_number()
            && self.issue(rt, peer) == Ok(number)
            && self.is_owned(rt, number, Some((segment(peer), 1)))
    }

    // Whether the end towards a neighbour gets these numbers in turn, or none, where no number is left to be given.
    fn gives_all(&mut self, rt: &impl Abort, words: &str) -> bool {
        let (name, numbers) = cut(rt, words);
        let peer = neighbour(name);
        if is_same(numbers.as_bytes(), b"none") {
            return !self.space.has_number() && self.issue(rt, peer) == Err(NoLabel);
        }
        let (first, last) = range_of(rt, numbers);
        let mut agrees = true;
        for number in first..last.saturating_add(1) {
            agrees = agrees && self.gives(rt, peer, number);
        }
        agrees
    }

    // The end that owns the label with this number lets it go; whether none owns it then.
    #[tactic(auto, using(label_space::proofs::HeldLemmas::long_freed))]
    fn loses(&mut self, rt: &impl Abort, number: u32) -> bool {
        self.space.free(label(rt, number));
        self.is_owned(rt, number, None)
    }

    // The same of the numbers from one down to another, in turn.
    fn loses_all(&mut self, rt: &impl Abort, words: &str) -> bool {
        let (first, last) = range_of(rt, words);
        let mut agrees = true;
        for number in (last..first.saturating_add(1)).rev() {
            agrees = agrees && self.loses(rt, number);
        }
        agrees
    }

    // So many ticks pass.
    fn ticks(&mut self, count: u32) -> bool {
        for _tick in 0..count {
            self.space.tick();
        }
        true
    }

    // The edge starts again.
    fn restarts(&mut self) -> bool {
        self.space.restarted();
        self.owned = 0;
        true
    }

    // Whether the label of a number is owned by the end towards a neighbour.
    fn owns(&self, rt: &impl Abort, words: &str) -> bool {
        let (peer, number) = cut(rt, words);
        let owner = (segment(neighbour(peer)), 1);
        self.is_owned(rt, number_of(rt, number), Some(owner))
    }

    // Whether a step, which its first letter tells, comes to what it says: the space `gives` the end towards a neighbour numbers in turn,
    // or none; the end that owns a number `loses` it, or numbers in turn; a neighbour `meets` the edge by a new connection; so many
    // `ticks` pass; the edge `restarts`; the `next` number is this one; one is `unowned`, or the end towards a neighbour `owns` it.
    fn does(&mut self, rt: &impl Abort, letter: u8, more: &str) -> bool {
        match letter {
            b'g' => self.gives_all(rt, more),
            b'l' => self.loses_all(rt, more),
            b'm' => {
                self.space.met(neighbour(more));
                true
            }
            b't' => self.ticks(number_of(rt, more)),
            b'r' => self.restarts(),
            b'n' => self.space.next_number() == number_of(rt, more),
            b'u' => self.is_owned(rt, number_of(rt, more), None),
            _ => self.owns(rt, more),
        }
    }
}

// The numbers that stand on both sides of `to`, or one number twice.
fn range_of(rt: &impl Abort, words: &str) -> (u32, u32) {
    match words.split_once(" to ") {
        Some((first, last)) => (number_of(rt, first), number_of(rt, last)),
        None => (number_of(rt, words), number_of(rt, words)),
    }
}

// A line is words for a reader, which end in a full stop, or a step that comes to what it says, or a label space with this first number
// takes the place of the one before (`anew`).
fn read_line(rt: &impl Abort, alloc: Global, labels: &mut Labels, line: &str) {
    if line.is_empty() || line.ends_with('.') {
        return;
    }
    let (letter, more) = event_of(rt, line);
    if letter == b'a' {
        *labels = Labels::open(rt, alloc, number_of(rt, more)).expect(rt, "memory");
    } else {
        holds(rt, labels.does(rt, letter, more), line);
    }
}

const STEPS: &str = "
    The next number is given before any free one.
    anew 1048572
    gives B 1048572
    gives C 1048573
    loses 1048572
    meets B
    ticks 64
    gives C 1048574
    gives B 1048575
    next 1048576
    gives C 1048572
    gives C none
    owns C 1048573
    The one number, the largest, rests for 64 ticks after a new connection with its neighbour.
    anew 1048575
    gives B 1048575
    gives C none
    loses 1048575
    ticks 100
    gives C none
    meets B
    gives C none
    ticks 63
    gives C none
    ticks 1
    gives C 1048575
    gives C none
    It waits for its own neighbour.
    anew 1048575
    gives B 1048575
    gives C none
    loses 1048575
    meets C
    ticks 64
    gives C none
    meets B
    ticks 64
    gives C 1048575
    loses 1048575
    meets B
    ticks 64
    gives C none
    meets C
    ticks 64
    gives B 1048575
    It rests on at a later connection.
    anew 1048575
    gives B 1048575
    gives C none
    loses 1048575
    meets B
    ticks 30
    meets B
    ticks 33
    gives C none
    ticks 1
    gives B 1048575
    Numbers rest on over a restart.
    anew 1048573
    gives B 1048573
    gives B 1048574
    gives C 1048575
    loses 1048574
    meets B
    ticks 30
    restarts
    unowned 1048573
    next 1048576
    ticks 34
    gives B 1048574
    gives C none
    meets C
    ticks 64
    gives B 1048575
    gives C none
    meets B
    ticks 64
    gives B 1048573
    gives C none
    The least number that is free is given.
    anew 1048572
    gives B 1048572 to 1048575
    loses 1048574
    meets B
    ticks 1
    loses 1048575
    loses 1048572
    loses 1048573
    meets B
    ticks 63
    gives B 1048574
    gives C none
    ticks 1
    gives B 1048572
    gives B 1048573
    gives B 1048575
    gives C none
    Of 4,097 numbers that are let go, the last is never given again.
    anew 1044479
    gives B 1044479 to 1048575
    loses 1048575 to 1044479
    meets B
    ticks 63
    gives C none
    ticks 1
    gives B 1044480 to 1048575
    gives C none
    Of 4,097 numbers that are owned where the edge starts again, the least ones are kept.
    anew 1044479
    gives B 1044479 to 1048575
    restarts
    meets B
    ticks 63
    gives C none
    ticks 1
    gives B 1044479 to 1048574
    gives C none
";

// A label space takes all steps.
fn take_all(rt: &impl Abort, alloc: Global, labels: &mut Labels) {
    for line in STEPS.lines() {
        read_line(rt, alloc, labels, line.trim());
    }
}

#[test]
fn gives_numbers_as_they_are_free(rt: HostRuntime) {
    let mut labels = Labels::open(&rt, rt.alloc(), 16).expect(&rt, "memory");
    take_all(&rt, rt.alloc(), &mut labels);
}
