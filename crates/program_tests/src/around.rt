//! What lies around the calls of the tests: sheets of rows, a shelf, a sink and words, and how a call has to end.
//!
//! A sheet is a text of sections, each of which begins with a line `: NAME`, and of rows, each of which begins with a line `= TITLE`. What
//! a row does not say its sheet says before its first row, and what neither says stands in the text that is given with the sheet. A section
//! has what stands behind its name, up to the end of the last line before the next mark; an empty line there keeps that end.
//!
//! - `words`: the words of the call, parted by blanks.
//! - `opening`, `front`, `piece` as often as `times` says, and `back`: what the shelf holds under `f`. Behind it, each on lines
//!   of its own, `closing`, `tables`, `wires` and `more`. These are pairs of hexadecimal digits where there is a section `hexadecimal`.
//! - `s`: what the shelf holds under `s`; `g.pcap`, `k.pcap`, `q.pcap` and `r.pcap`: the same under these names, in hexadecimal digits.
//! - `shelf` and `sink`: which call of each fails, by its number; `room`: how much the sink takes, else 20,000 octets.
//! - `told`: the status, and the line on standard error, where the call is not done.
//! - `entries`: how many entries the run has.
//! - `taken`: the text that the sink has to take, or its front where there is no more room; `octets`: the same in hexadecimal digits.
//! - `ends`: with what it has to end, `begins`: with what before that, and `long`: how many octets it has to be.

use net_base::{List, MemShelf, MemSink, Sink};
use std::alloc::Global;
use std::process::Abort;
use vplsnet::finish_line::finish_line;
use vplsnet::run::run;
use vplsnet::{Finish, Outcome};

// A row of a sheet: its own text, what its sheet says before its first row, and what is given with the sheet.
#[derive(Clone, Copy)]
struct Row<'a> {
    text: &'a str,
    head: &'a str,
    given: &'a str,
}

/// A replay of version 1 whose rows have its events.
pub const REPLAY: &str = "
: words replay f
: opening version = 1
events = [
: closing ]
";

/// A replay over one edge and three circuits of a service.
pub const ONE_EDGE: &str = "
: words replay f
: opening version = 1
events = [
: closing ]
: tables
[[edge]]
name = \"e\"
address = \"10.0.0.1\"
[[service]]
name = \"s\"
[[circuit]]
name = \"c1\"
edge = \"e\"
service = \"s\"
[[circuit]]
name = \"c2\"
edge = \"e\"
service = \"s\"
[[circuit]]
name = \"c3\"
edge = \"e\"
service = \"s\"
";

// The sections before the piece of the file, and those behind the back of it.
static FRONTS: [&str; 2] = ["\n: opening ", "\n: front "];

static LINES: [&str; 4] = ["\n: closing ", "\n: tables\n", "\n: wires\n", "\n: more\n"];

// The captures that a shelf may hold, and their sections.
static CAPTURES: [(&str, &str); 4] = [
    ("g.pcap", "\n: g.pcap"),
    ("k.pcap", "\n: k.pcap"),
    ("q.pcap", "\n: q.pcap"),
    ("r.pcap", "\n: r.pcap"),
];

/// The section of a text whose mark is this one.
pub fn section<'a>(text: &'a str, mark: &str) -> Option<&'a str> {
    let (_, rest) = text.split_once(mark)?;
    match rest.split_once("\n: ") {
        Some((value, _)) => Some(value),
        None => Some(rest),
    }
}

/// This is so, or the test ends with these words. Tests ask it by this one call, since each `assert!` takes long to prove.
pub fn holds(rt: &impl Abort, is_so: bool, words: &str) {
    assert!(rt; is_so, "{words}");
}

// The section of a row, or of what lies around it.
fn text_in<'a>(row: &Row<'a>, mark: &str) -> Option<&'a str> {
    section(row.text, mark)
        .or(section(row.head, mark))
        .or(section(row.given, mark))
}

// The same, empty where there is none.
fn text_of<'a>(row: &Row<'a>, mark: &str) -> &'a str {
    text_in(row, mark).unwrap_or("")
}

// The number of a section, or this one where there is none.
fn number_of(rt: &impl Abort, row: &Row<'_>, mark: &str, other: usize) -> usize {
    match text_in(row, mark) {
        Some(number) => number.trim().parse::<usize>().ok().expect(rt, "a number"),
        None => other,
    }
}

// The numbers of the calls that fail.
fn failing(rt: &impl Abort, alloc: Global, number: u64) -> List<u64> {
    let mut numbers = List::new(alloc);
    if number > 0 {
        numbers.push(number).expect(rt, "memory");
    }
    numbers
}

/// A shelf that holds these octets under `f`, and whose call of this number fails.
pub fn shelf_of(rt: &impl Abort, alloc: Global, octets: &[u8], fails: u64) -> MemShelf {
    let mut shelf = MemShelf::new(alloc, failing(rt, alloc, fails)).expect(rt, "memory");
    shelf.store(alloc, "f", octets).expect(rt, "memory");
    shelf
}

/// A sink with this room, whose call of this number fails.
pub fn sink_of(rt: &impl Abort, alloc: Global, room: usize, fails: u64) -> MemSink {
    MemSink::new(alloc, room, failing(rt, alloc, fails)).expect(rt, "memory")
}

// Puts words that are parted by blanks.
fn put_words(rt: &impl Abort, alloc: Global, given: &mut Vec<String>, words: &str) {
    for word in words.split_whitespace() {
        let word = String::from_str(alloc, word).expect(rt, "memory");
        given.push(word).expect(rt, "memory");
    }
}

// The value of a hexadecimal digit.
fn nibble(digit: u8) -> u8 {
    match digit {
        b'0'..=b'9' => digit - b'0',
        b'a'..=b'f' => digit - b'a' + 10,
        _ => 0,
    }
}

// Puts the octets of pairs of hexadecimal digits; blanks and ends of lines are passed over.
fn put_octets(rt: &impl Abort, octets: &mut Vec<u8>, text: &str) {
    let mut high = None;
    for digit in text.as_bytes() {
        if *digit > b' ' {
            match high {
                None => high = Some(nibble(*digit)),
                Some(front) => {
                    octets
                        .push((front << 4) | nibble(*digit))
                        .expect(rt, "memory");
                    high = None;
                }
            }
        }
    }
}

// Puts a text into the octets of a file.
fn put(rt: &impl Abort, octets: &mut Vec<u8>, text: &str, is_hexadecimal: bool) {
    if is_hexadecimal {
        put_octets(rt, octets, text);
    } else {
        octets
            .extend_from_slice(text.as_bytes())
            .expect(rt, "memory");
    }
}

// Puts the file up to its back.
fn put_front(rt: &impl Abort, octets: &mut Vec<u8>, row: &Row<'_>) {
    let is_hexadecimal = text_in(row, "\n: hexadecimal").is_some();
    for mark in FRONTS.as_slice() {
        put(rt, octets, text_of(row, mark), is_hexadecimal);
    }
    let piece = text_of(row, "\n: piece ");
    for _time in 0..number_of(rt, row, "\n: times ", 0) {
        put(rt, octets, piece, is_hexadecimal);
    }
    put(rt, octets, text_of(row, "\n: back "), is_hexadecimal);
}

// Puts the lines behind the back of the file.
fn put_lines(rt: &impl Abort, octets: &mut Vec<u8>, row: &Row<'_>) {
    for mark in LINES.as_slice() {
        if let Some(lines) = text_in(row, mark) {
            put(rt, octets, "\n", false);
            put(rt, octets, lines, false);
        }
    }
}

// The octets of the file.
fn file_of(rt: &impl Abort, alloc: Global, row: &Row<'_>) -> Vec<u8> {
    let mut octets = Vec::new(alloc);
    put_front(rt, &mut octets, row);
    put_lines(rt, &mut octets, row);
    octets
}

// Octets of pairs of hexadecimal digits.
fn octets_of(rt: &impl Abort, alloc: Global, text: &str) -> Vec<u8> {
    let mut octets = Vec::new(alloc);
    put_octets(rt, &mut octets, text);
    octets
}

// Lets a shelf hold octets.
fn hold(rt: &impl Abort, alloc: Global, shelf: &mut MemShelf, name: &str, octets: &[u8]) {
    shelf.store(alloc, name, octets).expect(rt, "memory");
}

// Lets a shelf hold a capture, of pairs of hexadecimal digits.
fn hold_capture(rt: &impl Abort, alloc: Global, shelf: &mut MemShelf, name: &str, text: &str) {
    let octets = octets_of(rt, alloc, text);
    hold(rt, alloc, shelf, name, octets.as_slice());
    drop(octets);
}

// Lets the shelf hold what it holds beside the file.
fn hold_others(rt: &impl Abort, alloc: Global, shelf: &mut MemShelf, row: &Row<'_>) {
    for (name, mark) in CAPTURES.as_slice() {
        if let Some(text) = text_in(row, mark) {
            hold_capture(rt, alloc, shelf, name, text);
        }
    }
    if let Some(text) = text_in(row, "\n: s\n") {
        hold(rt, alloc, shelf, "s", text.as_bytes());
    }
}

// The shelf that holds the file alone.
fn file_shelf(rt: &impl Abort, alloc: Global, row: &Row<'_>) -> MemShelf {
    let octets = file_of(rt, alloc, row);
    let fails = number_of(rt, row, "\n: shelf ", 0);
    let shelf = shelf_of(rt, alloc, octets.as_slice(), fails as u64);
    drop(octets);
    shelf
}

// Runs the words over a shelf and a sink.
fn finish_over(
    rt: &impl Abort,
    alloc: Global,
    words: &str,
    shelf: &mut MemShelf,
    sink: &mut MemSink,
) -> Finish {
    let mut given = Vec::new(alloc);
    put_words(rt, alloc, &mut given, words);
    let finish = run(alloc, given.as_slice(), shelf, sink);
    drop(given);
    finish
}

// Runs the words over the shelf and this sink.
fn finish_of(rt: &impl Abort, alloc: Global, row: &Row<'_>, sink: &mut MemSink) -> Finish {
    let mut shelf = file_shelf(rt, alloc, row);
    hold_others(rt, alloc, &mut shelf, row);
    let finish = finish_over(rt, alloc, text_of(row, "\n: words "), &mut shelf, sink);
    drop(shelf);
    finish
}

// Whether octets end with two texts.
fn ends_with(octets: &[u8], front: &str, back: &str) -> bool {
    let count = octets.len().saturating_sub(back.len());
    octets.ends_with(back.as_bytes()) && octets[..count].ends_with(front.as_bytes())
}

// Whether octets are those of pairs of hexadecimal digits.
fn are_octets(rt: &impl Abort, alloc: Global, octets: &[u8], text: &str) -> bool {
    let want = octets_of(rt, alloc, text);
    let same = octets == want.as_slice();
    drop(want);
    same
}

// Whether octets are a text, or its front where there is no room for more.
fn are_text(octets: &[u8], text: &str, room: usize) -> bool {
    octets.len() == text.len().min(room) && text.as_bytes().starts_with(octets)
}

// Whether octets are as many as they have to be, and end as they have to.
fn are_end(rt: &impl Abort, octets: &[u8], row: &Row<'_>, end: &str) -> bool {
    let count = number_of(rt, row, "\n: long ", octets.len());
    octets.len() == count && ends_with(octets, text_of(row, "\n: begins\n"), end)
}

// Whether the sink took what it has to take.
fn is_taken(rt: &impl Abort, alloc: Global, octets: &[u8], row: &Row<'_>, room: usize) -> bool {
    if let Some(end) = text_in(row, "\n: ends\n") {
        are_end(rt, octets, row, end)
    } else if let Some(text) = text_in(row, "\n: octets ") {
        are_octets(rt, alloc, octets, text)
    } else {
        are_text(octets, text_of(row, "\n: taken\n"), room)
    }
}

// Whether this line on standard error tells an outcome; none tells that the call is done.
fn is_told(rt: &impl Abort, alloc: Global, outcome: &Outcome, told: &str) -> bool {
    if matches!(outcome, Outcome::Done) {
        return told.is_empty();
    }
    let line = finish_line(alloc, outcome).expect(rt, "memory");
    line.as_slice() == told.as_bytes()
}

// The status and the line on standard error that a row has.
fn told_of<'a>(rt: &impl Abort, row: &Row<'a>) -> (u8, &'a str) {
    match text_of(row, "\n: told ").trim_end().split_once(' ') {
        Some((status, told)) => (status.parse::<u8>().ok().expect(rt, "a status"), told),
        None => (0, ""),
    }
}

// What of the status, the entries and the line on standard error is not as the row has it; empty where all is.
fn difference(rt: &impl Abort, alloc: Global, row: &Row<'_>, finish: &Finish) -> &'static str {
    let (status, told) = told_of(rt, row);
    let entries = finish.trace().len();
    let is_told = is_told(rt, alloc, &finish.outcome, told);
    let wanted = number_of(rt, row, "\n: entries ", entries);
    if finish.status != status {
        "status"
    } else if !is_told {
        "told"
    } else if wanted != entries {
        "entries"
    } else {
        ""
    }
}

// Lets the end of a call go. What a network turns into is its trace, so that only that has to be let go here.
fn let_go(finish: Finish) {
    let Finish {
        outcome,
        network,
        ..
    } = finish;
    drop(outcome);
    match network {
        Some(network) => drop(network.into_trace()),
        None => {}
    }
}

// The status of a call of a row, and what of how it ends is not as the row has it, with this sink.
fn end_with(
    rt: &impl Abort,
    alloc: Global,
    row: &Row<'_>,
    sink: &mut MemSink,
) -> (u8, &'static str) {
    let finish = finish_of(rt, alloc, row, sink);
    let status = finish.status;
    let difference = difference(rt, alloc, row, &finish);
    let_go(finish);
    (status, difference)
}

// What is not as the row has it where the call ends, with this sink of this room. The sink counts a fault exactly where the writing
// failed.
fn difference_with(
    rt: &impl Abort,
    alloc: Global,
    row: &Row<'_>,
    room: usize,
    sink: &mut MemSink,
) -> &'static str {
    let (status, difference) = end_with(rt, alloc, row, sink);
    let is_taken = is_taken(rt, alloc, sink.taken(), row, room);
    let faults = sink.faults();
    if !is_taken {
        "taken"
    } else if faults != u64::from(status == 4) {
        "faults"
    } else {
        difference
    }
}

// The call of a row ends as it has to, where the sink has this room.
fn row_plays_in(rt: &impl Abort, alloc: Global, row: &Row<'_>, room: usize) {
    let fails = number_of(rt, row, "\n: sink ", 0);
    let mut sink = sink_of(rt, alloc, room, fails as u64);
    let difference = difference_with(rt, alloc, row, room, &mut sink);
    drop(sink);
    assert!(rt; difference.is_empty(), "{difference}: {}", row.text);
}

// The call of a row ends as it has to.
fn row_plays(rt: &impl Abort, alloc: Global, row: &Row<'_>) {
    row_plays_in(rt, alloc, row, number_of(rt, row, "\n: room ", 20_000));
}

/// The call of this one row ends as it has to, where the sink has this room.
pub fn plays_in(rt: &impl Abort, alloc: Global, given: &str, text: &str, room: usize) {
    let row = Row {
        text,
        head: "",
        given,
    };
    row_plays_in(rt, alloc, &row, room);
}

/// The call of each row of a sheet ends as it has to.
pub fn plays(rt: &impl Abort, alloc: Global, given: &str, sheet: &str) {
    let sheet = sheet.strip_suffix("\n").expect(rt, "an end of a line");
    let (head, rows) = sheet.split_once("\n= ").expect(rt, "a row");
    for text in rows.split("\n= ") {
        row_plays(rt, alloc, &Row { text, head, given });
    }
}

// The text of the row that a line of a table stands for.
fn row_text(rt: &impl Abort, alloc: Global, call: &str, ending: &str) -> String {
    let (given, call) = match call.strip_prefix("$ ") {
        Some(words) => ("words", words),
        None => ("front", call),
    };
    let (wanted, ending) = match ending.strip_prefix("! ") {
        Some(told) => ("entries 0\n: told ", told),
        None => ("taken\n", ending),
    };
    format!(in alloc; "\n: {given} {call}\n: {wanted}{ending}\n").expect(rt, "memory")
}

// The call of a line of a table ends as it has to.
fn line_plays(rt: &impl Abort, alloc: Global, given: &str, call: &str, ending: &str) {
    let text = row_text(rt, alloc, call, ending);
    let row = Row {
        text: text.as_str(),
        head: "",
        given,
    };
    row_plays(rt, alloc, &row);
    drop(text);
}

/// Each call of a table ends as it has to. A line has what stands in the section `front` or, behind `$ `, in that of the words; then,
/// behind ` -> `, the line that the sink takes, or behind `! `, where no run begins, the status and the line on standard error. Lines
/// that end in a full stop are words for a reader.
pub fn lines_play(rt: &impl Abort, alloc: Global, given: &str, table: &str) {
    for line in table.lines() {
        let line = line.trim();
        match line.split_once(" -> ") {
            Some((call, ending)) => line_plays(rt, alloc, given, call, ending),
            None => holds(rt, line.is_empty() || line.ends_with('.'), line),
        }
    }
}
