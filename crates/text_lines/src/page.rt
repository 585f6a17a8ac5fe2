//! Pages.
ghost use Rattle.std.specs.{Prelude.{◌≡◌, ◌<◌, ◌≤◌, ◌+◌, ◌*◌, ◌++◌, ◌∷◌, [], codes, length, take, map, IfOk, OnOk, OnErr}, Fmt.{decimal}};
ghost use Rattle.text_pieces.specs.Pieces.{hex, spaced};
ghost use Rattle.text_lines.specs.{Lines.{line_end, line_of, word_octets}, Written.{lines_written, IsCut, Moves, PutsOn, Writes}};

use crate::line_word::LineWord;
use crate::whole::write_text;
use itoa::write_digits as write_number;
use net_base::{Failed, NoMemory, Sink};
use std::alloc::Global;
use std::marker::Model;
use text_pieces::write_digits;

/// How many octets a page holds: 64 KiB.
const ROOM: usize = 65_536;

/// The most octets that are turned into hexadecimal at once.
const PIECE: usize = 64;

/// Numbers of up to eight digits are below this.
const SHORT: u64 = 100_000_000;

/// The most digits that such a number has.
const EIGHT: usize = 8;

/// The most digits that any number has.
const MOST: usize = 20;

/// Octets that wait until there are many of them, and are then written to a sink at once. Contracts see it as the list of these octets.
///
/// Its room is filled once, and octets are laid down in it behind those that wait. A list would ask each time whether it has to grow.
#[derive(Drop)]
pub struct Page {
    room: Vec<u8>,
    len: usize,
}

impl Model for Page {
    ghost use Rattle.std.specs.Prelude.{◌≡◌, ◌≤◌, ℕ, List, take, vec_len};

    ghost Value = { List ℕ };

    ghost view = { λ p. take p.len p.room.items };

    ghost invariant = { λ p. (vec_len p.room ≡ 65536) × (p.len ≤ 65536) };
}

impl Page {
    /// A page in which nothing waits. It has all the memory that it ever takes.
    pub fn new(alloc: Global) -> Result<Page, NoMemory>
        ensures { IfOk result (λ page. page ≡ []) }
    {
        let mut room = Vec::new(alloc);
        room.resize(ROOM, 0)?;
        Ok(Page { room, len: 0 })
    }

    // Lets a front of the octets wait, as long as there is room.
    fn fill(&mut self, octets: &[u8]) -> usize
        ensures front { self.new ≡ self.old ++ take result octets.now }
        ensures within { result ≤ length octets.now }
        ensures some { 0 < length octets.now → length self.old < 65536 → 0 < result }
    {
        let count = octets.len().min(ROOM - self.len);
        let (front, _) = octets.split_at(count);
        self.wait(front);
        count
    }

    /// Writes what waits to the sink. After `Failed` a front of it was taken that lacks its end.
    #[tactic(auto, using(crate::proofs::WrittenLemmas::cut_waiting))]
    pub fn flush<K: Sink>(&mut self, sink: &mut K) -> Result<(), Failed>
        ensures whole { OnOk result (Writes (K.taken sink.old) (K.taken sink.new) self.old) }
        ensures none { OnOk result (self.new ≡ []) }
        ensures cut { OnErr result (IsCut (lines_written (K.taken sink.old) (K.faults sink.old) self.old) (lines_written (K.taken sink.new) (K.faults sink.new) self.new) []) }
        ensures never_falls { K.faults sink.old ≤ K.faults sink.new }
    {
        match write_text(sink, &self.room[..self.len]) {
            Ok(()) => {
                self.len = 0;
                Ok(())
            }
            Err(fault) => Err(fault),
        }
    }

    // Makes room for an octet at least.
    #[tactic(auto, using(crate::proofs::WrittenLemmas::moves_all, crate::proofs::WrittenLemmas::moves_none))]
    fn make_room<K: Sink>(&mut self, sink: &mut K) -> Result<(), Failed>
        ensures moves { OnOk result (Moves (lines_written (K.taken sink.old) (K.faults sink.old) self.old) (lines_written (K.taken sink.new) (K.faults sink.new) self.new)) }
        ensures room { OnOk result (length self.new < 65536) }
        ensures cut { OnErr result (IsCut (lines_written (K.taken sink.old) (K.faults sink.old) self.old) (lines_written (K.taken sink.new) (K.faults sink.new) self.new) []) }
    {
        if self.len < ROOM {
            return Ok(());
        }
        self.flush(sink)
    }

    /// Puts octets: they wait, or are written with all that waits. After `Failed` a front of what waited and of them was taken.
    #[inline(always)]
    #[tactic(auto, using(crate::proofs::WrittenLemmas::goes_waiting))]
    pub fn put<K: Sink>(&mut self, sink: &mut K, octets: &[u8]) -> Result<(), Failed>
        ensures { PutsOn K.taken K.faults self.old self.new sink.old sink.new result octets.now }
    {
        if octets.len() <= ROOM - self.len {
            self.wait(octets);
            return Ok(());
        }
        self.put_over(sink, octets)
    }

    // Lets octets wait, for which there is room.
    #[inline(always)]
    #[tactic(auto, using(crate::proofs::RoomLemmas::laid_behind))]
    fn wait(&mut self, octets: &[u8])
        requires room { length self.old + length octets.now ≤ 65536 }
        ensures { self.new ≡ self.old ++ octets.now }
    {
        let end = self.len + octets.len();
        self.room[self.len..end].copy_from_slice(octets);
        self.len = end;
    }

    // Lets two digits for each octet wait, for which there is room.
    #[tactic(auto, using(crate::proofs::RoomLemmas::laid_behind))]
    fn wait_hex(&mut self, octets: &[u8])
        requires room { length self.old + 2 * length octets.now ≤ 65536 }
        ensures { self.new ≡ self.old ++ hex octets.now }
    {
        let end = self.len + 2 * octets.len();
        write_digits(octets, &mut self.room[self.len..end]);
        self.len = end;
    }

    // Puts one octet.
    #[inline(always)]
    #[tactic(auto, using(crate::proofs::RoomLemmas::one_behind, crate::proofs::WrittenLemmas::goes_waiting))]
    fn put_octet<K: Sink>(&mut self, sink: &mut K, octet: u8) -> Result<(), Failed>
        ensures { PutsOn K.taken K.faults self.old self.new sink.old sink.new result (octet ∷ []) }
    {
        if self.len < ROOM {
            self.room[self.len] = octet;
            self.len += 1;
            return Ok(());
        }
        self.put_over(sink, &[octet])
    }

    // Puts octets for which there may be no room. Most octets find room, so this stands apart.
    #[cold]
    #[inline(never)]
    fn put_over<K: Sink>(&mut self, sink: &mut K, octets: &[u8]) -> Result<(), Failed>
        ensures { PutsOn K.taken K.faults self.old self.new sink.old sink.new result octets.now }
    {
        let mut at = 0;
        'putting: while at < octets.len() {
            self.make_room(sink)?;
            let (_, rest) = octets.split_at(at);
            at += self.fill(rest);
        }
        Ok(())
    }

    // Puts two digits for each octet.
    #[tactic(auto, using(crate::proofs::WrittenLemmas::goes_waiting))]
    fn put_hex<K: Sink>(&mut self, sink: &mut K, octets: &[u8]) -> Result<(), Failed>
        ensures { PutsOn K.taken K.faults self.old self.new sink.old sink.new result (hex octets.now) }
    {
        if octets.len() <= (ROOM - self.len) / 2 {
            self.wait_hex(octets);
            return Ok(());
        }
        self.put_pieces(sink, octets)
    }

    // Puts two digits for each octet, where there may be no room for all.
    #[cold]
    #[inline(never)]
    fn put_pieces<K: Sink>(&mut self, sink: &mut K, octets: &[u8]) -> Result<(), Failed>
        ensures { PutsOn K.taken K.faults self.old self.new sink.old sink.new result (hex octets.now) }
    {
        let mut at = 0;
        'putting: while at < octets.len() {
            let (_, rest) = octets.split_at(at);
            let (piece, _) = rest.split_at(rest.len().min(PIECE));
            let mut room = [0u8; 2 * PIECE];
            let (digits, _) = room.split_at_mut(2 * piece.len());
            write_digits(piece, digits);
            self.put(sink, digits)?;
            at += piece.len();
        }
        Ok(())
    }

    // Lets a number of at most eight digits wait. Eight octets are laid down, the digits in front, and those behind them are laid over
    // by what comes next: a count of octets that is always the same is copied without a call.
    #[inline(always)]
    fn wait_number(&mut self, number: u64)
        requires short { number < 100000000 }
        requires room { length self.old + 8 ≤ 65536 }
        ensures { self.new ≡ self.old ++ decimal number }
    {
        let mut digits = [0u8; 2 * EIGHT];
        let begin = write_number(number, &mut digits, EIGHT);
        self.wait(&digits[begin..begin + EIGHT]);
        self.len -= begin;
    }

    // Puts a number in decimal. Most numbers of a report have one digit, which is put without a call.
    #[inline(always)]
    #[tactic(auto, using(std::proofs::lemmas::Fmt::decimal_digit))]
    fn put_number<K: Sink>(&mut self, sink: &mut K, number: u64) -> Result<(), Failed>
        ensures { PutsOn K.taken K.faults self.old self.new sink.old sink.new result (decimal number) }
    {
        if number < 10 {
            return self.put_octet(sink, b'0' + number as u8);
        }
        self.put_digits(sink, number)
    }

    // Puts the digits of a number, however many.
    #[inline(never)]
    fn put_digits<K: Sink>(&mut self, sink: &mut K, number: u64) -> Result<(), Failed>
        ensures { PutsOn K.taken K.faults self.old self.new sink.old sink.new result (decimal number) }
    {
        if number < SHORT && self.len <= ROOM - EIGHT {
            self.wait_number(number);
            return Ok(());
        }
        self.put_long(sink, number)
    }

    // Puts a number of any length, where there may be no room for it.
    #[cold]
    #[inline(never)]
    fn put_long<K: Sink>(&mut self, sink: &mut K, number: u64) -> Result<(), Failed>
        ensures { PutsOn K.taken K.faults self.old self.new sink.old sink.new result (decimal number) }
    {
        let mut digits = [0u8; MOST];
        let begin = write_number(number, &mut digits, MOST);
        self.put(sink, &digits[begin..])
    }

    // Puts a word.
    #[inline(always)]
    #[tactic(auto, using(crate::proofs::WrittenLemmas::puts_two, crate::proofs::WrittenLemmas::cut_first))]
    fn put_word<K: Sink>(&mut self, sink: &mut K, word: LineWord<'_>) -> Result<(), Failed>
        ensures { PutsOn K.taken K.faults self.old self.new sink.old sink.new result (word_octets word.entry) }
    {
        match word {
            LineWord::Text(text) => self.put(sink, text),
            LineWord::Number(number) => self.put_number(sink, number),
            LineWord::Labelled(label, number) => match self.put(sink, label) {
                Ok(()) => self.put_number(sink, number),
                Err(fault) => Err(fault),
            },
            LineWord::Marked(number, mark) => match self.put_number(sink, number) {
                Ok(()) => self.put(sink, mark),
                Err(fault) => Err(fault),
            },
            LineWord::Hex(octets) => self.put_hex(sink, octets),
        }
    }

    /// Puts a blank and a word. Where the kind of the word is known, nothing asks for it: so the lines of which a report has most are put
    /// word by word.
    #[inline(always)]
    pub fn put_next<K: Sink>(&mut self, sink: &mut K, word: LineWord<'_>) -> Result<(), Failed>
        ensures { PutsOn K.taken K.faults self.old self.new sink.old sink.new result (codes " " ++ word_octets word.entry) }
    {
        match self.put_octet(sink, b' ') {
            Ok(()) => self.put_word(sink, word),
            Err(fault) => Err(fault),
        }
    }

    /// Puts a blank, the last word of a line, and the line's end.
    #[inline(always)]
    pub fn put_last<K: Sink>(&mut self, sink: &mut K, word: LineWord<'_>) -> Result<(), Failed>
        ensures { PutsOn K.taken K.faults self.old self.new sink.old sink.new result (line_end (word_octets word.entry ∷ [])) }
    {
        match self.put_next(sink, word) {
            Ok(()) => self.put_octet(sink, b'\n'),
            Err(fault) => Err(fault),
        }
    }

    // Puts words with a blank before each.
    fn put_words<K: Sink>(&mut self, sink: &mut K, words: &[LineWord<'_>]) -> Result<(), Failed>
        ensures { PutsOn K.taken K.faults self.old self.new sink.old sink.new result (spaced (map word_octets words.now)) }
    {
        for word in words {
            self.put_next(sink, *word)?;
        }
        Ok(())
    }

    /// Puts a line by its words: a first one, and those behind it. It takes no memory.
    #[tactic(auto, using(crate::proofs::LineLemmas::line_end_spaced, crate::proofs::WrittenLemmas::puts_two, crate::proofs::WrittenLemmas::cut_first))]
    pub fn put_line<K: Sink>(
        &mut self,
        sink: &mut K,
        first: &[u8],
        words: &[LineWord<'_>],
    ) -> Result<(), Failed>
        ensures { PutsOn K.taken K.faults self.old self.new sink.old sink.new result (line_of (first.now ∷ map word_octets words.now)) }
    {
        if let Err(fault) = self.put(sink, first) {
            return Err(fault);
        }
        match self.put_words(sink, words) {
            Ok(()) => self.put_octet(sink, b'\n'),
            Err(fault) => Err(fault),
        }
    }
}
