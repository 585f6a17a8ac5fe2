//! The words of a line.
ghost use Rattle.std.specs.Prelude.{◌≡◌, ◌≤◌, drop, length, map};
ghost use Rattle.line_shapes.specs.{Shapes.{form_of, row_words}, Told.{words_told}};
ghost use Rattle.text_lines.specs.Lines.{word_octets};

use crate::shape::Shape;
use crate::values::Values;
use crate::writer::write_words;
use net_base::Plan;
use text_lines::LineWord;

/// The words of a line, four at most.
#[derive(Clone, Copy)]
pub struct ShapedWords<'a> {
    // The words, and behind them others.
    words: [LineWord<'a>; 4],
    // How many there are.
    count: usize,
}

impl<'a> ShapedWords<'a> {
    /// The words of the values of a row. A place outside the plan is written as the empty text.
    pub fn of(plan: &'a Plan, shape: Shape<'a>, values: &Values) -> ShapedWords<'a>
        requires few { length shape.1.now ≤ 3 }
        ensures { words_told result ≡ row_words plan.now (form_of shape.entry) values.now }
    {
        let mut words = [LineWord::Text(&[]); 4];
        let count = write_words(plan, shape, values, &mut words);
        ShapedWords { words, count }
    }

    /// Three words.
    pub fn three(words: [LineWord<'a>; 3]) -> ShapedWords<'a>
        ensures { words_told result ≡ map word_octets words.entry }
    {
        let [first, second, third] = words;
        ShapedWords {
            words: [first, second, third, LineWord::Text(&[])],
            count: 3,
        }
    }

    /// The words in order.
    #[tactic(auto, using(std::proofs::lemmas::List::take_min))]
    pub fn as_slice(&self) -> &[LineWord<'a>]
        ensures { map word_octets result.now ≡ words_told self.now }
    {
        let (words, _) = self.words.split_at(self.count.min(4));
        words
    }

    /// Those behind the first one.
    #[tactic(auto, using(crate::proofs::WordLemmas::behind_first))]
    pub fn behind(&self) -> &[LineWord<'a>]
        ensures { map word_octets result.now ≡ drop 1 (words_told self.now) }
    {
        match self.as_slice() {
            [_, words @ ..] => words,
            [] => &[],
        }
    }
}
