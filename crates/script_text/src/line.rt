//! Lines of a script.
ghost use Rattle.std.specs.Prelude.{◌≡◌, drop, length, slice_get, option_map};

use crate::words::{after, count, word};
use net_base::Word;
use std::marker::Model;

/// A line of a script. Contracts see it as the list of its words.
#[derive(Debug, Drop)]
pub struct Line {
    text: Word,
}

impl Model for Line {
    ghost use Rattle.std.specs.Prelude.{List, ℕ};
    ghost use Rattle.script_text.specs.Script.{words_of};

    ghost Value = { List (List ℕ) };

    ghost view = { λ l. words_of l.text };
}

impl Line {
    ghost use Rattle.script_text.specs.Script.{spaced_words, words_of};

    /// The line of a text.
    pub(crate) fn of(text: Word) -> Line
        ensures { result ≡ words_of text }
    {
        Line { text }
    }

    /// The number of words, one at least.
    pub fn len(&self) -> usize
        ensures { result ≡ length self.now }
    {
        count(self.text.as_str().as_bytes())
    }

    /// The word at an index from 0; `None` exactly where the index is not below the length.
    pub fn word(&self, index: usize) -> Option<&str>
        ensures { option_map (λ w. w.now) result ≡ slice_get self.now index }
    {
        word(self.text.as_str(), index)
    }

    /// What follows the first word and its space; empty where there is no second word.
    #[tactic(auto, using(crate::proofs::PartLemmas::words_behind, crate::proofs::PartLemmas::no_words_behind))]
    pub fn rest(&self) -> &str
        ensures { result.now ≡ spaced_words (drop 1 self.now) }
    {
        match after(self.text.as_str()) {
            Some(rest) => rest,
            None => "",
        }
    }
}
