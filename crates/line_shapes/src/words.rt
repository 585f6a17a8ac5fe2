//! The words of a line, wherever they lie.
ghost use Rattle.std.specs.Prelude.{◌≡◌, ℕ, List, option_map, slice_get};

use script_text::Line;

/// The words of a line.
pub trait Words {
    /// The words in order.
    ghost words: { Self → List (List ℕ) };

    /// The word at a place from 0; `None` exactly behind the last one.
    fn word_at(&self, at: usize) -> Option<&[u8]>
        ensures { option_map (λ w. w.now) result ≡ slice_get (words self.now) at };
}

impl Words for Line {
    ghost words = { λ line. line };

    fn word_at(&self, at: usize) -> Option<&[u8]> {
        match self.word(at) {
            Some(word) => Some(word.as_bytes()),
            None => None,
        }
    }
}
