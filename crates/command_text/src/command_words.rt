//! The words of a command.

use line_shapes::Words;
use script_text::word;

/// The words of a command, parted by one space.
#[derive(Clone, Copy)]
pub struct CommandWords<'a> {
    pub text: &'a str,
}

impl<'a> Words for CommandWords<'a> {
    ghost use Rattle.script_text.specs.Script.{words_of};

    ghost words = { λ words. words_of words.text.now };

    fn word_at(&self, at: usize) -> Option<&[u8]> {
        match word(self.text, at) {
            Some(word) => Some(word.as_bytes()),
            None => None,
        }
    }
}
