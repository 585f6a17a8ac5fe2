//! The words of a line of a report.

use line_shapes::Words;

/// The words of a line of a report.
#[derive(Clone, Copy)]
pub struct ToldWords<'a, 't> {
    pub words: &'a [&'t [u8]],
}

impl<'a, 't> Words for ToldWords<'a, 't> {
    ghost use Rattle.std.specs.Prelude.{map};

    ghost words = { λ told. map (λ w. w.now) told.words.now };

    fn word_at(&self, at: usize) -> Option<&[u8]> {
        match self.words.get(at) {
            Some(word) => Some(word),
            None => None,
        }
    }
}
