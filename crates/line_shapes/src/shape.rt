//! Shapes.

use crate::kind::Kind;

/// The shape of a line: its first word, and what those behind it say.
#[derive(Clone, Copy, Debug)]
pub struct Shape<'a>(pub &'a [u8], pub &'a [Kind]);
