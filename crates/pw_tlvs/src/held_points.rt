//! How points are held.

use crate::Point;

/// At most three points, held inline.
#[derive(Clone, Copy, Debug, PartialEq, Eq)]
pub enum HeldPoints {
    None,
    One(Point),
    Two(Point, Point),
    Three(Point, Point, Point),
}
