//! The switching points that a pseudowire passed.
ghost use Rattle.std.specs.Prelude.{◌≡◌, ◌++◌, ◌∷◌, ◌<◌, ◌≤◌, ◌==◌, [], length, slice_get};

use crate::Point;
use crate::held_points::HeldPoints;
use std::marker::Model;

/// The switching points that a pseudowire passed, in order, and at most three. They are held inline.
/// Contracts see them as the list of the points.
#[derive(Clone, Copy, Debug, PartialEq, Eq)]
pub struct Points {
    held: HeldPoints,
}

impl Model for Points {
    ghost use Rattle.std.specs.Prelude.{List};
    ghost use Rattle.pw_tlvs.specs.{declared.point.Point.{Point}, Points.{points_of, held_points, held_points_again}};

    ghost Value = { List Point };

    ghost view = { λ p. points_of p.held };

    ghost inverse = { λ points. record { held = held_points points } };

    ghost inverse_ok = { λ a h i. record { held = held_points_again a.held i } };
}

impl Points {
    /// No points.
    pub fn empty() -> Points
        ensures { result ≡ [] }
    {
        Points {
            held: HeldPoints::None,
        }
    }

    /// Adds a point at the end. Fewer than three are held.
    pub fn add(&mut self, point: Point)
        requires room { length self.old < 3 }
        ensures { self.new ≡ self.old ++ point ∷ [] }
    {
        self.held = match self.held {
            HeldPoints::None => HeldPoints::One(point),
            HeldPoints::One(first) => HeldPoints::Two(first, point),
            HeldPoints::Two(first, second) => HeldPoints::Three(first, second, point),
            HeldPoints::Three(..) => self.held,
        };
    }

    /// The number of points.
    pub fn len(&self) -> usize
        ensures count { result ≡ length self.now }
        ensures within { result ≤ 3 }
    {
        match self.held {
            HeldPoints::None => 0,
            HeldPoints::One(..) => 1,
            HeldPoints::Two(..) => 2,
            HeldPoints::Three(..) => 3,
        }
    }

    /// Whether there is no point.
    pub fn is_empty(&self) -> bool
        ensures { result ≡ (length self.now == 0) }
    {
        matches!(self.held, HeldPoints::None)
    }

    /// The point at an index from 0; `None` exactly where the index is not below the number of points.
    pub fn get(&self, index: usize) -> Option<Point>
        ensures { result ≡ slice_get self.now index }
    {
        match (self.held, index) {
            (HeldPoints::One(point), 0)
            | (HeldPoints::Two(point, _), 0)
            | (HeldPoints::Three(point, _, _), 0) => { Some(point) }
            (HeldPoints::Two(_, point), 1) | (HeldPoints::Three(_, point, _), 1) => Some(point),
            (HeldPoints::Three(_, _, point), 2) => Some(point),
            _ => None,
        }
    }
}
