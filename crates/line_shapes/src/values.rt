//! Values of a line.

use net_base::{CircuitId, EdgeId, WireId};
use std::marker::Model;

/// What the words behind the first one of a line say: places and numbers, three at most. Contracts see it as the list of them.
#[derive(Debug, Drop)]
pub struct Values {
    items: [u64; 3],
    len: usize,
}

impl Model for Values {
    ghost use Rattle.std.specs.Prelude.{◌≤◌, ℕ, List, take};

    ghost Value = { List ℕ };

    ghost view = { λ v. take v.len v.items };

    ghost invariant = { λ v. v.len ≤ 3 };
}

impl Values {
    ghost use Rattle.std.specs.Prelude.{◌≡◌, ◌<◌, ◌≤◌, ◌++◌, ◌∷◌, [], length, take};
    ghost use Rattle.line_shapes.specs.Shapes.{nth_value};

    /// No values.
    pub fn new() -> Values
        ensures { result ≡ [] }
    {
        Values {
            items: [0; 3],
            len: 0,
        }
    }

    /// These values.
    pub fn of(values: &[u64]) -> Values
        requires { length values.now ≤ 3 }
        ensures { result ≡ values.now }
    {
        let mut all = Values::new();
        for value in values {
            all.push(*value);
        }
        all
    }

    /// One more value.
    pub fn push(&mut self, value: u64)
        requires { length self.old < 3 }
        ensures { self.new ≡ self.old ++ value ∷ [] }
    {
        self.items[self.len] = value;
        self.len += 1;
    }

    /// The value at a place from 0, and 0 behind the last one.
    pub fn at(&self, place: usize) -> u64
        ensures { result ≡ nth_value place self.now }
    {
        if place < self.len {
            self.items[place]
        } else {
            0
        }
    }

    /// The edge of the place that is a value.
    pub fn edge(&self, place: usize) -> EdgeId
        requires { nth_value place self.now < 65536 }
        ensures { result ≡ record { 0 = nth_value place self.now } }
    {
        EdgeId(self.at(place) as u16)
    }

    /// The circuit of the place that is a value.
    pub fn circuit(&self, place: usize) -> CircuitId
        requires { nth_value place self.now < 65536 }
        ensures { result ≡ record { 0 = nth_value place self.now } }
    {
        CircuitId(self.at(place) as u16)
    }

    /// The wire of the place that is a value.
    pub fn wire(&self, place: usize) -> WireId
        requires { nth_value place self.now < 65536 }
        ensures { result ≡ record { 0 = nth_value place self.now } }
    {
        WireId(self.at(place) as u16)
    }
}
