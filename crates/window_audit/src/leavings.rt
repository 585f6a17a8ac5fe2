//! Where one frame left.
ghost use Rattle.std.specs.Prelude.{◌≡◌, ◌≢◌, ◌<◌, ◌||◌, ℕ, true, false, nat_lt};
ghost use Rattle.hvpls_spokes.specs.PortSet.{holds_port};

use hvpls_spokes::PortSet as PlaceSet;

/// Where the copies of one frame left.
#[derive(Clone, Copy)]
pub struct Leavings {
    /// The circuits at which one left, by their places.
    pub at: PlaceSet,
    /// Whether two left at one circuit.
    pub again: bool,
    /// Whether one had passed more than twelve segments.
    pub far: bool,
}

impl Leavings {
    /// None left.
    pub fn none() -> Leavings
        ensures at { (c : ℕ) → holds_port result.at c ≡ false }
        ensures again { result.again ≡ false }
        ensures far { result.far ≡ false }
    {
        Leavings {
            at: PlaceSet::empty(),
            again: false,
            far: false,
        }
    }

    /// One leaves at a circuit, and has passed so many segments.
    pub fn leave(&mut self, circuit: u16, hops: u64)
        requires { circuit < 512 }
        ensures here { holds_port self.new.at circuit ≡ true }
        ensures others { (c : ℕ) → c ≢ circuit → holds_port self.new.at c ≡ holds_port self.old.at c }
        ensures again { self.new.again ≡ self.old.again || holds_port self.old.at circuit }
        ensures far { self.new.far ≡ self.old.far || nat_lt 12 hops }
    {
        self.again = self.again || self.at.contains(circuit);
        self.far = self.far || hops > 12;
        self.at.insert(circuit);
    }
}
