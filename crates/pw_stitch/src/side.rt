//! The sides of a switching point.
ghost use Rattle.std.specs.Prelude.{◌≡◌};
ghost use Rattle.pw_stitch.specs.Side.{opposite};

/// A side of a switching point, in the order of the pseudowire's path (RFC 6073 section 4).
#[derive(Clone, Copy, Debug, PartialEq, Eq)]
pub enum Side {
    /// Towards the first edge of the path.
    Before,
    /// Towards the last edge of the path.
    After,
}

impl Side {
    /// The other side.
    pub fn opposite(self) -> Side
        ensures { result ≡ opposite self }
    {
        match self {
            Side::Before => Side::After,
            Side::After => Side::Before,
        }
    }
}
