//! Pieces of rows of octets.
ghost use Rattle.std.specs.Prelude.{◌≡◌, ◌≤◌, ◌+◌, ◌++◌, length, take, drop};

/// The four octets at a place.
pub fn four_at(octets: &[u8], at: usize) -> [u8; 4]
    requires { at + 4 ≤ length octets.now }
    ensures { result ≡ take 4 (drop at octets.now) }
{
    let mut four = [0u8; 4];
    four.copy_from_slice(octets.split_at(at).1.split_at(4).0);
    four
}

/// Four octets and then four others.
pub fn joined(front: [u8; 4], back: [u8; 4]) -> [u8; 8]
    ensures { result ≡ front ++ back }
{
    let mut octets = [0u8; 8];
    let (first, second) = octets.split_at_mut(4);
    first.copy_from_slice(&front);
    second.copy_from_slice(&back);
    octets
}
