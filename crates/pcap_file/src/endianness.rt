//! The byte order of a capture.
ghost use Rattle.std.specs.Prelude.{◌≡◌, ◌≤◌, ◌+◌, length};
ghost use Rattle.pcap_file.specs.Numbers.{number_in_order, order_told};

use byteorder::{BigEndian, ByteOrder, LittleEndian};

/// The order of the octets in each number of a capture.
#[derive(Clone, Copy, Debug, PartialEq, Eq)]
pub enum Endianness {
    /// The high octet first.
    Big,
    /// The low octet first.
    Little,
}

impl Endianness {
    /// The order that a magic tells, where its octets are taken with the high one first.
    pub fn told_by(magic: u32) -> Option<Endianness>
        ensures { result ≡ order_told magic }
    {
        match magic {
            0xA1B2C3D4 | 0xA1B23C4D => Some(Endianness::Big),
            0xD4C3B2A1 | 0x4D3CB2A1 => Some(Endianness::Little),
            _ => None,
        }
    }

    /// The number of the two octets at a place.
    pub fn two_at(self, place: usize, octets: &[u8]) -> u16
        requires { place + 2 ≤ length octets.now }
        ensures { result ≡ number_in_order self 2 place octets.now }
    {
        let (_, number) = octets.split_at(place);
        match self {
            Endianness::Big => BigEndian::read_u16(number),
            Endianness::Little => LittleEndian::read_u16(number),
        }
    }

    /// The number of the four octets at a place.
    pub fn four_at(self, place: usize, octets: &[u8]) -> u32
        requires { place + 4 ≤ length octets.now }
        ensures { result ≡ number_in_order self 4 place octets.now }
    {
        let (_, number) = octets.split_at(place);
        match self {
            Endianness::Big => BigEndian::read_u32(number),
            Endianness::Little => LittleEndian::read_u32(number),
        }
    }
}
