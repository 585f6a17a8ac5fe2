//! The Status TLV.
ghost use Rattle.std.specs.Prelude.{◌≡◌, ◌<◌, ◌^◌};
ghost use Rattle.ldp_grammar.specs.Written.{status_octets};

use crate::numbers::{four, two};
use crate::tlv_value::{PlainTlv, TlvValue};
use crate::values::bit_of;
use crate::written_values::bit_value;
use byteorder::{BigEndian, ByteOrder};
use ldp_grammar::{STATUS, StatusCode};
use net_values::put;

/// Status (RFC 5036 section 3.4.6).
impl TlvValue for StatusCode {
    ghost use Rattle.std.specs.Prelude.{◌<◌, ◌^◌};
    ghost use Rattle.net_values.specs.declared.field.Field.TheVariants as field;
    ghost use Rattle.ldp_grammar.specs.{Rows.{status}, Values.{IsStatus}, Written.{status_octets}};

    ghost number = { status };

    ghost word = { status };

    ghost field = { field.Status };

    ghost means = { IsStatus };

    ghost can_write = { λ s. s.code < 2 ^ 30 };

    ghost octets = { status_octets };

    fn number() -> u16 {
        STATUS
    }

    fn word() -> u16 {
        STATUS
    }

    fn size(&self) -> usize {
        10
    }

    fn put(&self, out: &mut [u8], at: usize) -> usize {
        put(out, at, &status_bytes(*self))
    }
}

impl PlainTlv for StatusCode {
    fn read(value: &[u8]) -> StatusCode {
        let word = four(value, 0);
        StatusCode {
            fatal: bit_of(31, word),
            forward: bit_of(30, word),
            code: word % 0x4000_0000,
            message: four(value, 4),
            kind: two(value, 8),
        }
    }
}

// The value as it is written.
fn status_bytes(status: StatusCode) -> [u8; 10]
    requires { status.code < 2 ^ 30 }
    ensures { result ≡ status_octets status }
{
    let word = bit_value(31, status.fatal) + bit_value(30, status.forward) + status.code;
    let mut octets = [0u8; 10];
    BigEndian::write_u32(&mut octets, word);
    BigEndian::write_u32(&mut octets[4..], status.message);
    BigEndian::write_u16(&mut octets[8..], status.kind);
    octets
}
