//! The IPv4 Transport Address TLV.

use crate::tlv_value::{PlainTlv, TlvValue};
use ldp_grammar::TRANSPORT_ADDRESS;
use net_values::{Addr, put};

/// IPv4 Transport Address (RFC 5036 section 3.5.2).
impl TlvValue for Addr {
    ghost use Rattle.net_values.specs.declared.field.Field.TheVariants as field;
    ghost use Rattle.ldp_grammar.specs.{Rows.{transport_address}, Values.{IsTransportAddress}};

    ghost number = { transport_address };

    ghost word = { transport_address };

    ghost field = { field.Transport };

    ghost means = { IsTransportAddress };

    ghost can_write = { λ _. Unit {0} };

    ghost octets = { λ a. a.0 };

    fn number() -> u16 {
        TRANSPORT_ADDRESS
    }

    fn word() -> u16 {
        TRANSPORT_ADDRESS
    }

    fn size(&self) -> usize {
        let Addr(octets) = *self;
        octets.len()
    }

    fn put(&self, out: &mut [u8], at: usize) -> usize {
        put(out, at, &self.0)
    }
}

impl PlainTlv for Addr {
    fn read(value: &[u8]) -> Addr {
        Addr([value[0], value[1], value[2], value[3]])
    }
}
