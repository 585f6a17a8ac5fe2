//! The Common Hello Parameters TLV.
ghost use Rattle.std.specs.Prelude.{◌≡◌};
ghost use Rattle.ldp_grammar.specs.Written.{hello_parameters_octets};

use crate::numbers::two;
use crate::tlv_value::{PlainTlv, TlvValue};
use crate::values::bit_of;
use crate::written_values::{bit_value, tlv_header};
use ldp_grammar::HELLO_PARAMETERS;
use net_values::put;

/// The hold time in seconds, the T bit and the R bit (RFC 5036 section 3.5.2).
#[derive(Clone, Copy)]
pub struct HelloParams {
    pub hold: u16,
    pub targeted: bool,
    pub request: bool,
}

/// Common Hello Parameters (RFC 5036 section 3.5.2).
impl TlvValue for HelloParams {
    ghost use Rattle.net_values.specs.declared.field.Field.TheVariants as field;
    ghost use Rattle.ldp_grammar.specs.{Rows.{hello_parameters}, Values.{IsHello}, Written.{hello_parameters_octets}};

    ghost number = { hello_parameters };

    ghost word = { hello_parameters };

    ghost field = { field.Hello };

    ghost means = { λ value params. IsHello value params.hold params.targeted params.request };

    ghost can_write = { λ _. Unit {0} };

    ghost octets = { λ params. hello_parameters_octets params.hold params.targeted params.request };

    fn number() -> u16 {
        HELLO_PARAMETERS
    }

    fn word() -> u16 {
        HELLO_PARAMETERS
    }

    fn size(&self) -> usize {
        4
    }

    fn put(&self, out: &mut [u8], at: usize) -> usize {
        put(out, at, &hello_bytes(*self))
    }
}

impl PlainTlv for HelloParams {
    fn read(value: &[u8]) -> HelloParams {
        let flags = two(value, 2) as u32;
        HelloParams {
            hold: two(value, 0),
            targeted: bit_of(15, flags),
            request: bit_of(14, flags),
        }
    }
}

// The value as it is written.
fn hello_bytes(params: HelloParams) -> [u8; 4]
    ensures { result ≡ hello_parameters_octets params.hold params.targeted params.request }
{
    let flags = bit_value(15, params.targeted) + bit_value(14, params.request);
    tlv_header(params.hold, flags as u16)
}
