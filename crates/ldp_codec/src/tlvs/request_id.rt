//! The Label Request Message ID TLV.

use crate::numbers::four;
use crate::tlv_value::{PlainTlv, TlvValue};
use crate::written_values::four_bytes;
use ldp_grammar::REQUEST_ID;
use net_values::put;

/// The Message ID of the Label Request that is taken back (RFC 5036 section 3.5.9).
#[derive(Clone, Copy)]
pub struct RequestId(pub u32);

/// Label Request Message ID (RFC 5036 section 3.5.9).
impl TlvValue for RequestId {
    ghost use Rattle.net_values.specs.declared.field.Field.TheVariants as field;
    ghost use Rattle.ldp_grammar.specs.{Octets.{four}, Rows.{request_id}, Values.{IsNumber}};

    ghost number = { request_id };

    ghost word = { request_id };

    ghost field = { field.RequestId };

    ghost means = { λ value request. IsNumber value request.0 };

    ghost can_write = { λ _. Unit {0} };

    ghost octets = { λ request. four request.0 };

    fn number() -> u16 {
        REQUEST_ID
    }

    fn word() -> u16 {
        REQUEST_ID
    }

    fn size(&self) -> usize {
        4
    }

    fn put(&self, out: &mut [u8], at: usize) -> usize {
        put(out, at, &four_bytes(self.0))
    }
}

impl PlainTlv for RequestId {
    fn read(value: &[u8]) -> RequestId {
        RequestId(four(value, 0))
    }
}
