//! The Generic Label TLV.

use crate::tlv_value::TlvValue;
use crate::written_values::four_bytes;
use ldp_grammar::LABEL;
use net_values::{Label, put};

/// Generic Label (RFC 5036 section 3.4.2.1).
impl TlvValue for Label {
    ghost use Rattle.net_values.specs.declared.field.Field.TheVariants as field;
    ghost use Rattle.ldp_grammar.specs.{Octets.{four}, Rows.{label}, Values.{IsNumber}};

    ghost number = { label };

    ghost word = { label };

    ghost field = { field.Label };

    ghost means = { IsNumber };

    ghost can_write = { λ _. Unit {0} };

    ghost octets = { four };

    fn number() -> u16 {
        LABEL
    }

    fn word() -> u16 {
        LABEL
    }

    fn size(&self) -> usize {
        4
    }

    fn put(&self, out: &mut [u8], at: usize) -> usize {
        put(out, at, &four_bytes(self.number()))
    }
}
