//! The PW Status TLV.

use crate::numbers::four;
use crate::tlv_value::{PlainTlv, TlvValue};
use crate::written_values::four_bytes;
use ldp_grammar::{PW_STATUS, U_BIT};
use net_values::put;
use pw_tlvs::PwStatus;

/// PW Status (RFC 8077 section 6.3.2).
impl TlvValue for PwStatus {
    ghost use Rattle.std.specs.Prelude.{◌+◌};
    ghost use Rattle.net_values.specs.declared.field.Field.TheVariants as field;
    ghost use Rattle.ldp_grammar.specs.Rows.{pw_status};
    ghost use Rattle.pw_tlvs.specs.Status.{IsPwStatus, written_status};

    ghost number = { pw_status };

    ghost word = { 0x8000 + pw_status };

    ghost field = { field.PwStatus };

    ghost means = { IsPwStatus };

    ghost can_write = { λ _. Unit {0} };

    ghost octets = { written_status };

    fn number() -> u16 {
        PW_STATUS
    }

    fn word() -> u16 {
        U_BIT + PW_STATUS
    }

    fn size(&self) -> usize {
        4
    }

    fn put(&self, out: &mut [u8], at: usize) -> usize {
        put(out, at, &four_bytes(self.0))
    }
}

impl PlainTlv for PwStatus {
    fn read(value: &[u8]) -> PwStatus {
        PwStatus(four(value, 0))
    }
}
