//! The MAC List TLV.

use crate::tlv_value::{KeptTlv, TlvValue};
use ldp_grammar::{MAC_LIST, U_BIT};
use net_values::{List, Mac, NoMemory};
use pw_tlvs::{MacsFault, macs_size, read_macs, write_macs};
use std::alloc::Global;

/// MAC List (RFC 4762 section 6.2).
impl TlvValue for List<Mac> {
    ghost use Rattle.std.specs.Prelude.{◌+◌};
    ghost use Rattle.net_values.specs.declared.field.Field.TheVariants as field;
    ghost use Rattle.ldp_grammar.specs.Rows.{mac_list};
    ghost use Rattle.pw_tlvs.specs.Macs.{AreMacs, mac_octets};

    ghost number = { mac_list };

    ghost word = { 0x8000 + mac_list };

    ghost field = { field.MacList };

    ghost means = { AreMacs };

    ghost can_write = { λ _. Unit {0} };

    ghost octets = { mac_octets };

    fn number() -> u16 {
        MAC_LIST
    }

    fn word() -> u16 {
        U_BIT + MAC_LIST
    }

    fn size(&self) -> usize {
        macs_size(self)
    }

    #[tactic(auto, using(crate::proofs::PutLemmas::put_within))]
    fn put(&self, out: &mut [u8], at: usize) -> usize {
        let end = at + macs_size(self);
        write_macs(self, &mut out[at..]);
        end
    }
}

impl KeptTlv for List<Mac> {
    fn read(alloc: Global, value: &[u8]) -> Result<List<Mac>, NoMemory> {
        match read_macs(alloc, value) {
            Ok(list) => Ok(list),
            Err(MacsFault::NoMemory) => Err(NoMemory),
            // Whole addresses have no fault.
            Err(MacsFault::Field(_)) => unreachable!(),
        }
    }
}
