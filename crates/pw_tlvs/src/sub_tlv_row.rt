//! Rows of the tables of sub-TLVs.
ghost use Rattle.std.specs.Prelude.{◌≡◌};
ghost use Rattle.pw_tlvs.specs.SubTlvs.{row_fits, sub_tlv_row as the_row};

use crate::registry::Registry;
use net_values::Field;

/// What a sub-TLV of a known type has to be: the field that its faults name, and the least and the most that
/// its length may be.
#[derive(Clone, Copy, Debug, PartialEq, Eq)]
pub struct SubTlvRow {
    pub field: Field,
    pub least: u8,
    pub most: u8,
}

impl SubTlvRow {
    /// Whether the length is one that the row has.
    pub fn fits(self, length: u8) -> bool
        ensures { result ≡ row_fits self length }
    {
        self.least <= length && length <= self.most
    }
}

/// The row of a known type.
pub fn row_of(registry: Registry, kind: u8) -> Option<SubTlvRow>
    ensures { result ≡ the_row registry kind }
{
    let (field, least, most) = match (registry, kind) {
        (Registry::InterfaceParameter, 0x01) => (Field::Mtu, 4, 4),
        (Registry::InterfaceParameter, 0x03) => (Field::Description, 2, 82),
        (Registry::InterfaceParameter, 0x06) => (Field::Vlan, 4, 4),
        (Registry::InterfaceParameter, 0x0c) => (Field::Vccv, 4, 4),
        (Registry::SwitchingPointPart, 0x01 | 0x03 | 0x04) => (Field::Point, 4, 4),
        _ => return None,
    };
    Some(SubTlvRow { field, least, most })
}
