//! What interface parameters say, as far as they were read.
ghost use Rattle.std.specs.Prelude.{◌≡◌, ◌++◌, ◌∷◌, [], List, None, IsSome};
ghost use Rattle.pw_tlvs.specs.declared.registry.Registry.TheVariants.{InterfaceParameter};
ghost use Rattle.pw_tlvs.specs.{SubTlvs.{SubTlv, IsGood, Stood, sub_tlv_row, values}, Fec.{text_of}, Found.{FoundSays}};

use crate::IfParams;
use byteorder::{BigEndian, ByteOrder};
use net_values::Text;

/// What the known interface parameters before a place say. An empty description that was told is told.
#[derive(Clone, Copy, Debug, PartialEq, Eq)]
pub struct FoundParams {
    pub mtu: Option<u16>,
    pub description: Option<Text<80>>,
    pub vlan: Option<u16>,
    pub vccv: Option<(u8, u8)>,
}

impl FoundParams {
    /// Nothing was told.
    pub fn none() -> FoundParams
        ensures { FoundSays result [] }
    {
        FoundParams {
            mtu: None,
            description: None,
            vlan: None,
            vccv: None,
        }
    }

    /// Whether a parameter of the known type was told.
    pub fn has(&self, kind: u8) -> bool
        ensures { (subs : List SubTlv) → FoundSays self.now subs → Stood InterfaceParameter subs kind result }
    {
        match kind {
            0x01 => self.mtu.is_some(),
            0x03 => self.description.is_some(),
            0x06 => self.vlan.is_some(),
            0x0c => self.vccv.is_some(),
            _ => false,
        }
    }

    /// The same with one more parameter, of which none of a known type was told.
    pub fn with(self, kind: u8, value: &[u8]) -> FoundParams
        requires { IsGood InterfaceParameter (record { kind = kind; value = value.now }) }
        ensures { (subs : List SubTlv) → FoundSays self subs → (IsSome (sub_tlv_row InterfaceParameter kind) → values kind subs ≡ []) → FoundSays result (subs ++ record { kind = kind; value = value.now } ∷ []) }
    {
        match kind {
            0x01 => FoundParams {
                mtu: Some(BigEndian::read_u16(value)),
                ..self
            },
            0x03 => FoundParams {
                description: Text::read(value),
                ..self
            },
            0x06 => FoundParams {
                vlan: Some(BigEndian::read_u16(value)),
                ..self
            },
            0x0c => FoundParams {
                vccv: Some((value[0], value[1])),
                ..self
            },
            _ => self,
        }
    }

    /// The parameters that were told.
    pub fn params(self) -> IfParams
        ensures { result ≡ record { mtu = self.mtu; description = text_of self.description; vlan = self.vlan; vccv = self.vccv } }
    {
        let description = match self.description {
            Some(text) => text,
            None => no_text(),
        };
        IfParams {
            mtu: self.mtu,
            description,
            vlan: self.vlan,
            vccv: self.vccv,
        }
    }
}

/// The empty description.
pub fn no_text() -> Text<80>
    ensures { result ≡ [] }
{
    Text::read(&[]).unwrap()
}
