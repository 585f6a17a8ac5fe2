//! Which interface parameters were met.
ghost use Rattle.std.specs.Prelude.{◌≡◌, ◌++◌, ◌∷◌, [], ℕ, List, IsSome};
ghost use Rattle.pw_tlvs.specs.{declared.registry.Registry.TheVariants.{InterfaceParameter}, SubTlvs.{SubTlv, Stood, sub_tlv_row, values}};
ghost use Rattle.pw_tlvs.specs.Found.{MetSays};

/// Which of the known interface parameters stand before a place.
#[derive(Clone, Copy)]
pub struct MetParams {
    pub mtu: bool,
    pub description: bool,
    pub vlan: bool,
    pub vccv: bool,
}

impl MetParams {
    /// None was met.
    pub fn none() -> MetParams
        ensures { MetSays result [] }
    {
        MetParams {
            mtu: false,
            description: false,
            vlan: false,
            vccv: false,
        }
    }

    /// Whether a parameter of the known type was met.
    pub fn has(self, kind: u8) -> bool
        ensures { (subs : List SubTlv) → MetSays self subs → Stood InterfaceParameter subs kind result }
    {
        match kind {
            0x01 => self.mtu,
            0x03 => self.description,
            0x06 => self.vlan,
            0x0c => self.vccv,
            _ => false,
        }
    }

    /// The same with one more parameter, of which none of a known type was met.
    #[tactic(auto, using(crate::proofs::FoundLemmas::said_new, crate::proofs::FoundLemmas::said_other))]
    pub fn with(self, kind: u8) -> MetParams
        ensures { (subs : List SubTlv) (value : List ℕ) → MetSays self subs → (IsSome (sub_tlv_row InterfaceParameter kind) → values kind subs ≡ []) → MetSays result (subs ++ record { kind = kind; value = value } ∷ []) }
    {
        match kind {
            0x01 => MetParams { mtu: true, ..self },
            0x03 => MetParams {
                description: true,
                ..self
            },
            0x06 => MetParams { vlan: true, ..self },
            0x0c => MetParams { vccv: true, ..self },
            _ => self,
        }
    }
}
