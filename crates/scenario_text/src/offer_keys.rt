//! The keys of what an end of a wire offers.
ghost use Rattle.std.specs.Prelude.{◌≡◌};
ghost use Rattle.scenario_text.specs.Offers.{keys_view, near_keys, far_keys};

/// The keys at which stands what an end of a wire offers.
#[derive(Clone, Copy)]
pub struct OfferKeys {
    pub mode: &'static str,
    pub control_word: &'static str,
    pub mtu: &'static str,
    pub vlan: &'static str,
    pub vccv: &'static str,
    pub status: &'static str,
    pub group: &'static str,
    pub description: &'static str,
}

impl OfferKeys {
    /// The keys without a prefix: of the near end among a wire's own keys, and of either end in a table of its own.
    pub fn near() -> OfferKeys
        ensures { keys_view result ≡ near_keys }
    {
        OfferKeys {
            mode: "mode",
            control_word: "control_word",
            mtu: "mtu",
            vlan: "vlan",
            vccv: "vccv",
            status: "status",
            group: "group",
            description: "description",
        }
    }

    /// The keys of the far end among a wire's own keys.
    pub fn far() -> OfferKeys
        ensures { keys_view result ≡ far_keys }
    {
        OfferKeys {
            mode: "far_mode",
            control_word: "far_control_word",
            mtu: "far_mtu",
            vlan: "far_vlan",
            vccv: "far_vccv",
            status: "far_status",
            group: "far_group",
            description: "far_description",
        }
    }
}
