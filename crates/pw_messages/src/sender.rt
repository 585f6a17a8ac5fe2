//! Who sends a message, and its number.
ghost use Rattle.std.specs.Prelude.{◌≡◌};
ghost use Rattle.pw_messages.specs.Sender.{following, platform_of};

use ldp_grammar::LdpId;
use net_base::Addr;

/// The platform's label space of a router (RFC 5036 section 2.2.2).
pub fn platform_of(router: Addr) -> LdpId
    ensures { result ≡ platform_of router }
{
    LdpId { router, space: 0 }
}

/// The number behind a message's number (RFC 5036 section 3.5).
pub fn following(id: u32) -> u32
    ensures { result ≡ following id }
{
    if id == u32::MAX { 0 } else { id + 1 }
}
