//! Questions about a service of a network.
ghost use Rattle.std.specs.Prelude.{◌≡◌};
ghost use Rattle.network_model.specs.Calm.{is_calm, is_full, is_quiet};
ghost use Rattle.psn_net.specs.Lists.{network_seen};

use crate::Network;
use calm_services::{is_calm, is_full, is_quiet};
use net_base::ServiceId;

impl Network {
    /// Whether a service is quiet: between each two edges that a segment of one of its wires joins either neither end of their
    /// connection stands, or both stand, and no octets are on their way or held that are no whole PDU yet. It takes no memory.
    pub fn is_quiet(&self, service: ServiceId) -> bool
        ensures { result ≡ is_quiet self.now.plan (network_seen self.now) service }
    {
        is_quiet(&self.parts, service)
    }

    /// Whether a service is full: each two core edges of it have a mesh wire of it that forwards at both ends (RFC 4762 section
    /// 4.4), and is stitched at each edge between them (RFC 6073 section 4). A core edge has a port of the service, and starts no
    /// spoke of it. It takes no memory.
    pub fn is_full(&self, service: ServiceId) -> bool
        ensures { result ≡ is_full self.now.plan (network_seen self.now) service }
    {
        is_full(&self.parts, service)
    }

    /// Whether a service is calm: it is quiet and full, and each edge that starts a spoke of it has exactly one spoke that forwards
    /// at both ends (RFC 4762 sections 4.4 and 10.2), and is stitched at each edge between them. It takes no memory.
    pub fn is_calm(&self, service: ServiceId) -> bool
        ensures { result ≡ is_calm self.now.plan (network_seen self.now) service }
    {
        is_calm(&self.parts, service)
    }
}
