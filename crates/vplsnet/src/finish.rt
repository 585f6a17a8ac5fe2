//! The end of a call of the program.
ghost use Rattle.std.specs.Prelude.{◌≡◌, None};
ghost use Rattle.vplsnet.specs.{Around.{trace_of}, Finish.{exit_status}};

use crate::outcome::Outcome;
use net_base::Entry;
use psn_net::Network;

/// How a call of the program ended, and the network of its run.
#[derive(Drop)]
pub struct Finish {
    /// The status with which the program ends.
    pub status: u8,
    pub outcome: Outcome,
    /// The network as the run left it; none where no run began.
    pub network: Option<Network>,
}

impl Finish {
    /// The end of a call in which no run began.
    pub fn without_run(outcome: Outcome) -> Finish
        ensures status { result.status ≡ exit_status outcome }
        ensures outcome { result.outcome ≡ outcome }
        ensures network { result.network ≡ None }
    {
        Finish::after_run(outcome, None)
    }

    /// The end of a call whose run, where one began, left this network.
    pub fn after_run(outcome: Outcome, network: Option<Network>) -> Finish
        ensures status { result.status ≡ exit_status outcome }
        ensures outcome { result.outcome ≡ outcome }
        ensures network { result.network ≡ network }
    {
        Finish {
            status: outcome.status(),
            outcome,
            network,
        }
    }

    /// The entries of the run in order; none where no run began.
    pub fn trace(&self) -> &[Entry]
        ensures { result.now ≡ trace_of self.now.network }
    {
        match &self.network {
            Some(network) => network.trace().as_slice(),
            None => &[],
        }
    }
}
