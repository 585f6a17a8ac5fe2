//! The command `replay`: the report of a scenario's run.
ghost use Rattle.std.specs.Prelude.{◌≡◌};
ghost use Rattle.text_lines.specs.Written.{PutsOn};
ghost use Rattle.vplsnet.specs.Replay.{ending_by, replay_text};

use crate::scenario_run::ScenarioRun;
use net_base::{Failed, Sink};
use psn_net::NetStop;
use report_text::{Ending, put_report};
use text_lines::Page;

/// Puts the report of a run, also of one that a limit stopped.
pub fn put_replayed<K: Sink>(page: &mut Page, sink: &mut K, run: &ScenarioRun) -> Result<(), Failed>
    ensures { PutsOn K.taken K.faults page.old page.new sink.old sink.new result (replay_text run.now.network run.now.stop) }
{
    let network = &run.network;
    let trace = network.trace().as_slice();
    put_report(page, sink, network.plan(), trace, ending_of(run.stop))
}

/// How the report ends of a run that this limit stopped, or none.
pub fn ending_of(stop: Option<NetStop>) -> Ending
    ensures { result ≡ ending_by stop }
{
    match stop {
        None | Some(NetStop::NoMemory) => Ending::End,
        Some(NetStop::Crowded { count, .. }) => Ending::Crowded { count },
        Some(NetStop::TooMuch { weight, .. }) => Ending::TooMuch { weight },
    }
}
