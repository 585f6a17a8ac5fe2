//! The network of edges in independent mode.
ghost use Rattle.std.specs.Prelude.{◌≡◌, ◌<◌, List, IfOk};
ghost use Rattle.net_base.specs.plan.Accepted.{IsChecked};
ghost use Rattle.switchover_model.specs.{Laws.{HasSwitchTypes}, Network.{first_network}};
ghost use Rattle.switchover_net.specs.Net.{ShowsSwitchState};

mod lines;
mod steps;

use crate::edge_row::EdgeRow;
use net_base::{List, NoMemory, Plan};
use octet_pipes::Pipes;
use std::alloc::Global;
use std::marker::Model;
use switchover_model::{SwitchEntry, SwitchLine};

/// The edges of a plan in independent mode, and the octets on their way between them. Contracts see lists by the plan's places, and by
/// `Shows` the state of the network.
#[derive(Drop)]
pub struct SwitchNet {
    row: EdgeRow,
    pipes: Pipes,
}

impl Model for SwitchNet {
    ghost use Rattle.switchover_net.specs.Net.{IsNet, SwitchLists};

    ghost Value = { SwitchLists };

    ghost view = { λ n. record { row = n.row; pipes = n.pipes } };

    ghost invariant = { λ n. IsNet (record { row = n.row; pipes = n.pipes }) };
}

impl SwitchNet {
    /// The network of a plan before its first line.
    #[tactic(auto, using(crate::proofs::NetLemmas::opened))]
    pub fn open(alloc: Global, plan: &Plan) -> Result<SwitchNet, NoMemory>
        requires checked { IsChecked plan.now }
        requires types { HasSwitchTypes plan.now }
        ensures plan { IfOk result (λ net. net.row.plan ≡ plan.now) }
        ensures first { IfOk result (λ net. ShowsSwitchState net first_network) }
    {
        Ok(SwitchNet {
            row: EdgeRow::open(alloc, plan)?,
            pipes: Pipes::open(alloc, plan.edges.len())?,
        })
    }

    /// The plan.
    pub fn plan(&self) -> &Plan
        ensures { result.now ≡ self.now.row.plan }
    {
        self.row.plan()
    }
}
