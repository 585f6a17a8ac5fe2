//! An edge over a link in memory.
ghost use Rattle.provider_edge.specs.Taking.{IsInRange};

use crate::links::link_of;
use crate::scenarios::plan_of;
use edge_model::{Effects, Input};
use net_base::{EdgeId, List, MemLink};
use provider_edge::Edge;
use std::alloc::Global;
use std::process::Abort;

/// An edge, its link, what came of its last input, and how many calls of the link have been handed to the neighbour.
#[derive(Drop)]
pub struct Side {
    pub edge: Edge,
    pub link: MemLink,
    pub effects: Effects,
    pub handed: usize,
}

// The edge of a scenario with this place.
fn opened(rt: &impl Abort, alloc: Global, pieces: &[&str], me: EdgeId) -> Edge {
    let plan = plan_of(rt, alloc, pieces);
    assert!(rt; usize::from(me.0) < plan.edges.len());
    let edge = Edge::open(alloc, &plan, me).expect(rt, "memory");
    drop(plan);
    edge
}

/// The edge of a scenario with this place; the call of its link with this number fails, and none for 0.
pub fn side_of(rt: &impl Abort, alloc: Global, pieces: &[&str], me: EdgeId, fails: u64) -> Side {
    Side {
        edge: opened(rt, alloc, pieces, me),
        link: link_of(rt, alloc, fails),
        effects: Effects {
            idle: true,
            list: List::new(alloc),
        },
        handed: 0,
    }
}

/// Takes an input.
pub fn take(rt: &impl Abort, alloc: Global, side: &mut Side, input: Input<'_>)
    requires { IsInRange input }
{
    side.effects = side
        .edge
        .take(alloc, input, &mut side.link)
        .expect(rt, "taken");
}

/// Takes an input so many times.
pub fn take_often(rt: &impl Abort, alloc: Global, side: &mut Side, input: Input<'_>, times: u16)
    requires { IsInRange input }
{
    for _time in 0..times {
        take(rt, alloc, side, input);
    }
}
