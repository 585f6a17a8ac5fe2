//! An input from its words.
ghost use Rattle.std.specs.Prelude.{IfSome};
ghost use Rattle.provider_edge.specs.Taking.{IsInRange};

use crate::names::{circuit_of, edge_of, wire_of};
use edge_model::Input;
use net_base::Plan;

/// The words of an input: what it is, the row that it names, and what follows that.
#[derive(Clone, Copy)]
pub struct Words<'a> {
    pub kind: &'a str,
    pub name: &'a str,
    pub more: &'a str,
}

// A text up to its first blank, and what follows that.
fn cut(text: &str) -> (&str, &str) {
    match text.split_once(' ') {
        Some(parts) => parts,
        None => (text, ""),
    }
}

impl<'a> Words<'a> {
    /// The words of a line.
    pub fn of(line: &'a str) -> Words<'a> {
        let (kind, rest) = cut(line);
        let (name, more) = cut(rest);
        Words { kind, name, more }
    }

    /// The digits of its octets; empty where it has none.
    pub fn digits(&self) -> &'a str {
        match self.kind {
            "octets" => self.more,
            "frame" => self.more,
            "packet" => self.name,
            _ => "",
        }
    }

    /// The input, which has these octets.
    pub fn input<'b>(&self, plan: &Plan, bytes: &'b [u8]) -> Option<Input<'b>>
        ensures { IfSome result IsInRange }
    {
        match self.kind {
            "tick" => Some(Input::Tick),
            "restart" => Some(Input::Restart),
            "packet" => Some(Input::Packet { bytes }),
            "frame" => Some(Input::Frame {
                circuit: circuit_of(plan, self.name)?,
                bytes,
            }),
            "circuit" => Some(Input::Circuit {
                circuit: circuit_of(plan, self.name)?,
                on: self.more == "on",
            }),
            "connected" => Some(Input::Connected {
                peer: edge_of(plan, self.name)?,
            }),
            "lost" => Some(Input::Lost {
                peer: edge_of(plan, self.name)?,
            }),
            "octets" => Some(Input::Octets {
                peer: edge_of(plan, self.name)?,
                bytes,
            }),
            _ => self.wire_input(plan),
        }
    }

    // The input, which names a wire.
    fn wire_input<'b>(&self, plan: &Plan) -> Option<Input<'b>>
        ensures { IfSome result IsInRange }
    {
        let wire = wire_of(plan, self.name)?;
        match self.kind {
            "wire" => Some(Input::Wire {
                wire,
                on: self.more == "on",
            }),
            "ping" => Some(Input::Ping { wire }),
            "priority" => Some(Input::Priority {
                wire,
                priority: self.more.parse::<u8>().ok()?,
            }),
            "status" => {
                let bits = self.more.parse::<u8>().ok()?;
                if bits > 31 {
                    return None;
                }
                Some(Input::Status { wire, bits })
            }
            _ => None,
        }
    }
}
