//! The captures that are left to be played.
ghost use Rattle.std.specs.Prelude.{◌≡◌};
ghost use Rattle.command_run.specs.Made.{later_captures, next_frames};

use net_base::{List, Octets};
use std::alloc::Global;
use std::marker::Model;
use std::vec::IntoIter;

/// The captures of a run that are left to be played, in their order. Contracts see them as the list of their frames.
#[derive(Drop)]
pub struct LeftCaptures {
    rest: IntoIter<List<Octets>>,
}

impl Model for LeftCaptures {
    ghost use Rattle.std.specs.Prelude.{ℕ, List as Items};

    ghost Value = { Items (Items (Items ℕ)) };

    ghost view = { λ c. c.rest.rest.items };
}

impl LeftCaptures {
    /// All captures of a run.
    pub fn of(captures: List<List<Octets>>) -> LeftCaptures
        ensures { result ≡ captures }
    {
        LeftCaptures {
            rest: captures.into_items().into_iter(),
        }
    }

    /// Takes the frames of the next capture; there are none where no capture is left.
    pub fn take_next(&mut self, alloc: Global) -> List<Octets>
        ensures frames { result ≡ next_frames self.old }
        ensures later { self.new ≡ later_captures self.old }
    {
        match self.rest.next() {
            Some(frames) => frames,
            None => List::new(alloc),
        }
    }
}
