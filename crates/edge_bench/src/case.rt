//! An edge over a link in memory.
ghost use Rattle.std.specs.Prelude.{IfSome};
ghost use Rattle.provider_edge.specs.Taking.{IsInRange};

use crate::effect::put_effect;
use crate::input::Words;
use edge_model::{Effects, Input};
use net_base::{List, MemLink, Plan, Sink};
use provider_edge::Edge;
use std::alloc::Global;
use text_lines::Page;

/// The edge of a plan, and its link.
#[derive(Drop)]
pub struct Case<'a> {
    pub plan: &'a Plan,
    pub edge: Edge,
    pub link: MemLink,
}

impl<'a> Case<'a> {
    /// Takes an input, and answers what the edge gives out.
    pub fn take(&mut self, alloc: Global, line: &str) -> Option<Effects> {
        let words = Words::of(line);
        match hex::decode(alloc, words.digits()) {
            Ok(octets) => self.take_input(alloc, words.input(self.plan, octets.as_slice())),
            Err(_) => None,
        }
    }

    // Takes an input, where there is one.
    fn take_input(&mut self, alloc: Global, input: Option<Input<'_>>) -> Option<Effects>
        requires { IfSome input IsInRange }
    {
        match input {
            Some(input) => self.edge.take(alloc, input, &mut self.link).ok(),
            None => None,
        }
    }

    /// Puts a line for each thing that the edge gave out.
    pub fn put<K: Sink>(&self, effects: &Effects, page: &mut Page, sink: &mut K) -> Option<()> {
        if effects.idle {
            page.put_line(sink, b"idle", &[]).ok()?;
        }
        for effect in effects.list.as_slice() {
            put_effect(page, sink, self.plan, effect).ok()?;
        }
        Some(())
    }
}

/// A link of which the calls with the numbers of a text fail, a word each; `None` where a word is none, or memory was refused.
pub fn link_of(alloc: Global, fails: &str) -> Option<MemLink> {
    let mut numbers = List::new(alloc);
    if add_numbers(&mut numbers, fails) {
        MemLink::new(alloc, numbers).ok()
    } else {
        None
    }
}

// Adds the numbers of a text, a word each; false where a word is none, or memory was refused.
fn add_numbers(numbers: &mut List<u64>, words: &str) -> bool {
    for word in words.split(' ') {
        if !word.is_empty() && !add_number(numbers, word) {
            return false;
        }
    }
    true
}

// Adds the number of a word; false where it is none, or memory was refused.
fn add_number(numbers: &mut List<u64>, word: &str) -> bool {
    match word.parse::<u64>() {
        Ok(number) => numbers.push(number).is_ok(),
        Err(_) => false,
    }
}
