//! The inputs of a file, which an edge takes over a link in memory. Each is printed with what the edge gives out.
//!
//! The first line of the inputs names the edge, and the second one the calls of the link that fail. Each line that begins with `> ` is
//! an input; the others are passed over.
ghost use Rattle.std.specs.Prelude.{◌<◌, length};
ghost use Rattle.net_base.specs.plan.Accepted.{IsChecked};

use crate::case::{Case, link_of};
use crate::names::edge_of;
use net_base::{EdgeId, List, MemLink, MemSink, Plan, Sink};
use provider_edge::Edge;
use scenario_text::read_scenario;
use std::alloc::Global;
use std::io::Write;
use std::{fs, mem};
use text_lines::Page;

/// The most octets that are printed.
const ROOM: usize = 67_108_864;

/// Takes the inputs of a file at an edge of a scenario, and prints what comes of them; `None` where a file is not as it has to be.
pub fn print_cases(rt: &HostRuntime, scenario: &str, inputs: &str) -> Option<()> {
    match fs::read_to_string(rt, scenario) {
        Ok(text) => print_scenario(rt, text.as_str(), inputs),
        Err(_) => None,
    }
}

// The same over the text of the scenario.
fn print_scenario(rt: &HostRuntime, text: &str, inputs: &str) -> Option<()> {
    match read_scenario(rt.alloc(), text.as_bytes()) {
        Ok(scenario) => print_file(rt, &scenario.plan, inputs),
        Err(_) => None,
    }
}

// The same over the plan of the scenario.
fn print_file(rt: &HostRuntime, plan: &Plan, inputs: &str) -> Option<()>
    requires { IsChecked plan.now }
{
    match fs::read_to_string(rt, inputs) {
        Ok(text) => print_plan(rt, plan, text.as_str()),
        Err(_) => None,
    }
}

// The same over the text of the inputs.
fn print_plan(rt: &HostRuntime, plan: &Plan, inputs: &str) -> Option<()>
    requires { IsChecked plan.now }
{
    let mut lines = inputs.lines();
    let me = edge_of(plan, lines.next()?.strip_prefix("edge ")?)?;
    match link_of(rt.alloc(), lines.next()?.strip_prefix("fails")?) {
        Some(link) => print_edge(rt, plan, me, link, inputs),
        None => None,
    }
}

// The same at the edge that the inputs name, over its link.
fn print_edge(rt: &HostRuntime, plan: &Plan, me: EdgeId, link: MemLink, inputs: &str) -> Option<()>
    requires checked { IsChecked plan.now }
    requires me { me.0 < length plan.now.edges }
{
    match Edge::open(rt.alloc(), plan, me) {
        Ok(edge) => {
            let mut case = Case { plan, edge, link };
            let printed = print(rt, &mut case, inputs);
            // The system takes all memory back at once.
            mem::forget(case);
            printed
        }
        Err(_) => None,
    }
}

// Takes the inputs, and prints each.
fn print(rt: &HostRuntime, case: &mut Case<'_>, inputs: &str) -> Option<()> {
    match MemSink::new(rt.alloc(), ROOM, List::new(rt.alloc())) {
        Ok(mut sink) => {
            put_inputs(rt.alloc(), case, inputs, &mut sink)?;
            rt.stdout().write_all(sink.taken()).ok()
        }
        Err(_) => None,
    }
}

// Takes the inputs, and puts each.
fn put_inputs<K: Sink>(
    alloc: Global,
    case: &mut Case<'_>,
    inputs: &str,
    sink: &mut K,
) -> Option<()> {
    match Page::new(alloc) {
        Ok(mut page) => {
            for line in inputs.lines() {
                put_line(alloc, case, line, &mut page, sink)?;
            }
            page.flush(sink).ok()
        }
        Err(_) => None,
    }
}

// Takes the input of a line, where it has one, and puts it with what comes of it.
fn put_line<K: Sink>(
    alloc: Global,
    case: &mut Case<'_>,
    line: &str,
    page: &mut Page,
    sink: &mut K,
) -> Option<()> {
    let Some(words) = line.strip_prefix("> ") else {
        return Some(());
    };
    match case.take(alloc, words) {
        Some(effects) => {
            page.put(sink, line.as_bytes()).ok()?;
            page.put(sink, b"\n").ok()?;
            case.put(&effects, page, sink)
        }
        None => None,
    }
}
