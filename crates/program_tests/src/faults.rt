//! The texts of a scenario's faults: the program tells each by its own text, and what it names behind it.

use crate::around::holds;
use net_base::{Place, PlanFault, Table, Text};
use psn_net::NetStop;
use scenario_text::ScenarioFault;
use std::alloc::Global;
use std::process::Abort;
use vplsnet::Outcome;
use vplsnet::finish_line::finish_line;

// Whether the program tells the fault by this line.
fn is_line(rt: &impl Abort, alloc: Global, fault: &ScenarioFault, text: &str) -> bool {
    let line = finish_line(alloc, &Outcome::ScenarioRefused(*fault)).expect(rt, "memory");
    line.as_slice() == text.as_bytes()
}

// The program tells the fault by the fault's own text, and these words behind it.
fn is_told(rt: &impl Abort, alloc: Global, fault: &ScenarioFault, rest: &str) {
    let text = format!(in alloc; "vplsnet: scenario: {fault}{rest}").expect(rt, "memory");
    holds(rt, is_line(rt, alloc, fault, text.as_str()), text.as_str());
}

// The key `name` of the second edge.
fn place(rt: &impl Abort) -> Place {
    Place {
        table: Table::Edge,
        index: 2,
        key: Text::read(b"name").expect(rt, "a key"),
    }
}

// The text of what stopped a network.
fn says(rt: &impl Abort, alloc: Global, stop: &NetStop, words: &str) {
    let text = format!(in alloc; "{stop}").expect(rt, "memory");
    holds(rt, text.as_str() == words, words);
}

const CROWDED: NetStop = NetStop::Crowded {
    count: 65_536,
    event: 7,
};

const TOO_MUCH: NetStop = NetStop::TooMuch {
    weight: 268_435_457,
    event: 3,
};

#[test]
fn tells_limits(rt: HostRuntime) {
    says(&rt, rt.alloc(), &CROWDED, "Crowded 65536 7");
    says(&rt, rt.alloc(), &TOO_MUCH, "TooMuch 268435457 3");
    says(&rt, rt.alloc(), &NetStop::NoMemory, "NoMemory");
}

#[test]
fn tells_faults(rt: HostRuntime) {
    let alloc = rt.alloc();
    is_told(&rt, alloc, &ScenarioFault::NotToml, "");
    is_told(&rt, alloc, &ScenarioFault::Version, "");
    is_told(&rt, alloc, &ScenarioFault::NoMemory, "");
    let word = ScenarioFault::BadWord { event: 7, word: 3 };
    is_told(&rt, alloc, &word, "");
    let many = ScenarioFault::TooMany {
        table: Table::Edge,
        limit: 64,
    };
    is_told(&rt, alloc, &many, " edge 64");
    let name = " edge 2 name";
    is_told(&rt, alloc, &ScenarioFault::Missing(place(&rt)), name);
    is_told(&rt, alloc, &ScenarioFault::WrongKind(place(&rt)), name);
    is_told(&rt, alloc, &ScenarioFault::UnknownKey(place(&rt)), name);
    let repeated = ScenarioFault::Plan(PlanFault::RepeatedName(place(&rt)));
    is_told(&rt, alloc, &repeated, " RepeatedName edge 2 name");
}
