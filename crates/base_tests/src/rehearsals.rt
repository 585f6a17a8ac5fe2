//! The rehearsal: its wires, and the frames that some seeds draw, as another program made them.

use crate::words::{holds, is_same};
use net_base::{EdgeId, Event, WirePlan};
use rehearsal::rehearsal;
use scenario_text::{Command, Scenario};
use std::alloc::Global;
use std::process::Abort;
use text_pieces::{put_number, put_text};

// Each wire by its name, the numbers of its two edges, its PW ID and its priority.
const WIRES: &str =
    "m1:1-2:101:100 m2:1-3:102:100 m3:1-4:103:100 m4:1-5:104:100 m5:1-6:105:100 m6:1-7:106:100 m7:1-8:107:100 m8:2-3:108:100 m9:2-4:109:100 m10:2-5:110:100 m11:2-6:111:100 m12:2-7:112:100 m13:2-8:113:100 m14:3-4:114:100 m15:3-5:115:100 m16:3-6:116:100 m17:3-7:117:100 m18:3-8:118:100 m19:4-5:119:100 m20:4-6:120:100 m21:4-7:121:100 m22:4-8:122:100 m23:5-6:123:100 m24:5-7:124:100 m25:5-8:125:100 m26:6-7:126:100 m27:6-8:127:100 m28:7-8:128:100 p9:9-1:201:10 q9:9-2:202:20 p10:10-2:203:10 q10:10-3:204:20 p11:11-3:205:10 q11:11-4:206:20 p12:12-4:207:10 q12:12-5:208:20 p13:13-5:209:10 q13:13-6:210:20 p14:14-6:211:10 q14:14-7:212:20 p15:15-7:213:10 q15:15-8:214:20 p16:16-8:215:10 q16:16-1:216:20 ";

// The numbers of the circuits at which the first six and the last three of the frames enter, and of the stations to which they go: 0 is
// everybody.
const FRAMES: [(u64, &str); 3] = [
    (0, "16>8 2>16 14>15 9>14 1>12 16>0 14>2 16>4 10>6 "),
    (1, "7>1 13>8 11>5 11>7 10>11 12>8 7>16 3>15 3>4 "),
    (u64::MAX, "9>7 6>7 1>8 6>3 9>13 4>9 5>15 13>2 1>9 "),
];

// Adds a number and a mark.
fn add(rt: &impl Abort, text: &mut Vec<u8>, number: u64, mark: &[u8]) {
    put_number(text, number).expect(rt, "memory");
    put_text(text, mark).expect(rt, "memory");
}

// Adds the words of a wire.
fn add_wire(rt: &impl Abort, text: &mut Vec<u8>, wire: &WirePlan) {
    put_text(text, wire.name.as_slice()).expect(rt, "memory");
    put_text(text, b":").expect(rt, "memory");
    if let [EdgeId(from), EdgeId(to)] = wire.path.as_slice() {
        add(rt, text, *from as u64 + 1, b"-");
        add(rt, text, *to as u64 + 1, b":");
    }
    add(rt, text, u64::from(wire.pw_id), b":");
    add(rt, text, u64::from(wire.priority), b" ");
}

// Adds the words of a command, where it is a frame.
fn add_frame(rt: &impl Abort, text: &mut Vec<u8>, command: &Command) {
    if let Command::One(Event::Frame { circuit, bytes }) = command {
        let octets = bytes.as_slice();
        if octets.len() == 60 && octets[11] as u64 == circuit.0 as u64 + 1 {
            let to = if octets[0] == 255 { 0 } else { octets[5] };
            add(rt, text, circuit.0 as u64 + 1, b">");
            add(rt, text, u64::from(to), b" ");
        }
    }
}

fn scenario_of(rt: &impl Abort, alloc: Global, seed: u64) -> Scenario {
    rehearsal(alloc, seed).expect(rt, "memory")
}

// Adds the words of those commands that are frames.
fn add_frames(rt: &impl Abort, text: &mut Vec<u8>, commands: &[Command]) {
    for command in commands {
        add_frame(rt, text, command);
    }
}

// The commands of a seed have these frames: the first six stand, each with its way, behind 44 connections and the settling, and the last
// three at the end.
fn have(rt: &impl Abort, alloc: Global, commands: &[Command], frames: &str) {
    holds(rt, commands.len() == 4045, "4,045 commands");
    let (first, _) = commands.split_at(57);
    let (_, last) = commands.split_at(4039);
    let mut text = Vec::new(alloc);
    add_frames(rt, &mut text, first);
    add_frames(rt, &mut text, last);
    holds(rt, is_same(text.as_slice(), frames.as_bytes()), frames);
}

// A seed draws these frames.
fn draws(rt: &impl Abort, alloc: Global, seed: u64, frames: &str) {
    let scenario = scenario_of(rt, alloc, seed);
    have(rt, alloc, scenario.commands.as_slice(), frames);
}

// These wires are those of the mesh and the spokes.
fn are_those(rt: &impl Abort, alloc: Global, wires: &[WirePlan]) {
    let mut text = Vec::new(alloc);
    for wire in wires {
        add_wire(rt, &mut text, wire);
    }
    holds(rt, is_same(text.as_slice(), WIRES.as_bytes()), WIRES);
}

#[test]
fn wires_of_the_mesh_and_the_spokes(rt: HostRuntime) {
    let scenario = scenario_of(&rt, rt.alloc(), 1);
    are_those(&rt, rt.alloc(), scenario.plan.wires.as_slice());
}

#[test]
fn frames_as_they_are_drawn(rt: HostRuntime) {
    let alloc = rt.alloc();
    for (seed, frames) in &FRAMES {
        draws(&rt, alloc, *seed, frames);
    }
}
