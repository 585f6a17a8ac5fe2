//! A scenario of version 1 that is migrated: its table of version 2, key by key, as an independent program made it.

use crate::words::{holds, is_same};
use migration::migrate;
use scenario_text::read_scenario;
use std::alloc::Global;
use std::process::Abort;

// Both ends of the first wire have a group, of its far end no MTU is told, and of the second wire the near end alone has a group.
const OLD: &str = "version = 1
events = ['connect a b', 'settle 2', 'flow 3', 'tick', 'tick 1', 'tick 4', 'frame x 0A0b', 'play x a.pcap']
edge = [{ name = 'a', address = '10.0.0.1' }, { name = 'b', address = '10.0.0.2', first_label = 99 }]
service = [{ name = 's', mtu = 1400 }, { name = 't' }]
circuit = [{ name = 'x', edge = 'a', service = 's', tag = 7 }, { name = 'y', edge = 'b', service = 's' }]
[[wire]]
name = 'v'
service = 's'
class = 'mesh'
path = ['a', 'b']
pw_id = 1
group = 7
far_group = 3
far_mtu = 0
description = '\"é\"'
[[wire]]
name = 'w'
service = 't'
class = 'spoke'
path = ['b', 'a']
pw_id = 2
group = 3
far_group = 0
vlan = 5
mode = 'tagged'
vccv = 7
";

const NEW: &str = "version = 2
events = [
    'connect a b',
    'settle 2',
    'flow 3',
    'tick',
    'tick 1',
    'tick 4',
    'frame x 0a0b',
    'play x a.pcap',
]
edge = [
    { name = 'a', address = '10.0.0.1', first_label = 16, keepalive = 180, max_pdu = 4096 },
    { name = 'b', address = '10.0.0.2', first_label = 99, keepalive = 180, max_pdu = 4096 },
]
service = [
    { name = 's', mtu = 1400, age = 300 },
    { name = 't', mtu = 1500, age = 300 },
]
group = [
    { name = 'g7', number = 7 },
    { name = 'g3', number = 3 },
]
circuit = [
    { name = 'x', edge = 'a', service = 's', tag = 7 },
    { name = 'y', edge = 'b', service = 's' },
]
wire = [
    { name = 'v', service = 's', class = 'mesh', path = ['a', 'b'], pw_id = 1, priority = 100, near = { mode = 'raw', control_word = true, mtu = 1400, vccv = 0, status = true, group = 'g7', description = '\"é\"' }, far = { mode = 'raw', control_word = true, mtu = 0, vccv = 0, status = true, group = 'g3', description = '\"é\"' } },
    { name = 'w', service = 't', class = 'spoke', path = ['b', 'a'], pw_id = 2, priority = 100, near = { mode = 'tagged', control_word = true, mtu = 1500, vlan = 5, vccv = 7, status = true, group = 'g3', description = '' }, far = { mode = 'tagged', control_word = true, mtu = 1500, vlan = 5, vccv = 7, status = true, description = '' } },
]
";

// The table of version 2, as it is printed.
fn printed(rt: &impl Abort, alloc: Global) -> String {
    let table = toml::table_from_str(alloc, NEW).expect(rt, "a table");
    toml::table_to_string(alloc, &table).expect(rt, "memory")
}

#[test]
#[tactic(auto, using(migration::proofs::JoinLemmas::was_read))]
fn writes_each_key(rt: HostRuntime) {
    let alloc = rt.alloc();
    let scenario = read_scenario(alloc, OLD.as_bytes()).expect(&rt, "a scenario");
    let printed = printed(&rt, alloc);
    let text = migrate(alloc, &scenario).expect(&rt, "memory");
    holds(&rt, is_same(text.as_bytes(), printed.as_bytes()), NEW);
}
