//! The command `migrate`: what it writes, and what is refused before.

use crate::around::{lines_play, plays};

// A scenario of version 1 without rows or events.
const MIGRATE: &str = "
: words migrate f
: opening version = 1
events = [
: closing ]
: entries 0
";

// A document of either version, and no document.
const MIGRATED: &str = r#"
= Version 1.
: taken
events = []
version = 2

= Version 2.
: opening version = 2
events = [
: taken
events = []
version = 2

= Another version.
: opening version = 3
events = [
: told 5 vplsnet: scenario: Version
= A key of the far end stands in a table of its own.
: opening version = 2
events = [
: tables
edge = [{ name = "a", address = "10.0.0.1" }, { name = "b", address = "10.0.0.2" }]
service = [{ name = "s" }]
[[wire]]
name = "w"
service = "s"
class = "mesh"
path = ["a", "b"]
pw_id = 1
: wires
far_mtu = 1400
: told 5 vplsnet: scenario: UnknownKey wire 1 far_mtu
"#;

// Words that are no row of the table.
const USAGE_ROWS: &str = "
    $ migrate -> ! 2 vplsnet: usage
    $ migrate f f -> ! 2 vplsnet: usage
";

const FAILED: &str = "
= A call of the shelf fails.
: shelf 1
: told 3 vplsnet: read fault
= A call of the sink fails.
: sink 1
: told 4 vplsnet: write fault
= The sink takes a front.
: room 6
: told 4 vplsnet: write fault
: taken
events = []
version = 2

";

#[test]
fn migrates_what_it_reads(rt: HostRuntime) {
    plays(&rt, rt.alloc(), MIGRATE, MIGRATED);
}

#[test]
fn migrates_nothing_else(rt: HostRuntime) {
    lines_play(&rt, rt.alloc(), MIGRATE, USAGE_ROWS);
    plays(&rt, rt.alloc(), MIGRATE, FAILED);
}
