//! Scripts of independent mode that are wrong, each with its first word that fits no line.
ghost use Rattle.net_base.specs.plan.Accepted.{IsChecked};

use crate::script_files::plans::long_wire;
use crate::script_files::scripts::is_at;
use crate::words::holds;
use net_base::Plan;
use std::alloc::Global;
use std::process::Abort;
use switchover_script::read_script;

// Names of no edge; words that are missing or one too many; numbers that are too small or too large; a wire of three edges, and names of no
// wire; first words of no line; and a word that is none behind one that fits no line.
const FAULTS: [(&str, u32, u32); 27] = [
    ("connect a\n", 1, 3),
    ("connect a d\n", 1, 3),
    ("connect w b\n", 1, 2),
    ("connect a b c\n", 1, 4),
    ("cut\n", 1, 2),
    ("cut a b 1\n", 1, 4),
    ("deliver a b\n", 1, 4),
    ("deliver a b 0\n", 1, 4),
    ("deliver a b 65536\n", 1, 4),
    ("deliver a b 01\n", 1, 4),
    ("deliver a b 1 1\n", 1, 5),
    ("settle\n", 1, 2),
    ("settle 0\n", 1, 2),
    ("settle 10001\n", 1, 2),
    ("settle 9 9\n", 1, 3),
    ("ask a u\n", 1, 3),
    ("standby b u\n", 1, 3),
    ("active c u\n", 1, 3),
    ("ask a\n", 1, 3),
    ("ask a b\n", 1, 3),
    ("ask d w\n", 1, 2),
    ("ask a w w\n", 1, 4),
    ("Ask a w\n", 1, 1),
    ("set a w\n", 1, 1),
    ("tick\n", 1, 1),
    ("connect a b\nsettle 9\nask a u\n", 3, 3),
    ("connect a b\nask a u\nsettle  9\n", 3, 2),
];

// The first fault of a short script is here.
fn has_fault(rt: &impl Abort, alloc: Global, plan: &Plan, row: &(&str, u32, u32))
    requires { IsChecked plan.now }
{
    let (text, line, word) = row;
    holds(rt, text.len() < 1000, "a short script");
    is_at(
        rt,
        read_script(alloc, plan, text.as_bytes()).err(),
        *line,
        *word,
    );
}

// Each script has its first fault there.
fn have_faults(rt: &impl Abort, alloc: Global, plan: &Plan)
    requires { IsChecked plan.now }
{
    for row in FAULTS.as_slice() {
        has_fault(rt, alloc, plan, row);
    }
}

#[test]
fn names_the_first_word_that_fits_no_line(rt: HostRuntime) {
    let plan = long_wire(&rt, rt.alloc());
    have_faults(&rt, rt.alloc(), &plan);
}
