//! Scripts of discovery that are wrong, each with its first word that fits no line.
ghost use Rattle.net_base.specs.plan.Accepted.{IsChecked};

use crate::script_files::plans::three_edges;
use crate::script_files::scripts::is_at;
use crate::words::holds;
use discovery_script::read_script;
use net_base::Plan;
use std::alloc::Global;
use std::process::Abort;

// A hold time that is too large, or has a zero in front; words that are missing or one too many; names of no edge; numbers of no Hello; first
// words of no line, and commands that no script says; and a word that is none behind one that fits no line.
const FAULTS: [(&str, u32, u32); 30] = [
    ("hello a b 70000\n", 1, 4),
    ("hello a b 65536\n", 1, 4),
    ("hello a b 045\n", 1, 4),
    ("hello a b\n", 1, 4),
    ("hello a b 45 x\n", 1, 5),
    ("hello a d 45\n", 1, 3),
    ("hello w a 45\n", 1, 2),
    ("hello\n", 1, 2),
    ("bring 0\n", 1, 2),
    ("bring 18446744073709551616\n", 1, 2),
    ("bring\n", 1, 2),
    ("bring 1 2\n", 1, 3),
    ("open a\n", 1, 3),
    ("open d b\n", 1, 2),
    ("open a b c\n", 1, 4),
    ("tick 1\n", 1, 2),
    ("Tick\n", 1, 1),
    ("do\n", 1, 2),
    ("do connect a b\n", 1, 2),
    ("do tick\n", 1, 2),
    ("do tick 3\n", 1, 2),
    ("do play w f\n", 1, 2),
    ("do settle 0\n", 1, 3),
    ("do settle 1 2\n", 1, 4),
    ("do deliver a b 0\n", 1, 5),
    ("do deliver a b 1 2\n", 1, 6),
    ("do hello a b 1\n", 1, 2),
    ("tick\nhello a b 45\nopen a d\n", 3, 3),
    ("open a d\ntick \n", 2, 2),
    ("open a d\ntick", 2, 2),
];

// The first fault of a short script is here.
fn has_fault(rt: &impl Abort, alloc: Global, plan: &Plan, row: &(&str, u32, u32))
    requires { IsChecked plan.now }
{
    let (text, line, word) = row;
    holds(rt, text.len() < 1000, "a short script");
    is_at(
        rt,
        read_script(alloc, plan, text.as_bytes()).err(),
        *line,
        *word,
    );
}

// Each script has its first fault there.
fn have_faults(rt: &impl Abort, alloc: Global, plan: &Plan)
    requires { IsChecked plan.now }
{
    for row in FAULTS.as_slice() {
        has_fault(rt, alloc, plan, row);
    }
}

#[test]
fn names_the_first_word_that_fits_no_line(rt: HostRuntime) {
    let plan = three_edges(&rt, rt.alloc());
    have_faults(&rt, rt.alloc(), &plan);
}
