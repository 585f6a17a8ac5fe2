//! What no clause says: that the form is that of reports, and which reports are good, on two small plans.
ghost use Rattle.net_base.specs.plan.Accepted.{IsChecked};

use crate::audits::once_rows;
use crate::audits::rows::{PLAN, ROWS};
use crate::audits::worked_rows::{
    ANSWERED, ANSWERED_END, BRIDGE, BRIDGED, CROSSED, HIERARCHY, MESH, MOVED, SET_UP, STITCHED,
    TWELVE,
};
use crate::words::{holds, is_told};
use net_base::Plan;
use scenario_text::read_scenario;
use std::alloc::Global;
use std::process::Abort;
use trace_audit::audit;

// The plan of a scenario.
fn plan(rt: &impl Abort, alloc: Global, scenario: &str) -> Plan
    ensures { IsChecked result }
{
    read_scenario(alloc, scenario.as_bytes())
        .expect(rt, "a scenario")
        .plan
}

// The audit of a report stops for the reason at the end of its first line.
fn is_judged(rt: &impl Abort, alloc: Global, plan: &Plan, head: &str, report: &str)
    requires { IsChecked plan.now }
{
    let (_, words) = head.split_once(" = ").expect(rt, "a reason");
    is_told(
        rt,
        alloc,
        &audit(alloc, plan, report.as_bytes()).err(),
        words,
    );
}

// Each of so many rows is judged so.
fn are_judged(rt: &impl Abort, alloc: Global, plan: &Plan, rows: &str, count: usize)
    requires { IsChecked plan.now }
{
    let mut judged: usize = 0;
    for row in rows.split("# ") {
        if let Some((head, report)) = row.split_once('\n') {
            is_judged(rt, alloc, plan, head, report);
            judged = judged.saturating_add(1);
        }
    }
    holds(rt, judged == count, "so many rows");
}

// The same in the plan of a scenario.
fn judges(rt: &impl Abort, alloc: Global, scenario: &str, rows: &str, count: usize) {
    let plan = plan(rt, alloc, scenario);
    are_judged(rt, alloc, &plan, rows, count);
}

#[test]
fn reports_with_one_thing_wrong_each(rt: HostRuntime) {
    judges(&rt, rt.alloc(), PLAN, ROWS, 47);
}

#[test]
fn frames_that_were_not_seen_exactly_once(rt: HostRuntime) {
    judges(&rt, rt.alloc(), once_rows::PLAN, once_rows::ROWS, 46);
}

#[test]
fn a_spoke_edge_with_more_or_less_than_one_spoke(rt: HostRuntime) {
    judges(
        &rt,
        rt.alloc(),
        once_rows::SPOKES,
        once_rows::OVER_SPOKES,
        3,
    );
}

#[test]
fn a_flooded_frame_of_a_bridge(rt: HostRuntime) {
    judges(&rt, rt.alloc(), BRIDGE, BRIDGED, 4);
}

// The report is good.
fn gets_yes(rt: &impl Abort, alloc: Global, scenario: &str, report: &str) {
    let plan = plan(rt, alloc, scenario);
    holds(
        rt,
        audit(alloc, &plan, report.as_bytes()).is_ok(),
        "a good report",
    );
}

// The report that `ANSWERED` and what follows it are is good.
fn answered_gets_yes(rt: &impl Abort, alloc: Global, rest: &str) {
    let mut report = String::from_str(alloc, ANSWERED).expect(rt, "memory");
    report.push_str(rest).expect(rt, "memory");
    gets_yes(rt, alloc, HIERARCHY, report.as_str());
}

#[test]
fn reports_of_runs_are_good(rt: HostRuntime) {
    let alloc = rt.alloc();
    gets_yes(&rt, alloc, MESH, CROSSED);
    answered_gets_yes(&rt, alloc, ANSWERED_END);
    answered_gets_yes(&rt, alloc, MOVED);
    gets_yes(&rt, alloc, STITCHED, TWELVE);
}

// A frame is flooded, and its packet does not arrive.
fn flood(rt: &impl Abort, alloc: Global, report: &mut String, number: u32) {
    let told = format!(in alloc;
        "> frame ca ffffffffffff0200000000010800\nin ca {number} ffffffffffff0200000000010800\nsent {number} a b w ca {number} 1 000101ff00000000ffffffffffff0200000000010800\n"
    ).expect(rt, "memory");
    report.push_str(told.as_str()).expect(rt, "memory");
}

// As many frames are flooded as packets may be on their way.
fn flood_all(rt: &impl Abort, alloc: Global, report: &mut String) {
    for number in 1..65537 {
        flood(rt, alloc, report, number);
    }
    report.push_str("stop Crowded 65536\n").expect(rt, "memory");
}

// The report of a run that stopped at 65,536 packets on their way.
fn crowded(rt: &impl Abort, alloc: Global) -> String {
    let mut report = String::from_str(alloc, SET_UP).expect(rt, "memory");
    flood_all(rt, alloc, &mut report);
    report
}

#[test]
fn a_run_that_stopped_with_all_on_their_way(rt: HostRuntime) {
    let alloc = rt.alloc();
    let report = crowded(&rt, alloc);
    gets_yes(&rt, alloc, MESH, report.as_str());
}
