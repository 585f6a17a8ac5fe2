//! What was heard of the entries of a report.
ghost use Rattle.std.specs.Prelude.{◌≡◌, ◌<◌, ◌+◌, ◌++◌, ◌∷◌, ◌^◌, [], List, None, IfOk, OnOk};
ghost use Rattle.net_base.specs.{declared.trace.entry.Entry.{Entry as Told}, plan.Accepted.{IsChecked}};
ghost use Rattle.seen_state.specs.Placed.{IsPlaced};
ghost use Rattle.trace_audit.specs.Heard.{AnswersRule, IsAuditOf, HasHeardAll, WereHeard, broken_at};

use crate::AuditStop;
use crate::path_audit::PathAudit;
use net_base::{Entry, NoMemory, Plan};
use std::alloc::Global;
use window_audit::Windows;

/// What was heard of the entries so far: what the rules of paths need, and the windows that were seen.
#[derive(Drop)]
pub struct RuleAudit {
    path_audit: PathAudit,
    windows: Windows,
}

impl RuleAudit {
    /// Nothing was heard.
    #[tactic(auto, using(crate::proofs::RuleAuditLemmas::none_heard))]
    pub fn new(alloc: Global, plan: &Plan) -> Result<RuleAudit, NoMemory>
        requires { IsChecked plan.now }
        ensures ready { IfOk result (IsAuditOf plan.now) }
        ensures heard { IfOk result (HasHeardAll plan.now []) }
        ensures line { IfOk result (λ rule_audit. rule_audit.path_audit.line ≡ 1) }
    {
        match Windows::new(alloc, plan) {
            Ok(windows) => Ok(RuleAudit {
                path_audit: PathAudit::new(alloc),
                windows,
            }),
            Err(NoMemory) => Err(NoMemory),
        }
    }

    /// An entry more, of which each edge, circuit and wire is one of the plan.
    #[tactic(auto, using(crate::proofs::RuleAuditLemmas::one_heard))]
    pub fn hear(&mut self, alloc: Global, plan: &Plan, entry: Entry) -> Result<(), NoMemory>
        requires checked { IsChecked plan.now }
        requires placed { IsPlaced plan.now entry }
        requires ready { IsAuditOf plan.now self.old }
        requires few { self.old.path_audit.line < 2 ^ 63 }
        ensures ready { OnOk result (IsAuditOf plan.now self.new) }
        ensures line { OnOk result (self.new.path_audit.line ≡ self.old.path_audit.line + 1) }
        ensures heard { OnOk result ((trace : List Told) → HasHeardAll plan.now trace self.old → HasHeardAll plan.now (trace ++ entry ∷ []) self.new) }
    {
        match self.path_audit.hear(alloc, plan, &entry) {
            Ok(()) => self.windows.hear(plan, entry),
            Err(NoMemory) => Err(NoMemory),
        }
    }

    /// The first rule that fails, at its first line.
    pub fn answer(self, plan: &Plan) -> Result<(), AuditStop>
        requires checked { IsChecked plan.now }
        requires ready { IsAuditOf plan.now self }
        requires told { WereHeard plan.now self }
        ensures { (trace : List Told) → HasHeardAll plan.now trace self → AnswersRule plan.now trace result }
    {
        match self.path_audit.first_broken() {
            Some(stop) => {
                drop(self);
                Err(stop)
            }
            None => self.answer_once(plan),
        }
    }

    // Whether the rule of windows fails, where those of paths hold, and at which line first.
    fn answer_once(self, plan: &Plan) -> Result<(), AuditStop>
        requires checked { IsChecked plan.now }
        requires ready { IsAuditOf plan.now self }
        requires told { WereHeard plan.now self }
        requires kept { broken_at self.path_audit.stray self.path_audit.crossed ≡ None }
        ensures { (trace : List Told) → HasHeardAll plan.now trace self → AnswersRule plan.now trace result }
    {
        let RuleAudit {
            path_audit,
            windows,
        } = self;
        drop(path_audit);
        match windows.verdict(plan) {
            Ok(None) => Ok(()),
            Ok(Some(place)) => Err(AuditStop::Once { line: place + 2 }),
            Err(NoMemory) => Err(AuditStop::NoMemory),
        }
    }
}
