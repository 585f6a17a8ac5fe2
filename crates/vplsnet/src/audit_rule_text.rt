//! A rule of the auditor in words.
ghost use Rattle.std.specs.{Prelude.{◌≡◌, ◌++◌, ◌∷◌, [], OnOk}, Fmt.{decimal}};
ghost use Rattle.text_pieces.specs.Pieces.{spaced};
ghost use Rattle.vplsnet.specs.Finish.{rule_name};

use crate::audit_rule::AuditRule;
use net_base::NoMemory;
use text_pieces::{put_number_word, put_word};

/// Adds the number of the line where a rule fails, and the name of the rule, with a blank before each.
pub fn put_rule(text: &mut Vec<u8>, line: u64, rule: AuditRule) -> Result<(), NoMemory>
    ensures { OnOk result (text.new.items ≡ text.old.items ++ spaced (decimal line ∷ rule_name rule ∷ [])) }
{
    put_number_word(text, line)?;
    put_word(text, rule_text(rule).as_bytes())
}

// The name of a rule.
fn rule_text(rule: AuditRule) -> &'static str
    ensures { result.now ≡ rule_name rule }
{
    match rule {
        AuditRule::Form => "Form",
        AuditRule::Isolated => "Isolated",
        AuditRule::Split => "Split",
        AuditRule::Once => "Once",
    }
}
