//! The network that a scenario leaves.
ghost use Rattle.std.specs.Prelude.{◌≡◌, ◌∷◌, [], codes, map, string_bytes, true, Some, IfOk};
ghost use Rattle.vplsnet.specs.{Answers.{Completes, SaysOutcome}, Around.{gained}};
ghost use Rattle.vplsnet.specs.{Asked.{Tables, is_plain_argument}, Reads.{GainsReads, MayRead}};
ghost use Rattle.vplsnet_survey.specs.Base.{unwritten};

use crate::no_sink::NoSink;
use net_base::{NoMemory, Shelf};
use std::alloc::Global;
use vplsnet::run::run;
use vplsnet::{Finish, Outcome};

// The words of a call of `vplsnet`.
fn words_of(alloc: Global, file: &str) -> Result<Vec<String>, NoMemory>
    ensures { IfOk result (λ words. map string_bytes words.items ≡ codes "tables" ∷ file.now ∷ []) }
{
    let mut words = Vec::new(alloc);
    words.push(String::from_str(alloc, "tables")?)?;
    words.push(String::from_str(alloc, file)?)?;
    Ok(words)
}

/// Runs the scenario of a file as `vplsnet tables` does, and drops what that writes.
#[tactic(auto, using(crate::proofs::BaseLemmas::base_steps, vplsnet::proofs::ReadLemmas::reads_none))]
pub fn run_file<F: Shelf>(alloc: Global, file: &str, shelf: &mut F) -> Finish
    requires { is_plain_argument file.now ≡ true }
    ensures says { SaysOutcome (unwritten F.reads F.faults shelf.old shelf.new) (Tables file.now) result.network result.outcome }
    ensures complete { Completes (unwritten F.reads F.faults shelf.old shelf.new) (Tables file.now) result.outcome }
    ensures reads { GainsReads (MayRead (gained (F.reads shelf.old) (F.reads shelf.new)) (Some (Tables file.now))) (F.reads shelf.old) (F.reads shelf.new) }
{
    match words_of(alloc, file) {
        Ok(words) => run(alloc, words.as_slice(), shelf, &mut NoSink {}),
        Err(NoMemory) => Finish::without_run(Outcome::NoMemory),
    }
}
