//! Whole texts.
ghost use Rattle.std.specs.Prelude.{◌≤◌, OnErr, OnOk};
ghost use Rattle.net_base.specs.outside.Outside.{Rose};
ghost use Rattle.text_lines.specs.Written.{AppendsFront, Writes};

use net_base::{Failed, Sink};

/// Writes a text whole; of an empty text nothing is taken. After `Failed` a front of it was taken that lacks its end.
#[tactic(auto, using(crate::proofs::WrittenLemmas::writes_some))]
pub fn write_text<K: Sink>(sink: &mut K, text: &[u8]) -> Result<(), Failed>
    ensures whole { OnOk result (Writes (K.taken sink.old) (K.taken sink.new) text.now) }
    ensures front { OnErr result (AppendsFront (K.taken sink.old) (K.taken sink.new) text.now) }
    ensures fault { OnErr result (Rose (K.faults sink.old) (K.faults sink.new)) }
    ensures never_falls { K.faults sink.old ≤ K.faults sink.new }
{
    if text.is_empty() {
        return Ok(());
    }
    let mut at = 0;
    'writing: while at < text.len() {
        let count = sink.write(&text[at..])?;
        at += count;
    }
    Ok(())
}
