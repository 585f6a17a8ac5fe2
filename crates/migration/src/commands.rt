//! The texts of commands.
ghost use Rattle.std.specs.{Prelude.{◌≡◌, ◌∷◌, ◌++◌, [], map, string_bytes, IfOk, OnOk}, List.{All}, Str.{IsUtf8}};
ghost use Rattle.toml.specs.View.{view};
ghost use Rattle.plan_names.specs.Planned.{HasNames};
ghost use Rattle.script_text.specs.Script.{spaced_words};
ghost use Rattle.text_lines.specs.Lines.{word_octets};
ghost use Rattle.text_pieces.specs.Pieces.{spaced};
ghost use Rattle.migration.specs.{Commands.{command_text, event_items}, Sayable.{IsSayable}};

use crate::items::push_text;
use command_text::Command;
use event_rows::words_of_event;
use line_shapes::circuit_word;
use net_base::{NoMemory, Plan};
use std::alloc::Global;
use text_lines::LineWord;
use text_pieces::{put_digits, put_number, put_text};
use toml::Value;

// Adds the octets of a word.
fn put_word(text: &mut Vec<u8>, word: LineWord<'_>) -> Result<(), NoMemory>
    ensures { OnOk result (text.new.items ≡ text.old.items ++ word_octets word.entry) }
{
    match word {
        LineWord::Text(octets) => put_text(text, octets),
        LineWord::Number(number) => put_number(text, number),
        LineWord::Labelled(label, number) => {
            put_text(text, label)?;
            put_number(text, number)
        }
        LineWord::Marked(number, mark) => {
            put_number(text, number)?;
            put_text(text, mark)
        }
        LineWord::Hex(octets) => put_digits(text, octets),
    }
}

// Adds words, with a blank before each.
fn put_spaced(text: &mut Vec<u8>, words: &[LineWord<'_>]) -> Result<(), NoMemory>
    ensures { OnOk result (text.new.items ≡ text.old.items ++ spaced (map word_octets words.now)) }
{
    for word in words {
        text.push(b' ')?;
        put_word(text, *word)?;
    }
    Ok(())
}

// The octets of words, parted by one blank.
#[tactic(auto, using(crate::proofs::TextLemmas::joined_first, crate::proofs::TextLemmas::joined_none))]
fn joined(alloc: Global, words: &[LineWord<'_>]) -> Result<Vec<u8>, NoMemory>
    ensures { IfOk result (λ text. text.items ≡ spaced_words (map word_octets words.now)) }
{
    let mut text = Vec::new(alloc);
    let Some((first, rest)) = words.split_first() else {
        return Ok(text);
    };
    put_word(&mut text, *first)?;
    put_spaced(&mut text, rest)?;
    Ok(text)
}

// The words as a text, parted by one blank.
fn line(alloc: Global, words: &[LineWord<'_>]) -> Result<String, NoMemory>
    requires { IsUtf8 (spaced_words (map word_octets words.now)) }
    ensures { IfOk result (λ t. string_bytes t ≡ spaced_words (map word_octets words.now)) }
{
    let text = joined(alloc, words)?;
    Ok(String::from_utf8(text).unwrap())
}

// The text of a command.
#[tactic(auto, using(crate::proofs::TextLemmas::texts), unfolding(crate::specs::Commands::command_text))]
fn command_line<'a>(alloc: Global, plan: &'a Plan, command: &'a Command) -> Result<String, NoMemory>
    requires names { HasNames plan.now }
    requires sayable { IsSayable plan.now command.now }
    ensures { IfOk result (λ t. string_bytes t ≡ command_text plan.now command.now) }
{
    match command {
        Command::One(event) => line(alloc, words_of_event(plan, event).as_slice()),
        Command::Settle(count) => {
            let words = [
                LineWord::Text(b"settle"),
                LineWord::Number(u64::from(*count)),
            ];
            line(alloc, &words)
        }
        Command::Flow(count) => {
            let words = [LineWord::Text(b"flow"), LineWord::Number(u64::from(*count))];
            line(alloc, &words)
        }
        Command::Ticks(count) => {
            let words = [LineWord::Text(b"tick"), LineWord::Number(u64::from(*count))];
            line(alloc, &words)
        }
        Command::Play(circuit, file) => {
            let file = LineWord::Text(file.as_str().as_bytes());
            let words = [LineWord::Text(b"play"), circuit_word(plan, *circuit), file];
            line(alloc, &words)
        }
    }
}

/// The texts of commands, in order.
pub fn command_lines(
    alloc: Global,
    plan: &Plan,
    commands: &[Command],
) -> Result<Vec<Value>, NoMemory>
    requires names { HasNames plan.now }
    requires sayable { All (IsSayable plan.now) commands.now }
    ensures { IfOk result (λ lines. map view lines.items ≡ event_items plan.now commands.now) }
{
    let mut lines = Vec::with_capacity(alloc, commands.len())?;
    for command in commands {
        let line = command_line(alloc, plan, command)?;
        push_text(&mut lines, line)?;
    }
    Ok(lines)
}
