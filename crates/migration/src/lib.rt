//! Migration: a scenario of either version as a text of version 2 that is read as the same scenario.
//!
//! `specs/Migrated.antt` defines the TOML table of such a document key by key, `specs/Tables.antt` what a table is once a key is put, in
//! whatever order keys are put. `specs/Law.antt` has the law, and what is promised of the text. The one error is want of memory.
#![tactic(auto)]

ghost use Rattle.migration.specs.{CommandLaw.{ReadsMigratedCommands}, Law.{ReadsWhatIsMigrated}};

mod commands;
mod document;
mod groups;
mod items;
mod keys;
mod names;
mod offers;
mod rows;
mod text;

pub use document::migrated_text;
pub use text::migrate;

/// The events of the document are read as the commands, where the plan's names differ, list by list, and the commands are ones that
/// a document can say.
#[tactic(auto, using(crate::proofs::CommandLemmas::reads_all))]
pub fn reads_migrated_commands()
    ensures { ReadsMigratedCommands }
{}

/// Each text of the document of version 2 that a scenario is, is read as this scenario again, where the scenario was read from a document
/// of version 1 or 2.
pub fn reads_what_is_migrated()
    ensures { ReadsWhatIsMigrated }
{}
