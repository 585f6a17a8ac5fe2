//! Rows of a document.

use crate::document_version::DocumentVersion;
use command_text::RowPlace;
use toml::Table;

/// A row of a document: the document's version, the row's place, and the table that it is.
#[derive(Clone, Copy)]
pub struct TableRow<'a> {
    pub version: DocumentVersion,
    pub place: RowPlace,
    pub table: &'a Table,
}
