//! Gives the table of a TOML document, and tells a text that is none from memory that was refused.

ghost use Rattle.std.specs.Prelude.{MatchResult};
ghost use Rattle.toml.specs.View.{table_view};
ghost use Rattle.toml_values.specs.Documents.{DocumentFails, IsDocument};

use std::alloc::Global;
use toml::Table;

/// Why a text gives no table.
#[derive(Clone, Copy, Debug, PartialEq, Eq)]
pub enum DocumentFault {
    /// The text is no TOML document.
    NotToml,
    /// Memory was refused.
    NoMemory,
}

/// The table of a TOML document.
///
/// # Errors
/// `NotToml` where the text is no TOML document; `NoMemory` where memory is refused.
pub fn read_document(alloc: Global, bytes: &[u8]) -> Result<Table, DocumentFault>
    ensures { MatchResult result
        (λ table. IsDocument bytes.now (table_view table))
        (λ e. DocumentFails bytes.now e) }
{
    let text = match std::str::from_utf8(bytes) {
        Ok(text) => text,
        Err(_) => return Err(DocumentFault::NotToml),
    };
    match toml::table_from_str(alloc, text) {
        Ok(table) => Ok(table),
        Err(e) => {
            if e.is_memory() {
                Err(DocumentFault::NoMemory)
            } else {
                Err(DocumentFault::NotToml)
            }
        }
    }
}
