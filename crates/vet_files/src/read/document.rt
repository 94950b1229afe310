//! The first steps of each of the three readers: the table of a file, and the tables in it.
ghost use Rattle.std.specs.Prelude.{◌≡◌, ◌++◌, IfOk, string_bytes};
ghost use Rattle.std.specs.Option.{option_map_or};
ghost use Rattle.toml.specs.Data.{no_members};
ghost use Rattle.toml.specs.View.{table_view};
ghost use Rattle.vet_base.specs.Gives.{Gives};
ghost use Rattle.vet_files.specs.Audits.{document_told};
ghost use Rattle.vet_files.specs.Lists.{table_at};

use crate::field::{fault, value_at};
use std::alloc::{AllocError, Global};
use toml::Table;
use vet_base::refusal::Refusal;

/// The table of a file. Refused: `TomlRefused` if `toml` refuses the bytes, and `NoMemory`.
pub fn read_document(alloc: Global, bytes: &[u8]) -> Result<Table, Refusal>
    ensures { Gives (λ table. table_view table) (document_told bytes.now) result }
{
    match toml::table_from_slice(alloc, bytes) {
        Ok(file) => Ok(file),
        Err(error) => {
            if error.is_memory() {
                Err(Refusal::NoMemory)
            } else {
                Err(Refusal::TomlRefused)
            }
        }
    }
}

/// The table at a key, if the file has the key. Any other value there is refused (`fault`).
pub fn table_at<'a>(
    alloc: Global,
    path: &str,
    file: &'a Table,
    key: &str,
) -> Result<Option<&'a Table>, Refusal>
    ensures { Gives (λ o. option_map_or (λ t. table_view t.now) o no_members)
        (table_at path.now key.now (table_view file.now)) result }
{
    let Some(value) = value_at(file, key) else {
        return Ok(None);
    };
    match value.as_table() {
        Some(table) => Ok(Some(table)),
        None => Err(fault(alloc, path, key)),
    }
}

/// The path of a table: the prefix of its file's paths, and its key.
pub fn joined(alloc: Global, prefix: &str, key: &str) -> Result<String, AllocError>
    ensures { IfOk result (λ s. string_bytes s ≡ prefix.now ++ key.now) }
{
    format!(in alloc; "{prefix}{key}")
}
