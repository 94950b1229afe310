//! Tables printed as documents.
//!
//! **The text that is written is one that `toml` reads as exactly the table of the content.**
//!
//! A writer builds the table of its file and has `toml` print it. This crate assembles no text of a file. The table is
//! a function of the file's content (`audits_table` and the like, in `specs/`). Each type of values at a key says how
//! they are read and what is written for them (`Field`). Tables of known keys are made of these, with a small function
//! for each table. Tables by name (of criteria, peers, policies) are made by one walk over a list, and the lists of a
//! package's entries by another.
//!
//! The proof that a written text is read back has three parts. Contracts pass on the facts that only the types know,
//! such as that the text of a version is read as that version (`specs/ReadAgain.antt`). Lemmas show for any table made
//! of such parts that the reader's definition gives the same content. The two meet in the writer's contract, in which
//! `toml` gives the text. So the proof looks at the definitions of the readers, and not again at their code.
ghost use Rattle.std.specs.Prelude.{◌≡◌, ◌≤◌, IfErr, IfOk, Ok, Some, string_bytes};
ghost use Rattle.toml.specs.Data.{members_depth};
ghost use Rattle.toml.specs.Parse.{parse_document};
ghost use Rattle.toml.specs.View.{table_view};
ghost use Rattle.vet_files.specs.Audits.{document_told};

use std::alloc::Global;
use toml::Table;
use vet_base::refusal::Refusal;

/// Prints a table. If it is at most 80 deep, `toml` reads the text as this table.
pub(crate) fn print(alloc: Global, table: &Table) -> Result<String, Refusal>
    ensures parsed { IfOk result (λ s. members_depth (table_view table.now) ≤ 80
        → parse_document (string_bytes s) ≡ Some (table_view table.now)) }
    ensures read { IfOk result (λ s. members_depth (table_view table.now) ≤ 80
        → document_told (string_bytes s) ≡ Ok (table_view table.now)) }
    ensures memory { IfErr result (λ e. e ≡ Refusal.NoMemory) }
{
    match toml::table_to_string(alloc, table) {
        Ok(text) => Ok(text),
        Err(_) => Err(Refusal::NoMemory),
    }
}
