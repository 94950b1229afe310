//! The document of the command that replaces the contents of the three files.
ghost use Rattle.toml.specs.View.{table_view};
ghost use Rattle.vet_base.specs.Gives.{Gives};
ghost use Rattle.vet_documents.specs.FilesDocument.{files_told, replace_files_told};

use crate::document_field::text_at;
use crate::document_keys::{COMMAND, CONFIG, refuse_others};
use std::alloc::Global;
use toml::Table;
use vet_base::refusal::Refusal;
use vet_files::audits_file::read_audits;
use vet_files::config_file::read_config;
use vet_files::files_content::FilesContent;
use vet_files::imports_file::read_imports;
use vet_files::keys::{AUDITS, IMPORTS};
use vet_register::command::Action;

/// Reads the command that replaces the contents of the three files. They are read only if nothing else is at fault.
pub(crate) fn read_replace_files(alloc: Global, document: &Table) -> Result<Action, Refusal>
    ensures { Gives (λ action. action) (replace_files_told (table_view document.now)) result }
{
    let audits = text_at(alloc, document, AUDITS)?;
    let config = text_at(alloc, document, CONFIG)?;
    let imports = text_at(alloc, document, IMPORTS)?;
    refuse_others(
        alloc,
        COMMAND,
        document,
        &[COMMAND, AUDITS, CONFIG, IMPORTS],
    )?;
    let files = read_files(alloc, audits, config, imports)?;
    Ok(Action::ReplaceFiles(files))
}

/// The contents of the three files, which are read in this order.
fn read_files(
    alloc: Global,
    audits: &str,
    config: &str,
    imports: &str,
) -> Result<FilesContent, Refusal>
    ensures { Gives (λ f. f) (files_told audits.now config.now imports.now) result }
{
    let audits = read_audits(alloc, audits.as_bytes())?;
    let config = read_config(alloc, config.as_bytes())?;
    let imports = read_imports(alloc, imports.as_bytes())?;
    FilesContent::of(alloc, audits.content, config.content, imports.content)
}
