//! The line that is printed about a file.
ghost use Rattle.std.specs.Prelude.{string_bytes};
ghost use Rattle.vet_base.specs.Gives.{Gives};
ghost use Rattle.vetd_words.specs.ReadLine.{audits_line_told, config_line_told, file_line_told};
ghost use Rattle.vetd_words.specs.ReadLine.{imports_line_told, read_told};

use crate::counts::FileCounts;
use std::alloc::Global;
use vet_base::document::check_length;
use vet_base::refusal::Refusal;
use vet_documents::register_file::RegisterFile;
use vet_files::audits_file::read_audits;
use vet_files::config_file::read_config;
use vet_files::imports_file::read_imports;

/// The line of a file. Refused, the first that applies: `TooLarge` of `input` for a file of more than 8,388,608 bytes,
/// and everything that the reader of its kind refuses.
pub fn read_line(alloc: Global, kind: RegisterFile, file: &[u8]) -> Result<String, Refusal>
    ensures { Gives string_bytes (read_told kind file.now) result }
{
    check_length(file)?;
    file_line(alloc, kind, file)
}

/// The line of a file, whatever its size.
fn file_line(alloc: Global, kind: RegisterFile, file: &[u8]) -> Result<String, Refusal>
    ensures { Gives string_bytes (file_line_told kind file.now) result }
{
    match kind {
        RegisterFile::Audits => audits_line(alloc, file),
        RegisterFile::Config => config_line(alloc, file),
        RegisterFile::Imports => imports_line(alloc, file),
    }
}

fn audits_line(alloc: Global, file: &[u8]) -> Result<String, Refusal>
    ensures { Gives string_bytes (audits_line_told file.now) result }
{
    let found = read_audits(alloc, file)?;
    let counts = FileCounts::of_audits(&found.content);
    Ok(counts.line(alloc, found.notices)?)
}

fn config_line(alloc: Global, file: &[u8]) -> Result<String, Refusal>
    ensures { Gives string_bytes (config_line_told file.now) result }
{
    let found = read_config(alloc, file)?;
    let counts = FileCounts::of_config(&found.content);
    Ok(counts.line(alloc, found.notices)?)
}

fn imports_line(alloc: Global, file: &[u8]) -> Result<String, Refusal>
    ensures { Gives string_bytes (imports_line_told file.now) result }
{
    let found = read_imports(alloc, file)?;
    let counts = FileCounts::of_imports(&found.content)?;
    Ok(counts.line(alloc, found.notices)?)
}
