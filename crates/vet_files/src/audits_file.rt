//! Audits files: one's own, and those of peers.
ghost use Rattle.std.specs.List.{All};
ghost use Rattle.std.specs.Prelude.{◌≡◌, ◌++◌, IfErr, IfOk, Some, codes, false, string_bytes};
ghost use Rattle.std.specs.Option.{option_map_or};
ghost use Rattle.toml.specs.Data.{no_members};
ghost use Rattle.toml.specs.Parse.{parse_document};
ghost use Rattle.toml.specs.View.{table_view, view};
ghost use Rattle.vet_base.specs.CriteriaChanges.{is_built_in};
ghost use Rattle.vet_base.specs.Gives.{Gives};
ghost use Rattle.vet_entries.specs.Distinct.{distinct};
ghost use Rattle.vet_files.specs.Audits.{audits_file_told, audits_told, criteria_of, document_told, entries_of};
ghost use Rattle.vet_files.specs.Audits.{further_entries_told, next_package, trusted_entries_told};
ghost use Rattle.vet_files.specs.AuditsTable.{audits_table};
ghost use Rattle.vet_files.specs.Lists.{RisesAt, each_once, table_at};
ghost use Rattle.vet_files.specs.ReadAgain.{GivesBack};
ghost use Rattle.vet_files.specs.SameContent.{CanStand, IsAudits, SameAudits};

use crate::found::Found;
use crate::keys::{AUDITS, CRITERIA, TOP, TRUSTED, TableKind, WILDCARD_AUDITS, unknown_keys};
use crate::listed::Listed;
use crate::read::criteria::ReadCriteria;
use crate::read::document::{joined, read_document, table_at};
use crate::read::package_entries::{ReadEntry, read_entries};
use crate::read::walk::{ReadMember, each_member};
use crate::read::whose::Whose;
use crate::write::audits_table::audits_file_table;
use crate::write::print::print;
use std::alloc::Global;
use toml::Table;
use vet_base::criterion::Criterion;
use vet_base::package_names::PackageNames;
use vet_base::refusal::Refusal;
use vet_entries::entry::Entry;

/// The content of an audits file: criteria in the order of their names' bytes, and entries in the order of reading,
/// each once.
#[derive(Drop)]
pub struct AuditsContent {
    pub criteria: Listed<Criterion>,
    pub entries: Listed<Entry>,
}

/// Reads the content of an audits file (The Cargo Vet Book, audits file). None of its criteria has the name of a
/// built-in one.
///
/// Refused: `TomlRefused` if the bytes are not a TOML document in UTF-8; otherwise the first fault of the walk, which
/// is `FieldRefused` if something does not belong in its place or is missing, or `TooLarge` with `text` if a text is
/// too long. `NoMemory` can come at any point.
pub fn read_audits(alloc: Global, bytes: &[u8]) -> Result<Found<AuditsContent>, Refusal>
    ensures told { Gives (λ f. f) (audits_told bytes.now) result }
    ensures further { IfOk result (λ f. All (λ c. is_built_in c.name ≡ false) f.content.criteria) }
    ensures stands { IfOk result (λ f. IsAudits f.content) }
{
    let file = read_document(alloc, bytes)?;
    read_audits_file(alloc, Whose::Ours, TOP, "", &file)
}

/// Writes an audits file of some content (The Cargo Vet Book, audits file; its layout is that of `toml`). Its table is
/// `audits_table` of the content. If an audits file can give the content, the text is read back as the same content.
///
/// Refused: `NoMemory`.
pub fn write_audits(alloc: Global, content: &AuditsContent) -> Result<String, Refusal>
    ensures table { IfOk result (λ s. parse_document (string_bytes s) ≡ Some (audits_table content.now)) }
    ensures read { IfOk result (λ s.
        IsAudits content.now → GivesBack audits_told (SameAudits content.now) (string_bytes s)) }
    ensures memory { IfErr result (λ e. e ≡ Refusal.NoMemory) }
{
    let none = PackageNames::new(alloc);
    let criteria = content.criteria.as_slice();
    let entries = content.entries.as_slice();
    let file = audits_file_table(alloc, &none, criteria, entries)?;
    print(alloc, &file)
}

/// The content of an audits file whose table has this path. The paths of the tables in it begin with this prefix.
pub(crate) fn read_audits_file(
    alloc: Global,
    whose: Whose,
    path: &str,
    prefix: &str,
    file: &Table,
) -> Result<Found<AuditsContent>, Refusal>
    ensures told { Gives (λ f. f) (audits_file_told whose path.now prefix.now (table_view file.now)) result }
    ensures stands { IfOk result (λ f. CanStand whose f.content.criteria f.content.entries) }
{
    let criteria = read_criteria(alloc, whose, path, prefix, file)?;
    let audits = read_entries(alloc, ReadEntry::Audits(whose), path, prefix, AUDITS, file)?;
    read_further_entries(alloc, whose, path, prefix, file, criteria, audits)
}

/// The content of an audits file whose criteria and audits were read.
fn read_further_entries(
    alloc: Global,
    whose: Whose,
    path: &str,
    prefix: &str,
    file: &Table,
    criteria: Found<Listed<Criterion>>,
    audits: Found<Listed<Entry>>,
) -> Result<Found<AuditsContent>, Refusal>
    ensures told { Gives (λ f. f)
        (further_entries_told whose path.now prefix.now (table_view file.now) criteria audits) result }
    ensures rises { IfOk result (λ _. RisesAt path.now (codes "wildcard-audits") (table_view file.now)
        × RisesAt path.now (codes "trusted") (table_view file.now)) }
{
    let wildcards = read_entries(
        alloc,
        ReadEntry::Wildcards,
        path,
        prefix,
        WILDCARD_AUDITS,
        file,
    )?;
    let entries = audits.followed_by(wildcards)?;
    read_trusted_entries(alloc, whose, path, prefix, file, criteria, entries)
}

/// The content of an audits file of which all but the trusted publishers was read.
fn read_trusted_entries(
    alloc: Global,
    whose: Whose,
    path: &str,
    prefix: &str,
    file: &Table,
    criteria: Found<Listed<Criterion>>,
    entries: Found<Listed<Entry>>,
) -> Result<Found<AuditsContent>, Refusal>
    ensures told { Gives (λ f. f)
        (trusted_entries_told whose path.now prefix.now (table_view file.now) criteria entries) result }
    ensures rises { IfOk result (λ _. RisesAt path.now (codes "trusted") (table_view file.now)) }
{
    let keys = unknown_keys(TableKind::AuditsFile, file)?;
    let trusted = read_entries(
        alloc,
        ReadEntry::Trusted(whose),
        path,
        prefix,
        TRUSTED,
        file,
    )?;
    let entries = entries.followed_by(trusted)?;
    let notices = criteria.notices.and_both(entries.notices, keys)?;
    Ok(Found {
        content: AuditsContent {
            criteria: criteria.content,
            entries: entries.content,
        },
        notices,
    })
}

/// The criteria of an audits file.
fn read_criteria(
    alloc: Global,
    whose: Whose,
    path: &str,
    prefix: &str,
    file: &Table,
) -> Result<Found<Listed<Criterion>>, Refusal>
    ensures told { Gives (λ f. f) (criteria_of whose path.now prefix.now (table_view file.now)) result }
    ensures rises { IfOk result (λ _. RisesAt path.now (codes "criteria") (table_view file.now)) }
{
    let Some(table) = table_at(alloc, path, file, CRITERIA)? else {
        return Ok(Found::nothing(alloc));
    };
    let path = joined(alloc, prefix, CRITERIA)?;
    let reader = ReadCriteria {
        whose,
        path: path.as_str(),
    };
    each_member(alloc, &reader, Found::nothing(alloc), table)
}
