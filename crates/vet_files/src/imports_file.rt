//! Imports files, and the audits files of peers.
ghost use Rattle.std.specs.Prelude.{◌≡◌, IfErr, IfOk, Some, string_bytes};
ghost use Rattle.toml.specs.Parse.{parse_document};
ghost use Rattle.toml.specs.View.{table_view};
ghost use Rattle.vet_base.specs.Gives.{Gives};
ghost use Rattle.vet_files.specs.Imports.{imported_from, imported_table, imports_file_told, imports_told};
ghost use Rattle.vet_files.specs.Imports.{peer_content_told, peer_file_told};
ghost use Rattle.vet_files.specs.ImportsTable.{imports_table};
ghost use Rattle.vet_files.specs.ReadAgain.{GivesBack};
ghost use Rattle.vet_files.specs.SameContent.{CanStand, IsImports, SameImports};
ghost use Rattle.vet_files.specs.declared.read.whose.Whose.TheVariants.{Peers};

use crate::audits_file::{AuditsContent, read_audits_file};
use crate::found::Found;
use crate::keys::{AUDITS, TOP, TableKind, unknown_keys};
use crate::listed::Listed;
use crate::read::document::read_document;
use crate::read::named_tables::{NamedTable, ReadNamed, named_tables};
use crate::read::publishers::read_publishers;
use crate::read::whose::Whose;
use crate::write::imports_table::imports_table;
use crate::write::print::print;
use std::alloc::Global;
use toml::Table;
use vet_base::keyed::HasKey;
use vet_base::name::Name;
use vet_base::refusal::Refusal;
use vet_entries::peer_content::PeerContent;
use vet_entries::peer_settings::PeerSettings;
use vet_entries::publisher_records::PackagePublishers;

/// A peer's name and the content imported from it.
pub struct ImportedPeer {
    pub name: Name,
    pub content: PeerContent,
}

impl Drop for ImportedPeer {
    fn drop(self) {
        let ImportedPeer {
            name: _,
            content: _,
        } = self;
    }
}

impl HasKey for ImportedPeer {
    ghost use Rattle.vet_files.specs.Imports.{imported_name};

    type Key = Name;

    ghost key_of = { imported_name };

    fn key(&self) -> &Name {
        &self.name
    }
}

/// The content of an imports file: the publisher records of packages that have some, and the contents imported from
/// peers, both in the order of the names' bytes.
#[derive(Drop)]
pub struct ImportsContent {
    pub publishers: Listed<PackagePublishers>,
    pub peers: Listed<ImportedPeer>,
}

/// Reads the content of an imports file (The Cargo Vet Book, imports.lock).
///
/// Refused: `TomlRefused` if the bytes are not a TOML document in UTF-8; otherwise the first fault of the walk, which
/// is `FieldRefused` if something does not belong in its place or is missing, or `TooLarge` with `text` if a text is
/// too long or with `peer-criteria` if a peer defines too many criteria. `NoMemory` can come at any point.
pub fn read_imports(alloc: Global, bytes: &[u8]) -> Result<Found<ImportsContent>, Refusal>
    ensures told { Gives (λ f. f) (imports_told bytes.now) result }
    ensures stands { IfOk result (λ f. IsImports f.content) }
{
    let file = read_document(alloc, bytes)?;
    read_imports_file(alloc, &file)
}

/// Writes an imports file of some content, less the entries of the packages that the settings of a peer exclude (The
/// Cargo Vet Book, imports.lock; that these are left out is ours, and its layout is that of `toml`). Its table is
/// `imports_table` of settings and content. If an imports file can give the content, the text is read back as the same
/// content, less these entries.
///
/// Refused: `NoMemory`.
pub fn write_imports(
    alloc: Global,
    settings: &[PeerSettings],
    content: &ImportsContent,
) -> Result<String, Refusal>
    ensures table { IfOk result (λ s. parse_document (string_bytes s) ≡ Some (imports_table settings.now content.now)) }
    ensures read { IfOk result (λ s. IsImports content.now
        → GivesBack imports_told (SameImports settings.now content.now) (string_bytes s)) }
    ensures memory { IfErr result (λ e. e ≡ Refusal.NoMemory) }
{
    let file = imports_table(alloc, settings, content)?;
    print(alloc, &file)
}

/// Reads the content of a peer's audits file, in the peer's own words. Its trusted publishers, and audits that are not
/// importable, are skipped.
///
/// Refused: `TomlRefused` if the bytes are not a TOML document in UTF-8; otherwise the first fault of the walk, which
/// is `FieldRefused` if something does not belong in its place or is missing, or `TooLarge` with `text` if a text is
/// too long or with `peer-criteria` at the 127th criterion that it defines besides the built-in ones. `NoMemory` can
/// come at any point.
pub fn read_peer(alloc: Global, bytes: &[u8]) -> Result<Found<PeerContent>, Refusal>
    ensures told { Gives (λ f. f) (peer_content_told bytes.now) result }
    ensures stands { IfOk result (λ f. CanStand Peers f.content.criteria f.content.entries) }
{
    let file = read_document(alloc, bytes)?;
    read_peer_file(alloc, TOP, "", &file)
}

/// An imports file can give any content of a peer. A law, which does nothing.
pub fn peers_can_stand(content: &PeerContent)
    ensures { CanStand Peers content.now.criteria content.now.entries }
{
    let _ = content.criteria();
}

/// The content of an imports file's table.
fn read_imports_file(alloc: Global, file: &Table) -> Result<Found<ImportsContent>, Refusal>
    ensures { Gives (λ f. f) (imports_file_told (table_view file.now)) result }
{
    let keys = unknown_keys(TableKind::ImportsFile, file)?;
    let publishers = read_publishers(alloc, file)?;
    let peers = named_tables(alloc, &ReadImported {}, file, AUDITS)?;
    let notices = publishers.notices.and_both(peers.notices, keys)?;
    Ok(Found {
        content: ImportsContent {
            publishers: publishers.content,
            peers: peers.content,
        },
        notices,
    })
}

/// Reads the content imported from a peer.
#[derive(Drop)]
struct ReadImported {}

impl ReadNamed for ReadImported {
    type Item = ImportedPeer;

    ghost told = { λ r. imported_table };

    fn read(
        &self,
        alloc: Global,
        at: NamedTable<'_>,
    ) -> Result<Found<Option<ImportedPeer>>, Refusal> {
        let prefix = format!(in alloc; "{}.", at.path)?;
        read_imported_from(alloc, at.name, at.path, prefix.as_str(), at.table)
    }
}

/// The content imported from a peer, whose table has this path. The paths of the tables in it begin with this prefix.
fn read_imported_from(
    alloc: Global,
    name: Name,
    path: &str,
    prefix: &str,
    table: &Table,
) -> Result<Found<Option<ImportedPeer>>, Refusal>
    ensures { Gives (λ f. f) (imported_from name path.now prefix.now (table_view table.now)) result }
{
    let found = read_peer_file(alloc, path, prefix, table)?;
    Ok(Found {
        content: Some(ImportedPeer {
            name,
            content: found.content,
        }),
        notices: found.notices,
    })
}

/// The content of a peer's audits file.
fn read_peer_file(
    alloc: Global,
    path: &str,
    prefix: &str,
    file: &Table,
) -> Result<Found<PeerContent>, Refusal>
    ensures { Gives (λ f. f) (peer_file_told path.now prefix.now (table_view file.now)) result }
{
    let found = read_audits_file(alloc, Whose::Peers, path, prefix, file)?;
    let AuditsContent { criteria, entries } = found.content;
    Ok(Found {
        content: PeerContent::of(criteria.into_vec(), entries.into_vec()),
        notices: found.notices,
    })
}
