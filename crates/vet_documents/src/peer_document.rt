//! The documents of the commands to peers.
ghost use Rattle.std.specs.Prelude.{◌≡◌};
ghost use Rattle.toml.specs.View.{table_view};
ghost use Rattle.vet_base.specs.Gives.{Gives};
ghost use Rattle.vet_documents.specs.PeerDocument.{drop_peer_told, import_peer_told, mapped_told, next_mapped};
ghost use Rattle.vet_documents.specs.PeerDocument.{set_peer_told, settings_told};

use crate::document_field::{text_at, word_at};
use crate::document_keys::{COMMAND, PEER, refuse_others};
use crate::names_at::{packages_if_any, read_names};
use std::alloc::Global;
use toml::{Table, Value};
use vet_base::name::Name;
use vet_base::package_names::PackageNames;
use vet_base::refusal::Refusal;
use vet_entries::criteria_map::CriteriaMap;
use vet_entries::peer_settings::PeerSettings;
use vet_files::field::required;
use vet_files::imports_file::read_peer;
use vet_files::keys::{AUDITS, CRITERIA_MAP, EXCLUDE, URL};
use vet_files::read::document::table_at;
use vet_files::read::walk::{ReadMember, each_member};
use vet_register::command::Action;

/// Reads the command that sets the peer of a document.
pub(crate) fn read_set_peer(alloc: Global, document: &Table) -> Result<Action, Refusal>
    ensures { Gives (λ action. action) (set_peer_told (table_view document.now)) result }
{
    let settings = read_settings(alloc, document)?;
    refuse_others(
        alloc,
        COMMAND,
        document,
        &[COMMAND, PEER, URL, EXCLUDE, CRITERIA_MAP],
    )?;
    Ok(Action::SetPeer(settings))
}

/// Reads the command that drops the peer of a name.
pub(crate) fn read_drop_peer(alloc: Global, document: &Table) -> Result<Action, Refusal>
    ensures { Gives (λ action. action) (drop_peer_told (table_view document.now)) result }
{
    let name = word_at(alloc, COMMAND, document, PEER)?;
    refuse_others(alloc, COMMAND, document, &[COMMAND, PEER])?;
    Ok(Action::DropPeer(name))
}

/// Reads the command that imports the audits file of a peer. The file is read only if nothing else is at fault.
pub(crate) fn read_import_peer(alloc: Global, document: &Table) -> Result<Action, Refusal>
    ensures { Gives (λ action. action) (import_peer_told (table_view document.now)) result }
{
    let name = word_at(alloc, COMMAND, document, PEER)?;
    let file = text_at(alloc, document, AUDITS)?;
    refuse_others(alloc, COMMAND, document, &[COMMAND, PEER, AUDITS])?;
    let found = read_peer(alloc, file.as_bytes())?;
    Ok(Action::ImportPeer(name, found.content))
}

/// The settings of a peer.
fn read_settings(alloc: Global, document: &Table) -> Result<PeerSettings, Refusal>
    ensures { Gives (λ s. s) (settings_told (table_view document.now)) result }
{
    let name = word_at(alloc, COMMAND, document, PEER)?;
    let url = required(alloc, COMMAND, document, URL)?;
    let exclude = packages_if_any(alloc, document, EXCLUDE)?;
    let map = read_map(alloc, document)?;
    Ok(PeerSettings {
        name,
        url,
        exclude: exclude.unwrap_or(PackageNames::new(alloc)),
        map,
    })
}

/// The map from the criteria of a peer to one's own.
fn read_map(alloc: Global, document: &Table) -> Result<CriteriaMap, Refusal>
    ensures { Gives (λ m. m) (mapped_told (table_view document.now)) result }
{
    let none = CriteriaMap::new(alloc);
    match table_at(alloc, COMMAND, document, CRITERIA_MAP)? {
        Some(table) => each_member(alloc, &ReadCriteriaMap {}, none, table),
        None => Ok(none),
    }
}

/// Reads the names for each of the peer's criteria, one after the other.
#[derive(Drop)]
struct ReadCriteriaMap {}

impl ReadMember for ReadCriteriaMap {
    type Found = CriteriaMap;

    ghost told = { λ r. next_mapped };

    fn read(
        &self,
        alloc: Global,
        found: CriteriaMap,
        key: &str,
        value: &Value,
    ) -> Result<CriteriaMap, Refusal> {
        let name = Name::parse(alloc, key)?;
        let criteria = read_names(alloc, CRITERIA_MAP, key, value)?;
        let mut found = found;
        found.insert(name, criteria)?;
        Ok(found)
    }
}
