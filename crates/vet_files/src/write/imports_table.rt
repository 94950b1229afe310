//! The table of an imports file.
ghost use Rattle.std.specs.FinSet as set;
ghost use Rattle.std.specs.Option.{option_map_or};
ghost use Rattle.std.specs.Prelude.{◌≡◌, IfOk, option_copied};
ghost use Rattle.toml.specs.Data.{array, table};
ghost use Rattle.toml.specs.View.{table_view};
ghost use Rattle.vet_files.specs.ImportsTable.{excluded_of, imported_peer_table, imports_table, publisher_items};
ghost use Rattle.vet_files.specs.ReadAgain.{ReadsAudits, ReadsImported, ReadsImports, ReadsRecords};

use crate::imports_file::{ImportedPeer, ImportsContent};
use crate::keys::{AUDITS, PUBLISHER};
use crate::write::audits_table::audits_file_table;
use crate::write::members::{Member, WriteMember, write_members};
use crate::write::publisher_tables::publisher_items;
use crate::write::put::{put_unless_empty, put_value};
use std::alloc::{AllocError, Global};
use toml::{Table, Value};
use vet_base::name::Name;
use vet_base::package_names::PackageNames;
use vet_entries::peer_settings::PeerSettings;
use vet_entries::publisher_records::PackagePublishers;

/// Writes publisher records, those of each package at its name.
#[derive(Drop)]
struct WritePublishers {}

impl WriteMember for WritePublishers {
    type Item = PackagePublishers;

    ghost name = { λ p. p.«package» };

    ghost written = { λ w p. array (publisher_items p.publishers) };

    ghost Reads = { λ w p. ReadsRecords p };

    fn write(&self, alloc: Global, records: &PackagePublishers) -> Result<Member, AllocError> {
        Ok(Member {
            name: String::from_str(alloc, records.package.as_str())?,
            value: Value::Array(publisher_items(alloc, records.publishers.as_slice())?),
        })
    }
}

/// Writes the contents imported from peers, each at the peer's name, less the entries of the packages that the peer's
/// settings exclude.
#[derive(Drop)]
struct WriteImported<'a> {
    settings: &'a [PeerSettings],
}

impl WriteMember for WriteImported<'_> {
    type Item = ImportedPeer;

    ghost name = { λ p. p.name };

    ghost written = { λ w p. table (imported_peer_table w.settings.now p) };

    ghost Reads = { λ w p. ReadsImported w.settings.now p };

    fn write(&self, alloc: Global, peer: &ImportedPeer) -> Result<Member, AllocError> {
        Ok(Member {
            name: String::from_str(alloc, peer.name.as_str())?,
            value: Value::Table(imported_peer_table(alloc, self.settings, peer)?),
        })
    }
}

/// The table of an imports file.
pub(crate) fn imports_table(
    alloc: Global,
    settings: &[PeerSettings],
    content: &ImportsContent,
) -> Result<Table, AllocError>
    ensures table { IfOk result (λ t. table_view t ≡ imports_table settings.now content.now) }
    ensures read { IfOk result (λ t. ReadsImports settings.now content.now) }
{
    let peers = write_members(alloc, &WriteImported { settings }, content.peers.as_slice())?;
    let publishers = write_members(alloc, &WritePublishers {}, content.publishers.as_slice())?;
    let mut file = Table::new(alloc);
    put_value(alloc, &mut file, AUDITS, Value::Table(peers))?;
    put_unless_empty(alloc, &mut file, PUBLISHER, publishers)?;
    Ok(file)
}

/// The packages excluded by the first settings with a peer's name, or `None` if there are no such settings.
fn excluded<'a>(settings: &'a [PeerSettings], name: &Name) -> Option<&'a PackageNames>
    ensures { option_map_or (λ s. s) (option_copied result) set.empty ≡ excluded_of settings.now name.now }
{
    'peers: for peer in settings {
        if *name == peer.name {
            return Some(&peer.exclude);
        }
    }
    None
}

/// The table of the content imported from a peer.
fn imported_peer_table(
    alloc: Global,
    settings: &[PeerSettings],
    peer: &ImportedPeer,
) -> Result<Table, AllocError>
    ensures table { IfOk result (λ t. table_view t ≡ imported_peer_table settings.now peer.now) }
    ensures read { IfOk result (λ t. ReadsAudits (excluded_of settings.now peer.now.name)
        peer.now.content.criteria peer.now.content.entries) }
{
    let criteria = peer.content.criteria();
    let entries = peer.content.entries();
    match excluded(settings, &peer.name) {
        Some(exclude) => audits_file_table(alloc, exclude, criteria, entries),
        None => audits_file_table(alloc, &PackageNames::new(alloc), criteria, entries),
    }
}
