//! The rows that an edit of the facts of packages removes and adds.
//!
//! If the content of a peer is exchanged, its criteria and entries are exchanged for those of the new content. The rows
//! of days are in `day_changes`.
ghost use Rattle.std.specs.List.{All, slice_get};
ghost use Rattle.std.specs.Option.{option_copied};
ghost use Rattle.std.specs.Prelude.{◌≡◌, IfOk, Some};
ghost use Rattle.vet_entries.specs.declared.held_peer.HeldPeer.{HeldPeer};
ghost use Rattle.vet_item_rows.specs.EntryRows.{package_rows, peer_entries};
ghost use Rattle.vet_item_rows.specs.Numbers.{EntryFits, PeerFits};
ghost use Rattle.vet_item_rows.specs.SettingRows.{criteria_rows, peer_criteria};
ghost use Rattle.vet_rows.specs.AddedNumbers.{AddedEntriesFit};
ghost use Rattle.vet_rows.specs.FactsRows.{fact_exchanges};
ghost use Rattle.vet_rows.specs.KeyedItems.{added_item, rows_if};

use crate::row_changes::exchange::{Exchange, only_row_exchange, row_exchange};
use crate::row_changes::keyed_items::{added_item, removed_item};
use crate::rows_of::setting_rows::own_criteria;
use crate::rows_of::to_row::{row_if, rows_each};
use std::alloc::{AllocError, Global};
use vet_base::criteria_table::CriteriaTable;
use vet_base::definitions::Definitions;
use vet_base::keyed::KeyedEdit;
use vet_base::name::Name;
use vet_entries::facts::{Edit, EntryFacts, HeldEntry};
use vet_entries::held_peer::HeldPeer;
use vet_entries::holding::Holding;
use vet_entries::peer_settings::PeerSettings;
use vet_entries::publisher_records::PackagePublishers;
use vet_item_rows::rows_of::entry_rows::push_publishers;
use vet_item_rows::rows_of::setting_rows::push_criteria;
use vet_tables::sequence::Row;
use vet_tables::table_name::{FactsTable, TableName};

/// The rows that an edit of facts removes and adds. Asks that the numbers of entries, before and after it, are below
/// 2^63. Fails only if memory runs out.
pub fn fact_exchanges(
    alloc: Global,
    edit: &Edit,
    facts: &EntryFacts,
) -> Result<Vec<Exchange>, AllocError>
    requires own { All EntryFits facts.now.content.entries }
    requires peers { All PeerFits facts.now.content.peers }
    requires added { AddedEntriesFit edit.now }
    ensures { IfOk result (λ exchanges. exchanges.items ≡ fact_exchanges edit.now facts.now.content) }
{
    match edit {
        Edit::Criteria(table) => criteria_exchange(alloc, facts, table),
        Edit::Insert(_, held) => {
            let entries = TableName::Facts(FactsTable::Entries);
            only_row_exchange(alloc, entries, None, Some(held))
        }
        Edit::Remove(place) => entry_removed(alloc, facts, *place),
        Edit::Peer(change) => peer_exchanges(alloc, facts, change),
        Edit::Settings(settings) => settings_exchange(alloc, facts, settings),
        Edit::Content(name, content) => content_exchanges(alloc, facts, name, content),
        Edit::Publishers(change) => publishers_exchange(alloc, facts, change),
        Edit::Today(_) => Ok(Vec::new(alloc)),
    }
}

// The exchange of one's own criteria for those of another table.
fn criteria_exchange(
    alloc: Global,
    facts: &EntryFacts,
    table: &CriteriaTable,
) -> Result<Vec<Exchange>, AllocError>
    ensures { IfOk result (λ exchanges. exchanges.items
        ≡ fact_exchanges (Edit.Criteria table.now) facts.now.content) }
{
    let removed = own_criteria(alloc, facts.criteria())?;
    let added = own_criteria(alloc, table)?;
    let criteria = Exchange::of(TableName::Facts(FactsTable::Criteria), removed, added);
    Ok(vec![in alloc; criteria]?)
}

// The exchange that removes one's own entry at a place.
fn entry_removed(
    alloc: Global,
    facts: &EntryFacts,
    place: usize,
) -> Result<Vec<Exchange>, AllocError>
    requires { All EntryFits facts.now.content.entries }
    ensures { IfOk result (λ exchanges. exchanges.items ≡ fact_exchanges (Edit.Remove place) facts.now.content) }
{
    only_row_exchange(
        alloc,
        TableName::Facts(FactsTable::Entries),
        entry_at(facts.entries(), place),
        None,
    )
}

/// The entry at a place, if there is one. Takes no memory.
pub fn entry_at(entries: &[HeldEntry], place: usize) -> Option<&HeldEntry>
    ensures { option_copied result ≡ slice_get entries.now place }
{
    entries.get(place)
}

// The exchanges that remove, exchange or add a peer, with its criteria and entries.
fn peer_exchanges(
    alloc: Global,
    facts: &EntryFacts,
    change: &KeyedEdit<HeldPeer>,
) -> Result<Vec<Exchange>, AllocError>
    requires held { All PeerFits facts.now.content.peers }
    requires added { (p : HeldPeer) → added_item change.now ≡ Some p → PeerFits p }
    ensures { IfOk result (λ exchanges. exchanges.items ≡ fact_exchanges (Edit.Peer change.now) facts.now.content) }
{
    let removed = removed_item(change, facts.peers());
    let added = added_item(change);
    let criteria = Exchange::of(
        TableName::Facts(FactsTable::Criteria),
        criteria_of_peer(alloc, removed)?,
        criteria_of_peer(alloc, added)?,
    );
    let entries = Exchange::of(
        TableName::Facts(FactsTable::Entries),
        entries_of_peer(alloc, removed)?,
        entries_of_peer(alloc, added)?,
    );
    let peers = row_exchange(alloc, TableName::Facts(FactsTable::Peers), removed, added)?;
    Ok(vec![in alloc; criteria, entries, peers]?)
}

// The exchange of the settings of a held peer for others.
fn settings_exchange(
    alloc: Global,
    facts: &EntryFacts,
    settings: &PeerSettings,
) -> Result<Vec<Exchange>, AllocError>
    ensures { IfOk result (λ exchanges. exchanges.items
        ≡ fact_exchanges (Edit.Settings settings.now) facts.now.content) }
{
    let removed = row_if(alloc, facts.peer(&settings.name))?;
    let added = row_if(alloc, Some(settings))?;
    let peers = Exchange::of(TableName::Facts(FactsTable::Peers), removed, added);
    Ok(vec![in alloc; peers]?)
}

// The exchanges of the content of a held peer for another.
fn content_exchanges(
    alloc: Global,
    facts: &EntryFacts,
    name: &Name,
    content: &Holding,
) -> Result<Vec<Exchange>, AllocError>
    requires held { All PeerFits facts.now.content.peers }
    requires added { All EntryFits content.now.entries }
    ensures { IfOk result (λ exchanges. exchanges.items
        ≡ fact_exchanges (Edit.Content name.now content.now) facts.now.content) }
{
    let held = facts.peer(name);
    let criteria = Exchange::of(
        TableName::Facts(FactsTable::Criteria),
        criteria_of_peer(alloc, held)?,
        criteria_of(alloc, name, content.definitions())?,
    );
    let entries = Exchange::of(
        TableName::Facts(FactsTable::Entries),
        entries_of_peer(alloc, held)?,
        rows_each(alloc, content.entries())?,
    );
    Ok(vec![in alloc; criteria, entries]?)
}

// The exchange of the publisher records of a package for others.
fn publishers_exchange(
    alloc: Global,
    facts: &EntryFacts,
    change: &KeyedEdit<PackagePublishers>,
) -> Result<Vec<Exchange>, AllocError>
    ensures { IfOk result (λ exchanges. exchanges.items
        ≡ fact_exchanges (Edit.Publishers change.now) facts.now.content) }
{
    let removed = publishers_of(alloc, removed_item(change, facts.publishers()))?;
    let added = publishers_of(alloc, added_item(change))?;
    let publishers = Exchange::of(TableName::Facts(FactsTable::Publishers), removed, added);
    Ok(vec![in alloc; publishers]?)
}

// ---- rows of a peer and of a package

// The rows of the criteria of a peer, if there is one.
fn criteria_of_peer(alloc: Global, peer: Option<&HeldPeer>) -> Result<Vec<Row>, AllocError>
    ensures { IfOk result (λ rows. rows.items ≡ rows_if peer_criteria (option_copied peer.entry)) }
{
    match peer {
        Some(peer) => criteria_of(alloc, &peer.settings.name, peer.content.definitions()),
        None => Ok(Vec::new(alloc)),
    }
}

// The rows of the criteria of a peer with this name.
fn criteria_of(
    alloc: Global,
    name: &Name,
    definitions: &Definitions,
) -> Result<Vec<Row>, AllocError>
    ensures { IfOk result (λ rows. rows.items ≡ criteria_rows name.now definitions.now) }
{
    let mut rows = Vec::new(alloc);
    push_criteria(alloc, &mut rows, name.as_str(), definitions.criteria())?;
    Ok(rows)
}

// The rows of the entries of a peer, if there is one.
fn entries_of_peer(alloc: Global, peer: Option<&HeldPeer>) -> Result<Vec<Row>, AllocError>
    requires { (p : HeldPeer) → option_copied peer ≡ Some p → PeerFits p }
    ensures { IfOk result (λ rows. rows.items ≡ rows_if peer_entries (option_copied peer.entry)) }
{
    match peer {
        Some(peer) => rows_each(alloc, peer.content.entries()),
        None => Ok(Vec::new(alloc)),
    }
}

// The rows of the publisher records of a package, if there is one.
fn publishers_of(alloc: Global, held: Option<&PackagePublishers>) -> Result<Vec<Row>, AllocError>
    ensures { IfOk result (λ rows. rows.items ≡ rows_if package_rows (option_copied held.entry)) }
{
    let mut rows = Vec::new(alloc);
    if let Some(held) = held {
        push_publishers(alloc, &mut rows, held)?;
    }
    Ok(rows)
}
