//! The rows that an edit of what is held removes and adds.
//!
//! If all files are replaced, the rows of everything that files hold are exchanged for those of the new files.
ghost use Rattle.std.specs.List.{All, flat_map};
ghost use Rattle.std.specs.Option.{option_copied};
ghost use Rattle.std.specs.Prelude.{◌≡◌, IfOk, map};
ghost use Rattle.vet_item_rows.specs.EntryRows.{all_entries, package_rows};
ghost use Rattle.vet_item_rows.specs.Numbers.{EntryFits, PeerFits};
ghost use Rattle.vet_item_rows.specs.ProjectRows.{edge_rows, node_rows};
ghost use Rattle.vet_item_rows.specs.SettingRows.{all_criteria, policy_row};
ghost use Rattle.vet_rows.specs.AddedNumbers.{HeldEntriesFit};
ghost use Rattle.vet_rows.specs.HeldChanges.{held_exchanges};
ghost use Rattle.vet_rows.specs.KeyedItems.{rows_if};
ghost use Rattle.vet_rows.specs.RowExchanges.{exchange_of};

use crate::row_changes::exchange::{Exchange, only_row_exchange, rows_exchange};
use crate::row_changes::fact_changes::fact_exchanges;
use crate::row_changes::keyed_items::{added_item, removed_item};
use crate::rows_of::entry_rows::all_entries;
use crate::rows_of::meta_rows::numbers_fit;
use crate::rows_of::setting_rows::all_criteria;
use std::alloc::{AllocError, Global};
use vet_base::keyed::KeyedEdit;
use vet_demand::policies::KeyedPolicy;
use vet_demand::project::NamedProject;
use vet_entries::facts::EntryFacts;
use vet_graph::keeper::Keeper;
use vet_item_rows::rows_of::entry_rows::all_publishers;
use vet_item_rows::rows_of::project_rows::{push_edges, push_nodes};
use vet_register::held::{FilesHeld, HeldEdit};
use vet_register::register::Register;
use vet_tables::sequence::Row;
use vet_tables::table_name::{DemandTable, FactsTable, TableName};

/// The rows that an edit of what is held removes and adds. Asks that the numbers of entries that it adds are below
/// 2^63. Fails only if memory runs out.
pub fn held_exchanges<K: Keeper>(
    alloc: Global,
    edit: &HeldEdit,
    register: &Register<K>,
) -> Result<Vec<Exchange>, AllocError>
    requires { HeldEntriesFit edit.now }
    ensures { IfOk result (λ exchanges. exchanges.items ≡ held_exchanges edit.now register.now.state.held) }
{
    numbers_fit(register);
    match edit {
        HeldEdit::Nothing => Ok(Vec::new(alloc)),
        HeldEdit::Facts(edit) => fact_exchanges(alloc, edit, register.facts()),
        HeldEdit::Policies(change) => policy_exchange(alloc, register, change),
        HeldEdit::Projects(change) => project_exchanges(alloc, register, change),
        HeldEdit::Files(files) => files_exchanges(alloc, register, files),
    }
}

// The exchange that removes, exchanges or adds a policy.
fn policy_exchange<K: Keeper>(
    alloc: Global,
    register: &Register<K>,
    change: &KeyedEdit<KeyedPolicy>,
) -> Result<Vec<Exchange>, AllocError>
    ensures { IfOk result (λ exchanges. exchanges.items
        ≡ held_exchanges (HeldEdit.Policies change.now) register.now.state.held) }
{
    let removed = removed_item(change, register.policies());
    let policies = TableName::Demand(DemandTable::Policies);
    only_row_exchange(alloc, policies, removed, added_item(change))
}

// The exchanges that remove, exchange or add a project, with its nodes and edges.
fn project_exchanges<K: Keeper>(
    alloc: Global,
    register: &Register<K>,
    change: &KeyedEdit<NamedProject>,
) -> Result<Vec<Exchange>, AllocError>
    ensures { IfOk result (λ exchanges. exchanges.items
        ≡ held_exchanges (HeldEdit.Projects change.now) register.now.state.held) }
{
    let removed = removed_item(change, register.projects());
    let added = added_item(change);
    let nodes = Exchange::of(
        TableName::Demand(DemandTable::Nodes),
        nodes_of(alloc, removed)?,
        nodes_of(alloc, added)?,
    );
    let edges = Exchange::of(
        TableName::Demand(DemandTable::Edges),
        edges_of(alloc, removed)?,
        edges_of(alloc, added)?,
    );
    Ok(vec![in alloc; nodes, edges]?)
}

// The exchanges of all that files hold for what other files hold.
fn files_exchanges<K: Keeper>(
    alloc: Global,
    register: &Register<K>,
    files: &FilesHeld,
) -> Result<Vec<Exchange>, AllocError>
    requires own { All EntryFits files.now.facts.content.entries }
    requires peers { All PeerFits files.now.facts.content.peers }
    ensures { IfOk result (λ exchanges. exchanges.items
        ≡ held_exchanges (HeldEdit.Files files.now) register.now.state.held) }
{
    numbers_fit(register);
    let held = register.facts();
    let filed = &files.facts;
    let criteria = criteria_replaced(alloc, held, filed)?;
    let entries = entries_replaced(alloc, held, filed)?;
    let publishers = publishers_replaced(alloc, held, filed)?;
    let policies = policies_replaced(alloc, register, files)?;
    let table = TableName::Facts(FactsTable::Peers);
    let peers = rows_exchange(alloc, table, held.peers(), filed.peers())?;
    Ok(vec![in alloc; criteria, entries, publishers, policies, peers]?)
}

// The exchange of all criteria for others.
fn criteria_replaced(
    alloc: Global,
    held: &EntryFacts,
    filed: &EntryFacts,
) -> Result<Exchange, AllocError>
    ensures { IfOk result (λ e. e
        ≡ exchange_of (TableName.Facts FactsTable.Criteria) (all_criteria held.now.content)
        (all_criteria filed.now.content)) }
{
    let removed = all_criteria(alloc, held)?;
    let added = all_criteria(alloc, filed)?;
    Ok(Exchange::of(TableName::Facts(FactsTable::Criteria), removed, added))
}

// The exchange of all entries for others.
fn entries_replaced(
    alloc: Global,
    held: &EntryFacts,
    filed: &EntryFacts,
) -> Result<Exchange, AllocError>
    requires own { All EntryFits held.now.content.entries }
    requires peers { All PeerFits held.now.content.peers }
    requires own_added { All EntryFits filed.now.content.entries }
    requires peers_added { All PeerFits filed.now.content.peers }
    ensures { IfOk result (λ e. e
        ≡ exchange_of (TableName.Facts FactsTable.Entries) (all_entries held.now.content)
        (all_entries filed.now.content)) }
{
    let removed = all_entries(alloc, held)?;
    let added = all_entries(alloc, filed)?;
    Ok(Exchange::of(TableName::Facts(FactsTable::Entries), removed, added))
}

// The exchange of all publisher records for others.
fn publishers_replaced(
    alloc: Global,
    held: &EntryFacts,
    filed: &EntryFacts,
) -> Result<Exchange, AllocError>
    ensures { IfOk result (λ e. e
        ≡ exchange_of (TableName.Facts FactsTable.Publishers) (flat_map package_rows held.now.content.publishers)
        (flat_map package_rows filed.now.content.publishers)) }
{
    let removed = all_publishers(alloc, held.publishers())?;
    let added = all_publishers(alloc, filed.publishers())?;
    Ok(Exchange::of(TableName::Facts(FactsTable::Publishers), removed, added))
}

// The exchange of all policies for others.
fn policies_replaced<K: Keeper>(
    alloc: Global,
    register: &Register<K>,
    files: &FilesHeld,
) -> Result<Exchange, AllocError>
    ensures { IfOk result (λ e. e
        ≡ exchange_of (TableName.Demand DemandTable.Policies) (map policy_row register.now.state.held.policies)
        (map policy_row files.now.policies.items)) }
{
    let filed = files.policies.items();
    let policies = TableName::Demand(DemandTable::Policies);
    rows_exchange(alloc, policies, register.policies(), filed)
}

// ---- rows of a project

// The rows of the nodes of a project, if there is one.
fn nodes_of(alloc: Global, named: Option<&NamedProject>) -> Result<Vec<Row>, AllocError>
    ensures { IfOk result (λ rows. rows.items ≡ rows_if node_rows (option_copied named.entry)) }
{
    let mut rows = Vec::new(alloc);
    if let Some(named) = named {
        push_nodes(alloc, &mut rows, named)?;
    }
    Ok(rows)
}

// The rows of the edges of a project, if there is one.
fn edges_of(alloc: Global, named: Option<&NamedProject>) -> Result<Vec<Row>, AllocError>
    ensures { IfOk result (λ rows. rows.items ≡ rows_if edge_rows (option_copied named.entry)) }
{
    let mut rows = Vec::new(alloc);
    if let Some(named) = named {
        push_edges(alloc, &mut rows, named)?;
    }
    Ok(rows)
}
