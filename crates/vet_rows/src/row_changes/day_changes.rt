//! The rows of last days and of the register's day that an edit removes and adds.
//!
//! The last day of an own entry is added and removed with the entry.
ghost use Rattle.std.specs.List.{All};
ghost use Rattle.std.specs.Option.{option_copied};
ghost use Rattle.std.specs.Prelude.{◌≡◌, ◌∷◌, [], IfOk, Some};
ghost use Rattle.vet_entries.specs.declared.facts.HeldEntry.{HeldEntry as EntryValue};
ghost use Rattle.vet_item_rows.specs.DayRows.{last_rows, today_rows};
ghost use Rattle.vet_item_rows.specs.Numbers.{EntryFits};
ghost use Rattle.vet_rows.specs.AddedNumbers.{AddedEntriesFit, HeldEntriesFit};
ghost use Rattle.vet_rows.specs.DayChanges.{day_exchanges, fact_day_exchanges};
ghost use Rattle.vet_rows.specs.DayRows.{all_last_rows};
ghost use Rattle.vet_rows.specs.KeyedItems.{rows_if};
ghost use Rattle.vet_rows.specs.RowExchanges.{exchange_of};

use crate::row_changes::exchange::Exchange;
use crate::row_changes::fact_changes::entry_at;
use crate::rows_of::meta_rows::numbers_fit;
use std::alloc::{AllocError, Global};
use vet_base::day::Day;
use vet_entries::facts::{Edit, EntryFacts, HeldEntry};
use vet_graph::keeper::Keeper;
use vet_item_rows::rows_of::day_rows::{all_last_days, push_last_day, today_rows};
use vet_register::held::{FilesHeld, HeldEdit};
use vet_register::register::Register;
use vet_tables::sequence::Row;
use vet_tables::table_name::{DaysTable, TableName};

/// The rows of last days and of the register's day that an edit of what is held removes and adds. Asks that the numbers
/// of the entries that it adds are below 2^63. Fails only if memory runs out.
pub fn day_exchanges<K: Keeper>(
    alloc: Global,
    edit: &HeldEdit,
    register: &Register<K>,
) -> Result<Vec<Exchange>, AllocError>
    requires { HeldEntriesFit edit.now }
    ensures { IfOk result (λ exchanges. exchanges.items ≡ day_exchanges edit.now register.now.state.held) }
{
    numbers_fit(register);
    match edit {
        HeldEdit::Facts(edit) => fact_day_exchanges(alloc, edit, register.facts()),
        HeldEdit::Files(files) => files_day_exchanges(alloc, register, files),
        HeldEdit::Nothing | HeldEdit::Policies(_) | HeldEdit::Projects(_) => Ok(Vec::new(alloc)),
    }
}

// The exchanges for an edit of the facts of packages.
fn fact_day_exchanges(
    alloc: Global,
    edit: &Edit,
    facts: &EntryFacts,
) -> Result<Vec<Exchange>, AllocError>
    requires own { All EntryFits facts.now.content.entries }
    requires added { AddedEntriesFit edit.now }
    ensures { IfOk result (λ exchanges. exchanges.items ≡ fact_day_exchanges edit.now facts.now.content) }
{
    match edit {
        Edit::Insert(_, held) => lasts_exchange(alloc, None, Some(held)),
        Edit::Remove(place) => last_day_removed(alloc, facts, *place),
        Edit::Today(day) => today_exchange(alloc, facts, *day),
        Edit::Criteria(_)
        | Edit::Peer(_)
        | Edit::Settings(_)
        | Edit::Content(..)
        | Edit::Publishers(_) => Ok(Vec::new(alloc)),
    }
}

// The exchange that removes the last day of the own entry at a place, if it has one.
fn last_day_removed(
    alloc: Global,
    facts: &EntryFacts,
    place: usize,
) -> Result<Vec<Exchange>, AllocError>
    requires { All EntryFits facts.now.content.entries }
    ensures { IfOk result (λ exchanges. exchanges.items ≡ fact_day_exchanges (Edit.Remove place) facts.now.content) }
{
    lasts_exchange(alloc, entry_at(facts.entries(), place), None)
}

// The exchange of one entry's last day for another's. Either entry may be absent, or have no last day.
fn lasts_exchange(
    alloc: Global,
    removed: Option<&HeldEntry>,
    added: Option<&HeldEntry>,
) -> Result<Vec<Exchange>, AllocError>
    requires removed { (h : EntryValue) → option_copied removed ≡ Some h → EntryFits h }
    requires added { (h : EntryValue) → option_copied added ≡ Some h → EntryFits h }
    ensures { IfOk result (λ exchanges. exchanges.items
        ≡ exchange_of (TableName.Days DaysTable.Lasts) (rows_if last_rows (option_copied removed.entry))
        (rows_if last_rows (option_copied added.entry)) ∷ []) }
{
    let removed = last_rows_if(alloc, removed)?;
    let added = last_rows_if(alloc, added)?;
    let lasts = Exchange::of(TableName::Days(DaysTable::Lasts), removed, added);
    Ok(vec![in alloc; lasts]?)
}

// The row of the last day of an entry, if there is an entry and it has a last day.
fn last_rows_if(alloc: Global, held: Option<&HeldEntry>) -> Result<Vec<Row>, AllocError>
    requires { (h : EntryValue) → option_copied held ≡ Some h → EntryFits h }
    ensures { IfOk result (λ rows. rows.items ≡ rows_if last_rows (option_copied held.entry)) }
{
    match held {
        Some(held) => last_rows(alloc, held),
        None => Ok(Vec::new(alloc)),
    }
}

// The row of the last day of an entry, if it has one.
fn last_rows(alloc: Global, held: &HeldEntry) -> Result<Vec<Row>, AllocError>
    requires { EntryFits held.now }
    ensures { IfOk result (λ rows. rows.items ≡ last_rows held.now) }
{
    let mut rows = Vec::new(alloc);
    push_last_day(alloc, &mut rows, held)?;
    Ok(rows)
}

// The exchange of the register's day for another. Either may be absent.
fn today_exchange(
    alloc: Global,
    facts: &EntryFacts,
    day: Option<Day>,
) -> Result<Vec<Exchange>, AllocError>
    ensures { IfOk result (λ exchanges. exchanges.items ≡ fact_day_exchanges (Edit.Today day) facts.now.content) }
{
    let removed = today_rows(alloc, facts.today())?;
    let added = today_rows(alloc, day)?;
    let today = Exchange::of(TableName::Days(DaysTable::Today), removed, added);
    Ok(vec![in alloc; today]?)
}

// The exchanges of the register's day and of all last days for those after all files are replaced.
fn files_day_exchanges<K: Keeper>(
    alloc: Global,
    register: &Register<K>,
    files: &FilesHeld,
) -> Result<Vec<Exchange>, AllocError>
    requires { All EntryFits files.now.facts.content.entries }
    ensures { IfOk result (λ exchanges. exchanges.items
        ≡ day_exchanges (HeldEdit.Files files.now) register.now.state.held) }
{
    numbers_fit(register);
    let held = register.facts();
    let filed = &files.facts;
    let today = today_replaced(alloc, held, filed)?;
    let lasts = lasts_replaced(alloc, held, filed)?;
    Ok(vec![in alloc; today, lasts]?)
}

fn today_replaced(
    alloc: Global,
    held: &EntryFacts,
    filed: &EntryFacts,
) -> Result<Exchange, AllocError>
    ensures { IfOk result (λ e. e
        ≡ exchange_of (TableName.Days DaysTable.Today) (today_rows held.now.content.today)
        (today_rows filed.now.content.today)) }
{
    let removed = today_rows(alloc, held.today())?;
    let added = today_rows(alloc, filed.today())?;
    Ok(Exchange::of(TableName::Days(DaysTable::Today), removed, added))
}

fn lasts_replaced(
    alloc: Global,
    held: &EntryFacts,
    filed: &EntryFacts,
) -> Result<Exchange, AllocError>
    requires held { All EntryFits held.now.content.entries }
    requires filed { All EntryFits filed.now.content.entries }
    ensures { IfOk result (λ e. e
        ≡ exchange_of (TableName.Days DaysTable.Lasts) (all_last_rows held.now.content)
        (all_last_rows filed.now.content)) }
{
    let removed = all_last_days(alloc, held.entries())?;
    let added = all_last_days(alloc, filed.entries())?;
    Ok(Exchange::of(TableName::Days(DaysTable::Lasts), removed, added))
}
