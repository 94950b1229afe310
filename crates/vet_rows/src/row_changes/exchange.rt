//! Rows of one table that are removed, and others that are added.
ghost use Rattle.std.specs.List.{All};
ghost use Rattle.std.specs.Option.{option_copied};
ghost use Rattle.std.specs.Prelude.{◌≡◌, ◌++◌, ◌∷◌, [], IfOk, OnOk, Some, map};
ghost use Rattle.vet_rows.specs.KeyedItems.{one_row, rows_if};
ghost use Rattle.vet_rows.specs.RowExchanges.{exchange_of, row_changes_of};

use crate::row_change::RowChange;
use crate::row_changes::difference::push_row_changes;
use crate::rows_of::to_row::{ToRow, row_if, rows_each};
use std::alloc::{AllocError, Global};
use vet_tables::sequence::{Row, Sequence};
use vet_tables::table_name::TableName;

/// The rows of one table that are removed, and those that are added.
pub struct Exchange {
    table: TableName,
    removed: Sequence<Row>,
    added: Sequence<Row>,
}

impl Drop for Exchange {
    fn drop(self) {
        let Exchange {
            table: _,
            removed: _,
            added: _,
        } = self;
    }
}

impl Exchange {
    /// The exchange of some rows of a table for others. Takes no memory.
    pub fn of(table: TableName, removed: Vec<Row>, added: Vec<Row>) -> Exchange
        ensures { result ≡ exchange_of table removed.items added.items }
    {
        Exchange {
            table,
            removed: Sequence::of(removed),
            added: Sequence::of(added),
        }
    }

    /// Adds its changes after others. Costs a search for each row among the others, if only the rows that differ are
    /// written. Fails only if memory runs out.
    pub fn push_changes(self, alloc: Global, changes: &mut Vec<RowChange>) -> Result<(), AllocError>
        ensures { OnOk result (changes.new.items ≡ changes.old.items ++ row_changes_of self) }
    {
        let Exchange {
            table,
            removed,
            added,
        } = self;
        let removed = removed.into_items();
        let added = added.into_items();
        push_row_changes(alloc, changes, table, removed, added)
    }
}

/// The exchange of the row of one thing for that of another. Either may be missing. Asks that their numbers are below
/// 2^63. Fails only if memory runs out.
pub fn row_exchange<T: ToRow>(
    alloc: Global,
    table: TableName,
    removed: Option<&T>,
    added: Option<&T>,
) -> Result<Exchange, AllocError>
    requires removed { (t : T) → option_copied removed ≡ Some t → T.fits t }
    requires added { (t : T) → option_copied added ≡ Some t → T.fits t }
    ensures { IfOk result (λ e. e ≡ exchange_of table (rows_if (one_row T.row_of) (option_copied removed.entry))
        (rows_if (one_row T.row_of) (option_copied added.entry))) }
{
    let removed = row_if(alloc, removed)?;
    let added = row_if(alloc, added)?;
    Ok(Exchange::of(table, removed, added))
}

/// The same, as the only exchange.
pub fn only_row_exchange<T: ToRow>(
    alloc: Global,
    table: TableName,
    removed: Option<&T>,
    added: Option<&T>,
) -> Result<Vec<Exchange>, AllocError>
    requires removed { (t : T) → option_copied removed ≡ Some t → T.fits t }
    requires added { (t : T) → option_copied added ≡ Some t → T.fits t }
    ensures { IfOk result (λ exchanges. exchanges.items
        ≡ exchange_of table (rows_if (one_row T.row_of) (option_copied removed.entry))
        (rows_if (one_row T.row_of) (option_copied added.entry)) ∷ []) }
{
    let exchange = row_exchange(alloc, table, removed, added)?;
    Ok(vec![in alloc; exchange]?)
}

/// The exchange of the rows of some things for those of others. Asks that their numbers are below 2^63. Fails only if
/// memory runs out.
pub fn rows_exchange<T: ToRow>(
    alloc: Global,
    table: TableName,
    removed: &[T],
    added: &[T],
) -> Result<Exchange, AllocError>
    requires removed { All T.fits removed.now }
    requires added { All T.fits added.now }
    ensures { IfOk result (λ e. e ≡ exchange_of table (map T.row_of removed.now) (map T.row_of added.now)) }
{
    let removed = rows_each(alloc, removed)?;
    let added = rows_each(alloc, added)?;
    Ok(Exchange::of(table, removed, added))
}
