//! Changes of tables.
use vet_tables::sequence::Row;
use vet_tables::table_name::TableName;

/// A change of a table: by one row, or of all its rows.
pub enum RowChange {
    /// Puts a row into a table, in place of the row of its key, if there is one.
    Put(TableName, Row),
    /// Removes the row that has this row's key from a table, if there is one. The other columns don't matter.
    Drop(TableName, Row),
    /// Removes all rows of a table.
    Clear(TableName),
}

impl Drop for RowChange {
    fn drop(self) {
        match self {
            RowChange::Put(_, _) => {}
            RowChange::Drop(_, _) => {}
            RowChange::Clear(_) => {}
        }
    }
}
