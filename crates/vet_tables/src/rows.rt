//! The rows of all tables.
ghost use Rattle.std.specs.Prelude.{◌≡◌, ◌++◌, ◌∷◌, [], OnErr, OnOk};
ghost use Rattle.vet_tables.specs.Cells.{rows_in};

use crate::sequence::{Row, Sequence};
use crate::table_name::TableName;
use std::alloc::{AllocError, Global};

/// The rows of tables: a list for each table, in the order of the tables. The rows of a table are in any order.
#[derive(Drop)]
pub struct Rows {
    tables: Vec<Sequence<Row>>,
}

impl Rows {
    /// No lists. Takes no memory.
    pub fn new(alloc: Global) -> Rows
        ensures { result.tables.items ≡ [] }
    {
        Rows {
            tables: Vec::new(alloc),
        }
    }

    /// Adds the rows of the next table. Fails only if memory runs out, and then the lists stay.
    pub fn push(&mut self, rows: Vec<Row>) -> Result<(), AllocError>
        ensures ok { OnOk result (self.new.tables.items ≡ self.old.tables.items ++ rows.items ∷ []) }
        ensures err { OnErr result (self.new.tables.items ≡ self.old.tables.items) }
    {
        self.tables.push(Sequence::of(rows))?;
        Ok(())
    }

    /// The rows of a table, or none if no list was added for it. Takes no memory.
    pub fn of(&self, table: TableName) -> &[Row]
        ensures { result.now ≡ rows_in self.now table }
    {
        match self.tables.get(table.place()) {
            Some(rows) => rows.as_slice(),
            None => &[],
        }
    }
}
