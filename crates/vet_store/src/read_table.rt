//! Reading a table, a row at a time.
ghost use Rattle.std.specs.Prelude.{◌≡◌, ◌<ℤ◌, false, IfOk, IfSome, IsTrue, map, OnOk};
ghost use Rattle.sqlite.specs.Held.{state};
ghost use Rattle.sqlite.specs.State.{HasCleanDisk, IsUnchanged, Survives};
ghost use Rattle.vet_tables.specs.Cells.{values_of};
ghost use Rattle.vet_store.specs.Read.{IsUnread};
ghost use Rattle.vet_tables.specs.Read.{AreRead, KeepsRest};

use sqlite::{Alter, Connection, Error, ErrorCode};
use std::alloc::Global;
use vet_tables::cells::{are_typed, int_at, row_cells};
use vet_tables::sequence::Row;
use vet_tables::table_name::TableName;

fn rises(last: Option<i64>, id: i64) -> bool
    ensures { IsTrue result → IfSome last (λ m. m <ℤ id) }
{
    match last {
        None => true,
        Some(last) => last < id,
    }
}

/// The rows of a table. `None` if a cell has another type than its column. Returns the database's error, if any, and
/// `DatabaseCorrupt` if the rowids don't rise.
pub fn read_table<S: Alter>(
    alloc: Global,
    conn: &mut Connection<S>,
    table: TableName,
) -> Result<Option<Vec<Row>>, Error>
    ensures found { HasCleanDisk (state S.Store conn.new) → IfOk result (λ found. IfSome found (λ rows.
        AreRead (state S.Store conn.old).now table (map values_of rows.items))) }
    ensures none { HasCleanDisk (state S.Store conn.new) → result ≡ Ok None
        → IsUnread (state S.Store conn.old).now table }
    ensures same { HasCleanDisk (state S.Store conn.new) → OnOk result (
        IsUnchanged (state S.Store conn.old) (state S.Store conn.new)) }
    ensures kept { HasCleanDisk (state S.Store conn.new)
        → KeepsRest (state S.Store conn.old) (state S.Store conn.new) }
    ensures mode { conn.old.in_transaction ≡ false → conn.new.in_transaction ≡ false }
    ensures survives { Survives (state S.Store conn.old) (state S.Store conn.new) (λ _. ⊥) }
{
    let _live = conn.schema();
    let form = table.form();
    let mut rows = Vec::new(alloc);
    let mut last = None;
    let mut found = conn.query(form.select(), &[])?;
    'rows: loop {
        let Some(row) = found.next()? else {
            return Ok(Some(rows));
        };
        if !are_typed(&row, &form) {
            return Ok(None);
        }
        let id = int_at(&row, 0);
        if !rises(last, id) {
            return Err(Error::SqliteFailure(ErrorCode::DatabaseCorrupt));
        }
        last = Some(id);
        rows.push(row_cells(alloc, &row, &form)?)?;
    }
}
