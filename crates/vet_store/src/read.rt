//! What the tables hold.
ghost use Rattle.std.specs.Prelude.{◌≡◌, false, IfOk, IfSome, OnOk};
ghost use Rattle.sqlite.specs.Held.{state};
ghost use Rattle.sqlite.specs.State.{HasCleanDisk, IsUnchanged, Survives};
ghost use Rattle.vet_store.specs.Readable.{AreReadable};
ghost use Rattle.vet_store.specs.Stands.{HoldsIn};
ghost use Rattle.vet_tables.specs.Cells.{rows_in};
ghost use Rattle.vet_tables.specs.Read.{KeepsRest};
ghost use Rattle.vet_tables.specs.Versions.{HasVersion};

use crate::read_table::read_table;
use sqlite::{Alter, Connection, Error};
use std::alloc::Global;
use vet_tables::rows::Rows;
use vet_tables::table_name::table_at;
use vet_tables::version::TablesVersion;

/// The rows of the tables of a version, read one row at a time. `None` if a cell has another type than its column.
/// Returns the database's error, if any.
pub fn read_rows<S: Alter>(
    alloc: Global,
    conn: &mut Connection<S>,
    version: TablesVersion,
) -> Result<Option<Rows>, Error>
    requires { HasCleanDisk (state S.Store conn.old) → HasVersion version (state S.Store conn.old).now.schema }
    ensures found { HasCleanDisk (state S.Store conn.new) → IfOk result (λ found. IfSome found (λ rows.
        HoldsIn version (state S.Store conn.old).now (rows_in rows))) }
    ensures none { HasCleanDisk (state S.Store conn.new) → result ≡ Ok None
        → (rows : _) → AreReadable rows → HoldsIn version (state S.Store conn.old).now rows → ⊥ }
    ensures same { HasCleanDisk (state S.Store conn.new) → OnOk result (
        IsUnchanged (state S.Store conn.old) (state S.Store conn.new)) }
    ensures kept { HasCleanDisk (state S.Store conn.new)
        → KeepsRest (state S.Store conn.old) (state S.Store conn.new) }
    ensures mode { conn.old.in_transaction ≡ false → conn.new.in_transaction ≡ false }
    ensures survives { Survives (state S.Store conn.old) (state S.Store conn.new) (λ _. ⊥) }
{
    let _live = conn.schema();
    let count = version.table_count();
    let mut rows = Rows::new(alloc);
    'tables: for at in 0..count {
        let Some(found) = read_table(alloc, conn, table_at(at))? else {
            return Ok(None);
        };
        rows.push(found)?;
    }
    Ok(Some(rows))
}
