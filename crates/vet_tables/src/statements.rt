//! The statements on a table, each in one call of the database.
ghost use Rattle.std.specs.Prelude.{◌≡◌, ◌<◌, IsTrue, OnOk};
ghost use Rattle.sqlite.specs.Held.{state};
ghost use Rattle.sqlite.specs.State.{HasCleanDisk, KeepsCommit, Survives};
ghost use Rattle.sqlite.specs.Values.{bound};
ghost use Rattle.vet_tables.specs.Contents.{Changes, added, cleared, dropped};
ghost use Rattle.vet_tables.specs.Forms.{form_of};
ghost use Rattle.vet_tables.specs.Makes.{MakesTable, MakesTables};
ghost use Rattle.vet_tables.specs.Typed.{AreSorts, kinds_of};

use crate::table_name::{TABLE_COUNT, TableName, table_at};
use sqlite::types::ValueRef;
use sqlite::{Alter, Error, Transaction};

/// Adds a row of cells that have the types of their columns. Returns the database's error, if any: also if the key is
/// taken.
pub fn insert<S: Alter>(
    tx: &mut Transaction<'_, S>,
    table: TableName,
    cells: &[ValueRef<'_>],
) -> Result<(), Error>
    ensures same_reference { tx.new.conn.ghost_name ≡ tx.old.conn.ghost_name }
    ensures changes { HasCleanDisk (state S.Store tx.new.conn.now) → IsTrue tx.old.conn.now.in_transaction
        → AreSorts (kinds_of (form_of table)) (bound cells.now)
        → OnOk result (Changes (state S.Store tx.old.conn.now) (state S.Store tx.new.conn.now)
        (added table (bound cells.now))) }
    ensures kept { HasCleanDisk (state S.Store tx.new.conn.now)
        → KeepsCommit (state S.Store tx.old.conn.now) (state S.Store tx.new.conn.now) }
    ensures survives { Survives (state S.Store tx.old.conn.now) (state S.Store tx.new.conn.now) (λ _. ⊥) }
{
    tx.execute(table.form().insert(), cells)?;
    Ok(())
}

/// Removes the row of a key, if there is one. Returns the database's error, if any.
pub fn remove<S: Alter>(
    tx: &mut Transaction<'_, S>,
    table: TableName,
    key: &[ValueRef<'_>],
) -> Result<(), Error>
    ensures same_reference { tx.new.conn.ghost_name ≡ tx.old.conn.ghost_name }
    ensures changes { HasCleanDisk (state S.Store tx.new.conn.now) → IsTrue tx.old.conn.now.in_transaction
        → OnOk result (Changes (state S.Store tx.old.conn.now) (state S.Store tx.new.conn.now)
        (dropped table (bound key.now))) }
    ensures kept { HasCleanDisk (state S.Store tx.new.conn.now)
        → KeepsCommit (state S.Store tx.old.conn.now) (state S.Store tx.new.conn.now) }
    ensures survives { Survives (state S.Store tx.old.conn.now) (state S.Store tx.new.conn.now) (λ _. ⊥) }
{
    tx.execute(table.form().delete(), key)?;
    Ok(())
}

/// Removes all rows. Returns the database's error, if any.
pub fn clear<S: Alter>(tx: &mut Transaction<'_, S>, table: TableName) -> Result<(), Error>
    ensures same_reference { tx.new.conn.ghost_name ≡ tx.old.conn.ghost_name }
    ensures changes { HasCleanDisk (state S.Store tx.new.conn.now) → IsTrue tx.old.conn.now.in_transaction
        → OnOk result (Changes (state S.Store tx.old.conn.now) (state S.Store tx.new.conn.now) (cleared table)) }
    ensures kept { HasCleanDisk (state S.Store tx.new.conn.now)
        → KeepsCommit (state S.Store tx.old.conn.now) (state S.Store tx.new.conn.now) }
    ensures survives { Survives (state S.Store tx.old.conn.now) (state S.Store tx.new.conn.now) (λ _. ⊥) }
{
    tx.execute(table.form().clear(), &[])?;
    Ok(())
}

/// Makes a table without rows. Returns the database's error, if any: also if its name is taken.
pub fn create<S: Alter>(tx: &mut Transaction<'_, S>, table: TableName) -> Result<(), Error>
    ensures same_reference { tx.new.conn.ghost_name ≡ tx.old.conn.ghost_name }
    ensures makes { HasCleanDisk (state S.Store tx.new.conn.now) → IsTrue tx.old.conn.now.in_transaction
        → OnOk result (MakesTable (state S.Store tx.old.conn.now) (state S.Store tx.new.conn.now) table) }
    ensures kept { HasCleanDisk (state S.Store tx.new.conn.now)
        → KeepsCommit (state S.Store tx.old.conn.now) (state S.Store tx.new.conn.now) }
    ensures survives { Survives (state S.Store tx.old.conn.now) (state S.Store tx.new.conn.now) (λ _. ⊥) }
{
    tx.execute(table.form().create(), &[])?;
    Ok(())
}

/// Makes the tables from a given place on, without rows. Asks that `first` is the place of a table, 0 to 13. Stops at
/// the first table that fails, and returns the database's error: also if its name is taken.
pub fn create_from<S: Alter>(tx: &mut Transaction<'_, S>, first: usize) -> Result<(), Error>
    requires { first < TABLE_COUNT }
    ensures same_reference { tx.new.conn.ghost_name ≡ tx.old.conn.ghost_name }
    ensures makes { HasCleanDisk (state S.Store tx.new.conn.now) → IsTrue (state S.Store tx.old.conn.now).is_open
        → IsTrue tx.old.conn.now.in_transaction
        → OnOk result (MakesTables (state S.Store tx.old.conn.now) (state S.Store tx.new.conn.now) first TABLE_COUNT) }
    ensures opens { HasCleanDisk (state S.Store tx.new.conn.now) → IsTrue tx.old.conn.now.in_transaction
        → OnOk result (IsTrue (state S.Store tx.old.conn.now).is_open) }
    ensures kept { HasCleanDisk (state S.Store tx.new.conn.now)
        → KeepsCommit (state S.Store tx.old.conn.now) (state S.Store tx.new.conn.now) }
    ensures survives { Survives (state S.Store tx.old.conn.now) (state S.Store tx.new.conn.now) (λ _. ⊥) }
{
    'tables: for at in first..TABLE_COUNT {
        create(tx, table_at(at))?;
    }
    Ok(())
}
