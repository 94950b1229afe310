//! Tables of the same rows.
ghost use Rattle.std.specs.Bool.{Decides};
ghost use Rattle.std.specs.Prelude.{IfOk};
ghost use Rattle.vet_tables.specs.Cells.{SameRows, rows_in};

use crate::rows::Rows;
use crate::same_items::have_same_items;
use crate::table_name::{TABLE_COUNT, table_at};
use std::alloc::{AllocError, Global};

/// Whether each table has the same rows, in whatever order. Costs two searches for each row, in an order. Fails only if
/// memory runs out.
pub fn have_same_rows(alloc: Global, a: &Rows, b: &Rows) -> Result<bool, AllocError>
    ensures { IfOk result (λ same. Decides same (SameRows (rows_in a.now) (rows_in b.now))) }
{
    'tables: for at in 0..TABLE_COUNT {
        let table = table_at(at);
        if !have_same_items(alloc, a.of(table), b.of(table))? {
            return Ok(false);
        }
    }
    Ok(true)
}
