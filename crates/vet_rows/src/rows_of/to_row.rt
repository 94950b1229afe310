//! Things that have one row each in a table.
ghost use Rattle.std.specs.List.{All};
ghost use Rattle.std.specs.Option.{option_copied};
ghost use Rattle.std.specs.Prelude.{◌≡◌, ◌++◌, IfOk, OnOk, Some, map};
ghost use Rattle.vet_rows.specs.KeyedItems.{one_row, rows_if};
ghost use Rattle.vet_tables.specs.Cells.{Row as RowValue};

use std::alloc::{AllocError, Global};
use vet_tables::sequence::Row;

/// A thing that has one row in a table.
pub trait ToRow: Drop {
    /// Its row.
    ghost row_of: { Self → RowValue };

    /// Its numbers are below 2^63.
    ghost fits: { Self → Type 0 };

    /// Its row. Asks that its numbers are below 2^63. Fails only if memory runs out.
    fn to_row(&self, alloc: Global) -> Result<Row, AllocError>
        requires { fits self.now }
        ensures { IfOk result (λ row. row ≡ row_of self.now) };
}

/// The rows of some things, in their order. Asks that their numbers are below 2^63. Fails only if memory runs out.
pub fn rows_each<T: ToRow>(alloc: Global, things: &[T]) -> Result<Vec<Row>, AllocError>
    requires { All T.fits things.now }
    ensures { IfOk result (λ rows. rows.items ≡ map T.row_of things.now) }
{
    let mut rows = Vec::new(alloc);
    push_rows(alloc, &mut rows, things)?;
    Ok(rows)
}

/// Adds the rows of some things after those of others.
pub(crate) fn push_rows<T: ToRow>(
    alloc: Global,
    rows: &mut Vec<Row>,
    things: &[T],
) -> Result<(), AllocError>
    requires { All T.fits things.now }
    ensures { OnOk result (rows.new.items ≡ rows.old.items ++ map T.row_of things.now) }
{
    'things: for thing in things {
        rows.push(thing.to_row(alloc)?)?;
    }
    Ok(())
}

/// The row of a thing, if there is one.
pub(crate) fn row_if<T: ToRow>(alloc: Global, thing: Option<&T>) -> Result<Vec<Row>, AllocError>
    requires { (t : T) → option_copied thing ≡ Some t → T.fits t }
    ensures { IfOk result (λ rows. rows.items ≡ rows_if (one_row T.row_of) (option_copied thing.entry)) }
{
    let mut rows = Vec::new(alloc);
    if let Some(thing) = thing {
        rows.push(thing.to_row(alloc)?)?;
    }
    Ok(rows)
}
