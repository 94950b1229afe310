//! Reading rows.
ghost use Rattle.std.specs.Prelude.{◌≡◌, List, MatchResult};
ghost use Rattle.vet_item_rows.specs.ReadBack.{EachStandsFor, IsReadBack};
ghost use Rattle.vet_tables.specs.Cells.{Row as RowValue};

use crate::read::read_error::ReadError;
use std::alloc::Global;
use vet_tables::sequence::Row;

/// A value that can be read from its row.
pub trait FromRow: Drop {
    /// A row stands for it.
    ghost stands_for: { RowValue → Self → Type 0 };

    /// The value that a row stands for, or `NoMemory`. Other rows give `NotARegister` or some value, and no clause says
    /// which.
    fn from_row(alloc: Global, row: &Row) -> Result<Self, ReadError>
        ensures { IsReadBack stands_for row.now result };
}

/// The values that these rows stand for, row by row, or `NoMemory`. Stops at the first row that can't be read, and
/// returns its error.
pub fn read_rows<T: FromRow>(alloc: Global, rows: &[Row]) -> Result<Vec<T>, ReadError>
    ensures { (xs : List T) → EachStandsFor T.stands_for rows.now xs
        → MatchResult result (λ values. values.items ≡ xs) (λ e. e ≡ ReadError.NoMemory) }
{
    let mut values = Vec::new(alloc);
    'rows: for row in rows {
        values.push(T::from_row(alloc, row)?)?;
    }
    Ok(values)
}
