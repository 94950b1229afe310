//! What a row holds in a column.
ghost use Rattle.sqlite.specs.Values.{bound};
ghost use Rattle.std.specs.Prelude.{◌≡◌, ◌∷◌, [], IfOk, map};
ghost use Rattle.vet_tables.specs.Cells.{value_of};

use crate::column::{BlobColumn, TextColumn};
use crate::same_items::Exactly;
use sqlite::types::ValueRef;
use std::alloc::{AllocError, Global};

/// What a row holds in a column: a number, a text, or bytes. No column of these tables takes NULL.
#[derive(Drop, PartialOrd, Ord)]
pub enum Cell {
    Int(i64),
    Text(TextColumn),
    Blob(BlobColumn),
}

impl Cell {
    /// A cell of a copy of this text. Fails only if memory runs out.
    pub fn text(alloc: Global, text: &str) -> Result<Cell, AllocError>
        ensures { IfOk result (λ cell. cell ≡ Cell.Text text.now) }
    {
        Ok(Cell::Text(TextColumn::of(alloc, text)?))
    }

    /// The cell, as a statement takes it. Takes no memory.
    pub fn lend(&self) -> ValueRef<'_>
        ensures { bound (result ∷ []) ≡ value_of self.now ∷ [] }
    {
        match self {
            Cell::Int(number) => ValueRef::Int(*number),
            Cell::Text(text) => ValueRef::Text(text.as_str().as_bytes()),
            Cell::Blob(bytes) => ValueRef::Blob(bytes.as_slice()),
        }
    }
}

/// Cells, as a statement takes them. Fails only if memory runs out.
pub fn lend_all<'a>(alloc: Global, cells: &'a [Cell]) -> Result<Vec<ValueRef<'a>>, AllocError>
    ensures { IfOk result (λ values. bound values.items ≡ map value_of cells.now) }
{
    let mut values = Vec::with_capacity(alloc, cells.len())?;
    'cells: for cell in cells {
        values.push(cell.lend())?;
    }
    Ok(values)
}

impl PartialEq for Cell {
    ghost use Rattle.std.specs.Cmp.{decided, partial_equiv_from_equiv};
    ghost use Rattle.vet_tables.specs.CellLaws.{cell_eq-Decides};
    ghost use Rattle.vet_tables.specs.Cells.{cell_eq};

    ghost eq = { cell_eq };

    ghost laws = { partial_equiv_from_equiv (decided cell_eq cell_eq-Decides) };

    fn eq(&self, other: &Cell) -> bool {
        match (self, other) {
            (Cell::Int(a), Cell::Int(b)) => a == b,
            (Cell::Text(a), Cell::Text(b)) => a == b,
            (Cell::Blob(a), Cell::Blob(b)) => a == b,
            _ => false,
        }
    }
}

impl Eq for Cell {
    ghost use Rattle.std.specs.Cmp.{decided};
    ghost use Rattle.vet_tables.specs.CellLaws.{cell_eq-Decides};
    ghost use Rattle.vet_tables.specs.Cells.{cell_eq};

    ghost laws = { decided cell_eq cell_eq-Decides };
}

impl Exactly for Cell {
    ghost use Rattle.vet_tables.specs.CellLaws.{cell_eq-Decides};

    ghost only_itself = { cell_eq-Decides };
}
