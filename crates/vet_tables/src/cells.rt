//! The cells of a row that was read.
ghost use Rattle.std.specs.Prelude.{◌≡◌, ◌∷◌, [], false, pos, IfOk, IsTrue};
ghost use Rattle.sqlite_value.specs.Value.{owned};
ghost use Rattle.sqlite_schema.specs.declared.schema.Kind.TheVariants as kind;
ghost use Rattle.sqlite_value.specs.Order.{column};
ghost use Rattle.sqlite_value.specs.declared.value.Value.TheVariants.{Blob, Int, Text};
ghost use Rattle.vet_tables.specs.Cells.{value_of, values_of};
ghost use Rattle.vet_tables.specs.Typed.{AreTyped, IsKind, kinds_of};

use crate::cell::Cell;
use crate::column::{BlobColumn, TextColumn};
use crate::form::Form;
use crate::sequence::{Row as TableRow, Sequence};
use sqlite::Row;
use sqlite::types::ValueRef;
use sqlite_schema::schema::Kind;
use std::alloc::{AllocError, Global};

fn is_of(kind: Kind, value: ValueRef<'_>) -> bool
    ensures of { IsTrue result → IsKind kind (owned value.entry) }
    ensures other { result ≡ false → IsKind kind (owned value.entry) → ⊥ }
{
    match value {
        ValueRef::Int(_) => kind == Kind::Integer,
        ValueRef::Text(text) => kind == Kind::Text && std::str::from_utf8(text).is_ok(),
        ValueRef::Blob(_) => kind == Kind::Blob,
        _ => false,
    }
}

fn is_of_at(row: &Row, at: usize, kind: Kind) -> bool
    ensures of { IsTrue result → IsKind kind (column row.now at) }
    ensures other { result ≡ false → IsKind kind (column row.now at) → ⊥ }
{
    match row.get_ref(at) {
        Ok(value) => is_of(kind, value),
        Err(_) => false,
    }
}

/// Whether the row has its rowid, and then a value of its type for each column.
pub fn are_typed(row: &Row, form: &Form) -> bool
    ensures typed { IsTrue result → AreTyped (kinds_of form.now) row.now }
    ensures other { result ≡ false → AreTyped (kinds_of form.now) row.now → ⊥ }
{
    let columns = form.columns();
    if row.column_count() != columns.len() + 1 || !is_of_at(row, 0, Kind::Integer) {
        return false;
    }
    'cells: for at in 0..columns.len() {
        if !is_of_at(row, at + 1, columns[at].1) {
            return false;
        }
    }
    true
}

/// The number at a place, or 0 if something else is there.
pub fn int_at(row: &Row, at: usize) -> i64
    ensures of { IsKind kind.Integer (column row.now at) → column row.now at ≡ Int result }
    ensures other { (IsKind kind.Integer (column row.now at) → ⊥) → result ≡ pos 0 }
{
    match row.get_ref(at) {
        Ok(ValueRef::Int(number)) => number,
        _ => 0,
    }
}

/// The cells after the rowid. A cell of another type than its column is read as 0 or as empty. Fails only if memory
/// runs out.
pub fn row_cells(alloc: Global, row: &Row, form: &Form) -> Result<TableRow, AllocError>
    ensures { IfOk result (λ cells. AreTyped (kinds_of form.now) row.now
        → row.now ≡ column row.now 0 ∷ values_of cells) }
{
    let columns = form.columns();
    let mut cells = Vec::with_capacity(alloc, columns.len())?;
    'cells: for at in 0..columns.len() {
        cells.push(cell_at(alloc, row, at + 1, columns[at].1)?)?;
    }
    Ok(Sequence::of(cells))
}

// The cell at a place, if it is of this type; otherwise 0 or empty.
fn cell_at(alloc: Global, row: &Row, at: usize, kind: Kind) -> Result<Cell, AllocError>
    ensures { IfOk result (λ cell. IsKind kind (column row.now at) → column row.now at ≡ value_of cell) }
{
    match kind {
        Kind::Text => Ok(Cell::Text(text_at(alloc, row, at)?)),
        Kind::Blob => Ok(Cell::Blob(blob_at(alloc, row, at)?)),
        _ => Ok(Cell::Int(int_at(row, at))),
    }
}

// The text at a place, or an empty one if something else is there.
fn text_at(alloc: Global, row: &Row, at: usize) -> Result<TextColumn, AllocError>
    ensures of { IfOk result (λ text. IsKind kind.Text (column row.now at) → column row.now at ≡ Text text) }
    ensures other { IfOk result (λ text. (IsKind kind.Text (column row.now at) → ⊥) → text ≡ []) }
{
    match row.get_ref(at) {
        Ok(ValueRef::Text(bytes)) => match std::str::from_utf8(bytes) {
            Ok(text) => TextColumn::of(alloc, text),
            Err(_) => TextColumn::of(alloc, ""),
        },
        _ => TextColumn::of(alloc, ""),
    }
}

// The bytes at a place, or none if something else is there.
fn blob_at(alloc: Global, row: &Row, at: usize) -> Result<BlobColumn, AllocError>
    ensures of { IfOk result (λ blob. IsKind kind.Blob (column row.now at) → column row.now at ≡ Blob blob) }
    ensures other { IfOk result (λ blob. (IsKind kind.Blob (column row.now at) → ⊥) → blob ≡ []) }
{
    match row.get_ref(at) {
        Ok(ValueRef::Blob(bytes)) => Ok(BlobColumn::of(Vec::from_slice(alloc, bytes)?)),
        _ => Ok(BlobColumn::of(Vec::new(alloc))),
    }
}
