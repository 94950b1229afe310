//! The change that replaces the row of `meta`.
ghost use Rattle.std.specs.Prelude.{◌≡◌, ◌∷◌, [], IfOk};
ghost use Rattle.vet_base.specs.Items.{IsIn};
ghost use Rattle.vet_rows.specs.FitChanges.{Fits};
ghost use Rattle.vet_rows.specs.RowsOf.{meta_row};
ghost use Rattle.vet_rows.specs.declared.row_change.RowChange.{RowChange as Change};
ghost use Rattle.vet_rows.specs.declared.row_change.RowChange.TheVariants.{Put};
ghost use Rattle.vet_tables.specs.declared.table_name.TableName.TheVariants as table;

use std::alloc::{AllocError, Global};
use vet_graph::keeper::Keeper;
use vet_register::register::Register;
use vet_rows::row_change::RowChange;
use vet_rows::rows_of::meta_rows::meta_row;
use vet_tables::table_name::TableName;
use vet_tables::version::TablesVersion;

/// The change that puts a register's row of `meta`, in tables of the second version, in place of the one that is there.
/// Fails only if memory runs out.
pub(crate) fn put_meta<K: Keeper>(
    alloc: Global,
    register: &Register<K>,
) -> Result<Vec<RowChange>, AllocError>
    ensures put { IfOk result (λ changes. changes.items ≡ Put table.Meta (meta_row register.now.state) ∷ []) }
    ensures fit { IfOk result (λ changes. (c : Change) → IsIn c changes.items → Fits c) }
{
    let row = meta_row(alloc, TablesVersion::Second, register)?;
    let mut changes = Vec::new(alloc);
    changes.push(RowChange::Put(TableName::Meta, row))?;
    Ok(changes)
}
