//! The rows of policies and projects, in each of their tables.
ghost use Rattle.std.specs.Prelude.{◌≡◌, IfOk};
ghost use Rattle.vet_rows.specs.DemandRows.{rows_of_demand};

use crate::rows_of::to_row::rows_each;
use std::alloc::{AllocError, Global};
use vet_graph::keeper::Keeper;
use vet_item_rows::rows_of::project_rows::{all_edges, all_nodes};
use vet_register::register::Register;
use vet_tables::sequence::Row;
use vet_tables::table_name::DemandTable;

/// The rows of a table of policies or projects. Fails only if memory runs out.
pub(crate) fn rows_of_demand<K: Keeper>(
    alloc: Global,
    register: &Register<K>,
    table: DemandTable,
) -> Result<Vec<Row>, AllocError>
    ensures { IfOk result (λ rows. rows.items ≡ rows_of_demand register.now.state.held table) }
{
    match table {
        DemandTable::Policies => rows_each(alloc, register.policies()),
        DemandTable::Nodes => all_nodes(alloc, register.projects()),
        DemandTable::Edges => all_edges(alloc, register.projects()),
    }
}
