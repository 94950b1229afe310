//! The row of `meta`.
ghost use Rattle.std.specs.Prelude.{◌≡◌, IfOk};
ghost use Rattle.vet_rows.specs.MetaRow.{MetaFits, numbered_row, row_of_meta};
ghost use Rattle.vet_rows.specs.Numbers.{CountsFit, NumbersFit};
ghost use Rattle.vet_rows.specs.ReadState.{meta_in};

use crate::meta::MetaNumbers;
use std::alloc::{AllocError, Global};
use vet_graph::keeper::Keeper;
use vet_graph::standing::Counts;
use vet_item_rows::rows_of::columns::{names_or_none, text_or_none};
use vet_register::register::Register;
use vet_register::tool_settings::ToolSettings;
use vet_tables::cell::Cell;
use vet_tables::sequence::{Row, Sequence};
use vet_tables::version::TablesVersion;

/// The row of `meta` in tables of a version. Fails only if memory runs out.
pub fn meta_row<K: Keeper>(
    alloc: Global,
    version: TablesVersion,
    register: &Register<K>,
) -> Result<Row, AllocError>
    ensures { IfOk result (λ row. row ≡ row_of_meta (meta_in version register.now.state)) }
{
    numbers_fit(register);
    counts_fit(register);
    let numbers = MetaNumbers {
        step: register.step(),
        next_entry: register.next_entry(),
        next_review: register.desk().next_review(),
        moves_limit: register.moves_limit(),
    };
    row_of_meta(
        alloc,
        version,
        numbers,
        register.first_counts(),
        register.settings(),
    )
}

/// The row with this version, these numbers, first counts and settings. Asks that the numbers are below 2^63. Fails
/// only if memory runs out.
pub(crate) fn row_of_meta(
    alloc: Global,
    version: TablesVersion,
    numbers: MetaNumbers,
    first: Counts,
    settings: &ToolSettings,
) -> Result<Row, AllocError>
    requires numbers { MetaFits numbers }
    requires counts { CountsFit first }
    ensures { IfOk result (λ row.
        row ≡ row_of_meta (record { version = version; numbers = numbers; first = first; settings = settings.now })) }
{
    numbered_row(alloc, version.number(), numbers, first, settings)
}

// The row with the number of a version, and the rest.
fn numbered_row(
    alloc: Global,
    version: i64,
    numbers: MetaNumbers,
    first: Counts,
    settings: &ToolSettings,
) -> Result<Row, AllocError>
    requires numbers { MetaFits numbers }
    requires counts { CountsFit first }
    ensures { IfOk result (λ row. row ≡ numbered_row version numbers first settings.now) }
{
    let cells = vec![in alloc;
        Cell::Int(1),
        Cell::Int(version),
        Cell::Int(numbers.step as i64),
        Cell::Int(numbers.next_entry as i64),
        Cell::Int(numbers.next_review as i64),
        Cell::Int(numbers.moves_limit as i64),
        Cell::Int(first.conflicting as i64),
        Cell::Int(first.full as i64),
        Cell::Int(first.partial as i64),
        Cell::Int(first.exempted as i64),
        Cell::Int(first.unvetted as i64),
        Cell::Blob(text_or_none(alloc, &settings.vet_version)?),
        Cell::Blob(names_or_none(alloc, &settings.default_criteria)?),
    ]?;
    Ok(Sequence::of(cells))
}

/// The numbers of a register's state are below 2^63. Does nothing.
pub fn numbers_fit<K: Keeper>(register: &Register<K>)
    ensures { NumbersFit register.now.state }
{
    let _ = register.facts();
}

/// The counts at the beginning of the period are below 2^63: they are within the demanded pairs and the moves since.
/// Does nothing.
pub fn counts_fit<K: Keeper>(register: &Register<K>)
    ensures { CountsFit register.now.state.first }
{
    let _ = register.facts();
    let _ = register.demand();
    let _ = register.moves();
}
