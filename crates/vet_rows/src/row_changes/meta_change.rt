//! The row of `meta` that a change puts in place of the old one.
ghost use Rattle.std.specs.Option.{option_copied};
ghost use Rattle.std.specs.Prelude.{◌≡◌, ◌<◌, ◌^◌, IfOk};
ghost use Rattle.vet_register.specs.Changes.{changed, desk_edited, first_by};
ghost use Rattle.vet_register.specs.Held.{edited};
ghost use Rattle.vet_rows.specs.ChangedRows.{meta_exchange};
ghost use Rattle.vet_rows.specs.Numbers.{CountsFit, NumbersFit};
ghost use Rattle.vet_rows.specs.RowsOf.{meta_row};

use crate::meta::MetaNumbers;
use crate::row_changes::exchange::Exchange;
use crate::rows_of::meta_rows::row_of_meta;
use std::alloc::{AllocError, Global};
use vet_desk::change::DeskChange;
use vet_desk::desk::Desk;
use vet_graph::keeper::Keeper;
use vet_graph::standing::Counts;
use vet_register::change::{Change, DeskEdit};
use vet_register::held::HeldEdit;
use vet_register::moves::Recording;
use vet_register::register::Register;
use vet_register::tool_settings::ToolSettings;
use vet_tables::sequence::Row;
use vet_tables::table_name::TableName;
use vet_tables::version::TablesVersion;

/// The row of `meta` that a change adds. Asks that its numbers are below 2^63. Fails only if memory runs out.
pub fn meta_exchange<K: Keeper>(
    alloc: Global,
    register: &Register<K>,
    change: &Change<K>,
) -> Result<Exchange, AllocError>
    requires numbers { NumbersFit (changed change.now register.now.state) }
    requires counts { CountsFit (changed change.now register.now.state).first }
    ensures { IfOk result (λ e. e ≡ meta_exchange register.now.state change.now) }
{
    let added = vec![in alloc; meta_row_after(alloc, register, change)?]?;
    Ok(Exchange::of(TableName::Meta, Vec::new(alloc), added))
}

// The row of `meta` after a change. Asks that its numbers are below 2^63.
fn meta_row_after<K: Keeper>(
    alloc: Global,
    register: &Register<K>,
    change: &Change<K>,
) -> Result<Row, AllocError>
    requires numbers { NumbersFit (changed change.now register.now.state) }
    requires counts { CountsFit (changed change.now register.now.state).first }
    ensures { IfOk result (λ row. row ≡ meta_row (changed change.now register.now.state)) }
{
    let numbers = MetaNumbers {
        step: change.step(),
        next_entry: change.next_entry(),
        next_review: next_review_after(register.desk(), change.desk()),
        moves_limit: register.moves_limit(),
    };
    let first = first_after(register, change.recording());
    row_of_meta(
        alloc,
        TablesVersion::Second,
        numbers,
        first,
        settings_after(register, change.edit()),
    )
}

// The counts at the beginning of the period, after what is recorded.
fn first_after<K: Keeper>(register: &Register<K>, recording: &Recording) -> Counts
    ensures { result ≡ first_by recording.now register.now.state.first }
{
    match recording {
        Recording::Behind(_) => register.first_counts(),
        Recording::Anew(counts) => *counts,
    }
}

// What a config file says only to the tool, after an edit.
fn settings_after<'a, K: Keeper>(register: &'a Register<K>, edit: &'a HeldEdit) -> &'a ToolSettings
    ensures { result.now ≡ (edited edit.now register.now.state.held).settings }
{
    match edit {
        HeldEdit::Files(files) => &files.settings,
        _ => register.settings(),
    }
}

// The number of the next review after an edit of the desk, if there is one.
fn next_review_after(desk: &Desk, edit: Option<&DeskEdit>) -> u64
    requires { (desk_edited (option_copied edit) desk.now.content).next_review < 2 ^ 63 }
    ensures { result ≡ (desk_edited (option_copied edit.entry) desk.now.content).next_review }
{
    match edit {
        Some(edit) => match &edit.change {
            DeskChange::Open(_) => desk.next_review() + 1,
            _ => desk.next_review(),
        },
        None => desk.next_review(),
    }
}
