//! The report of counts.
ghost use Rattle.std.specs.Prelude.{◌≡◌, ◌++◌, IfErr, IfOk, OnOk, string_bytes};
ghost use Rattle.std.specs.Fmt.{decimal};
ghost use Rattle.vet_graph.specs.Standing.{total_of};
ghost use Rattle.vet_reports.specs.ByExample as example;
ghost use Rattle.vet_reports.specs.Columns.{right_in};
ghost use Rattle.vet_reports.specs.CountsText.{class_row, counts_table, counts_text, header_row, sums_row};
ghost use Rattle.vet_reports.specs.CountsText.{table_text};

use crate::columns::{push_left, push_number, push_right};
use std::alloc::{AllocError, Global};
use vet_base::refusal::Refusal;
use vet_graph::class::Class;
use vet_graph::keeper::Keeper;
use vet_graph::standing::Counts;
use vet_register::register::Register;

/// Counts for each class: pairs that were in it when the period began, recorded moves that arrived at it, recorded
/// moves that departed from it, and pairs that are in it now.
#[derive(Clone, Copy)]
pub struct CountsTable {
    pub first: Counts,
    pub arrived: Counts,
    pub departed: Counts,
    pub present: Counts,
}

/// The report of counts: a header, a line for each class in their order, and a line of sums. Names are aligned left in
/// 12 characters, numbers right in 10. Looks at no recorded move. Refused: `NoMemory`.
pub fn counts_text<K: Keeper>(alloc: Global, register: &Register<K>) -> Result<String, Refusal>
    ensures text { IfOk result (λ text. string_bytes text ≡ counts_text register.now.state) }
    ensures memory { IfErr result (λ e. e ≡ Refusal.NoMemory) }
{
    let table = counts_table(register);
    let mut text = String::new(alloc);
    push_table(&mut text, &table)?;
    Ok(text)
}

// The counts of a register.
fn counts_table<K: Keeper>(register: &Register<K>) -> CountsTable
    ensures { result ≡ counts_table register.now.state }
{
    CountsTable {
        first: register.first_counts(),
        arrived: register.arrivals(),
        departed: register.departures(),
        present: register.counts(),
    }
}

// Adds the header, the classes and the sums.
fn push_table(text: &mut String, table: &CountsTable) -> Result<(), AllocError>
    ensures { OnOk result (string_bytes text.new ≡ string_bytes text.old ++ table_text table.now) }
{
    push_header(text)?;
    push_class(text, Class::Conflicting, table)?;
    push_class(text, Class::Full, table)?;
    push_class(text, Class::Partial, table)?;
    push_class(text, Class::Exempted, table)?;
    push_class(text, Class::Unvetted, table)?;
    push_sums(text, table)
}

fn push_header(text: &mut String) -> Result<(), AllocError>
    ensures { OnOk result (string_bytes text.new ≡ string_bytes text.old ++ header_row) }
{
    push_left(text, 12, "class")?;
    push_right(text, 10, "first")?;
    push_right(text, 10, "arrived")?;
    push_right(text, 10, "departed")?;
    push_right(text, 10, "now")?;
    text.push('\n')
}

// Adds the line of a class.
fn push_class(text: &mut String, class: Class, table: &CountsTable) -> Result<(), AllocError>
    ensures { OnOk result (string_bytes text.new ≡ string_bytes text.old ++ class_row class table.now) }
{
    push_left(text, 12, class.word())?;
    push_number(text, 10, table.first.of(class))?;
    push_number(text, 10, table.arrived.of(class))?;
    push_number(text, 10, table.departed.of(class))?;
    push_number(text, 10, table.present.of(class))?;
    text.push('\n')
}

// Adds the line of all classes together.
fn push_sums(text: &mut String, table: &CountsTable) -> Result<(), AllocError>
    ensures { OnOk result (string_bytes text.new ≡ string_bytes text.old ++ sums_row table.now) }
{
    push_left(text, 12, "demand")?;
    push_sum(text, total(table.first))?;
    push_sum(text, total(table.arrived))?;
    push_sum(text, total(table.departed))?;
    push_sum(text, total(table.present))?;
    text.push('\n')
}

// The sum of all five counts.
fn total(counts: Counts) -> u128
    ensures { result ≡ total_of counts }
{
    u128::from(counts.conflicting)
        + u128::from(counts.full)
        + u128::from(counts.partial)
        + u128::from(counts.exempted)
        + u128::from(counts.unvetted)
}

// Adds a sum, aligned right in 10 characters.
fn push_sum(text: &mut String, sum: u128) -> Result<(), AllocError>
    ensures { OnOk result (string_bytes text.new ≡ string_bytes text.old ++ right_in 10 (decimal sum)) }
{
    write!(text, "{sum:>10}")
}

/// A report of counts by example. Does nothing.
pub fn counts_by_example()
    ensures { table_text example.counts ≡ example.counts_report }
{}
