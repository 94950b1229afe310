//! Whether a table has the form of one of ours.
ghost use Rattle.std.specs.Bool.{Decides};
ghost use Rattle.std.specs.Prelude.{◌≡◌, [], false, map};
ghost use Rattle.vet_tables.specs.Form.{column_of, first_place, key_places, orders_for, rowid_of, table_of};
ghost use Rattle.vet_tables.specs.Form.{uniques_for};

use crate::form::Form;
use sqlite_items::Items;
use sqlite_schema::code::Terms;
use sqlite_schema::schema::{Column, Kind, Stamps, Table};
use sqlite_value::keys::{Collation, Order};
use sqlite_value::value::Value;

/// Whether the table is the one that SQLite keeps of this form, in whatever tree.
pub(crate) fn has_form(table: &Table, form: &Form) -> bool
    ensures { Decides result (table.now ≡ table_of form.now table.now.tree) }
{
    table.name.as_slice() == form.name().as_bytes()
        && has_columns(table, form)
        && has_key(table, form)
        && has_no_more(table)
}

// Whether it has the columns and no others.
fn has_columns(table: &Table, form: &Form) -> bool
    ensures { Decides result (table.now.columns ≡ map column_of form.now.columns) }
{
    let columns = table.columns.as_slice();
    let wanted = form.columns();
    if columns.len() != wanted.len() {
        return false;
    }
    'places: for at in 0..columns.len() {
        let (name, kind) = wanted[at];
        if !is_column(&columns[at], name, kind) {
            return false;
        }
    }
    true
}

fn is_column(column: &Column, name: &str, kind: Kind) -> bool
    ensures { Decides result (column.now ≡ column_of (name.now, kind)) }
{
    column.name.as_slice() == name.as_bytes()
        && column.kind == kind
        && column.is_strict
        && column.not_null
        && is_null(&column.default)
        && column.collation == Collation::Binary
}

fn is_null(value: &Value) -> bool
    ensures { Decides result (value.now ≡ Value.Null) }
{
    matches!(value, Value::Null)
}

// Whether it has the key, and nothing else is unique.
fn has_key(table: &Table, form: &Form) -> bool
    ensures { Decides result ((table.now.key ≡ rowid_of form.now)
        × (table.now.primary ≡ key_places form.now)
        × (table.now.uniques ≡ uniques_for (rowid_of form.now) (key_places form.now))
        × (table.now.orders ≡ orders_for (rowid_of form.now))) }
{
    let places = table.primary.as_slice();
    table.key == form.rowid()
        && are_key_places(places, form)
        && has_uniques(&table.uniques, form.rowid(), places)
        && has_orders(&table.orders, form.rowid())
}

// Where a row has the first column.
fn first_place(form: &Form) -> usize
    ensures { result ≡ first_place (rowid_of form.now) }
{
    match form.rowid() {
        Some(_) => 0,
        None => 1,
    }
}

// Whether these are the places of the key's columns in a row.
fn are_key_places(places: &[usize], form: &Form) -> bool
    ensures { Decides result (places.now ≡ key_places form.now) }
{
    let first = first_place(form);
    if places.len() != form.key() {
        return false;
    }
    'key: for at in 0..places.len() {
        if places[at] != first + at {
            return false;
        }
    }
    true
}

fn has_uniques(uniques: &Items<Items<usize>>, rowid: Option<usize>, places: &[usize]) -> bool
    ensures { Decides result (uniques.now ≡ uniques_for rowid places.now) }
{
    match (rowid, uniques.as_slice()) {
        (Some(_), []) => true,
        (None, [one]) => one.as_slice() == places,
        _ => false,
    }
}

fn has_orders(orders: &Items<Order>, rowid: Option<usize>) -> bool
    ensures { Decides result (orders.now ≡ orders_for rowid) }
{
    match (rowid, orders.as_slice()) {
        (Some(_), []) => true,
        (None, [one]) => one.digits == 0,
        _ => false,
    }
}

// Whether it has no check, no foreign key, no default that is worked out, and no AUTOINCREMENT.
fn has_no_more(table: &Table) -> bool
    ensures { Decides result ((table.now.checks ≡ []) × (table.now.references ≡ [])
        × (table.now.computed ≡ [])
        × (table.now.stamps ≡ record { places = []; terms = []; formats = [] })
        × (table.now.is_counted ≡ false)) }
{
    has_no_term(&table.checks)
        && table.references.is_empty()
        && table.computed.is_empty()
        && has_no_stamp(&table.stamps)
        && !table.is_counted
}

fn has_no_term(terms: &Terms) -> bool
    ensures { Decides result (terms.now ≡ []) }
{
    terms.roots.is_empty()
}

fn has_no_stamp(stamps: &Stamps) -> bool
    ensures { Decides result (stamps.now ≡ record { places = []; terms = []; formats = [] }) }
{
    stamps.places.is_empty() && has_no_term(&stamps.terms) && stamps.formats.is_empty()
}
