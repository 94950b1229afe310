//! Which tables of a register a database has, and whether the names of the missing ones are taken.
ghost use Rattle.std.specs.Bool.{Decides};
ghost use Rattle.std.specs.Prelude.{◌≡◌, ◌<◌, ◌≤◌, false, IfSome, IsTrue, None};
ghost use Rattle.std.specs.List.{list_all};
ghost use Rattle.vet_tables.specs.Has.{HasTable, HasTables, is_apart, refers_not, spares};
ghost use Rattle.vet_tables.specs.Forms.{code, form_of};
ghost use Rattle.vet_tables.specs.Free.{AreFreeFrom, IsFree};
ghost use Rattle.vet_tables.specs.Versions.{HasSomeVersion, HasVersion};
ghost use Rattle.vet_tables.specs.declared.table_name.TableName.{TableName as Name};
ghost use Rattle.vet_tables.specs.declared.version.TablesVersion.TheVariants as versions;

use crate::form::Form;
use crate::has_form::has_form;
use crate::table_name::{FIRST_TABLE_COUNT, TABLE_COUNT, table_at};
use crate::version::TablesVersion;
use sqlite_catalog::layout::is_used;
use sqlite_schema::names::same_name;
use sqlite_schema::schema::{Index, Schema, Table};

/// Whether a table, an index or a view has the name of one of the tables from a given place on, or a foreign key refers
/// to such a name. Places are 0 to 13, and the case of ASCII letters doesn't matter. Takes no memory.
pub fn has_name_taken(schema: &Schema, first: usize) -> bool
    ensures free { result ≡ false → AreFreeFrom first schema.now }
    ensures taken { IsTrue result → AreFreeFrom first schema.now → ⊥ }
{
    'tables: for at in first..TABLE_COUNT {
        if !is_free(schema, table_at(at).form().name()) {
            return true;
        }
    }
    false
}

/// Whether each of the tables exists under its name, whatever else the database has. Each is of its form and has a tree
/// of its own. No index but that of its key touches it, and no foreign key.
pub fn has_tables(schema: &Schema) -> bool
    ensures { Decides result (HasTables schema.now) }
{
    has_first_tables(schema, TABLE_COUNT)
}

/// The version of the tables, whatever else the database has: each table of that version exists as `has_tables` says,
/// and the names of the other tables are free. `None` if this holds for no version. Takes no memory.
pub fn version_of(schema: &Schema) -> Option<TablesVersion>
    ensures found { IfSome result (λ version. HasVersion version schema.now) }
    ensures none { result ≡ None → HasSomeVersion schema.now → ⊥ }
{
    if has_tables(schema) {
        return Some(TablesVersion::Second);
    }
    if has_first_version(schema) {
        return Some(TablesVersion::First);
    }
    None
}

// Whether the tables are those of the first version.
fn has_first_version(schema: &Schema) -> bool
    ensures first { IsTrue result → HasVersion versions.First schema.now }
    ensures other { result ≡ false → HasVersion versions.First schema.now → ⊥ }
{
    has_first_tables(schema, FIRST_TABLE_COUNT) && !has_name_taken(schema, FIRST_TABLE_COUNT)
}

// Whether each of the first `count` tables exists.
fn has_first_tables(schema: &Schema, count: usize) -> bool
    requires { count ≤ TABLE_COUNT }
    ensures { Decides result ((name : Name) → code name < count → HasTable schema.now (form_of name)) }
{
    'tables: for at in 0..count {
        if !has_table(schema, &table_at(at).form()) {
            return false;
        }
    }
    true
}

fn is_free(schema: &Schema, name: &str) -> bool
    ensures free { IsTrue result → IsFree schema.now name.now }
    ensures taken { result ≡ false → IsFree schema.now name.now → ⊥ }
{
    let name = name.as_bytes();
    !is_used(schema, name) && is_unreferred(schema, name)
}

fn is_unreferred(schema: &Schema, name: &[u8]) -> bool
    ensures { result ≡ list_all (refers_not name.now) schema.now.tables }
{
    schema
        .tables
        .as_slice()
        .iter()
        .all(|table| spares_name(table, name))
}

fn spares_name(table: &Table, name: &[u8]) -> bool
    ensures { result ≡ refers_not name.now table.now }
{
    table
        .references
        .as_slice()
        .iter()
        .all(|reference| !same_name(name, reference.parent.as_slice()))
}

fn has_table(schema: &Schema, form: &Form) -> bool
    ensures { Decides result (HasTable schema.now form.now) }
{
    let name = form.name().as_bytes();
    let Some(at) = schema.table_named(name) else {
        return false;
    };
    let Some(table) = schema.tables.get(at) else {
        return false;
    };
    has_form(table, form)
        && is_alone(schema, form, table.tree)
        && is_unindexed(schema, form, table.tree)
        && is_unreferred(schema, name)
}

// Whether no other table has this tree.
fn is_alone(schema: &Schema, form: &Form, tree: u32) -> bool
    ensures { result ≡ list_all (is_apart form.now tree) schema.now.tables }
{
    schema
        .tables
        .as_slice()
        .iter()
        .all(|table| is_apart(table, form, tree))
}

fn is_apart(table: &Table, form: &Form, tree: u32) -> bool
    ensures { result ≡ is_apart form.now tree table.now }
{
    table.tree != tree || table.name.as_slice() == form.name().as_bytes()
}

// Whether no index but that of its key is on this tree.
fn is_unindexed(schema: &Schema, form: &Form, tree: u32) -> bool
    ensures { result ≡ list_all (spares form.now tree) schema.now.indexes }
{
    schema
        .indexes
        .as_slice()
        .iter()
        .all(|index| spares(index, form, tree))
}

fn spares(index: &Index, form: &Form, tree: u32) -> bool
    ensures { result ≡ spares form.now tree index.now }
{
    index.table != tree || index.name.as_slice() == form.key_index().as_bytes()
}
