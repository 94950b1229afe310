//! The form of a table, with its statements.

use sqlite_schema::schema::Kind;
use std::marker::Model;

/// The form of a table: its name, its columns with their types, and how many of them, from the first on, are its key.
/// No column takes NULL. A key of one integer is the rowid. The statements mean what the form says.
#[derive(Drop)]
pub struct Form {
    pub(crate) name: &'static str,
    pub(crate) columns: &'static [(&'static str, Kind)],
    pub(crate) key: usize,
    pub(crate) key_index: &'static str,
    pub(crate) create: &'static str,
    pub(crate) insert: &'static str,
    pub(crate) delete: &'static str,
    pub(crate) clear: &'static str,
    pub(crate) select: &'static str,
}

impl Model for Form {
    ghost use Rattle.std.specs.Prelude.{map};
    ghost use Rattle.vet_tables.specs.Form.{TableForm};
    ghost use Rattle.vet_tables.specs.Texts.{HasTexts};

    ghost Value = { TableForm };

    ghost view = { λ f. record {
      name = f.name.now;
      columns = map (λ c. (c.0.now, c.1)) f.columns.now;
      key = f.key;
    } };

    ghost invariant = { λ f. HasTexts
        record { name = f.name.now; columns = map (λ c. (c.0.now, c.1)) f.columns.now; key = f.key }
        f.key_index.now f.create.now f.insert.now f.delete.now f.clear.now f.select.now };
}

impl Form {
    ghost use Rattle.std.specs.Prelude.{◌≡◌, map};
    ghost use Rattle.vet_tables.specs.Form.{rowid_of};
    ghost use Rattle.vet_tables.specs.Form.{key_index};
    ghost use Rattle.vet_tables.specs.Texts.{clear_text, create_text, delete_text, insert_text, select_text};

    /// The name of the table.
    pub fn name(&self) -> &'static str
        ensures { result.now ≡ self.now.name }
    {
        self.name
    }

    /// The names and the types of the columns.
    pub fn columns(&self) -> &'static [(&'static str, Kind)]
        ensures { map (λ c. (c.0.now, c.1)) result.now ≡ self.now.columns }
    {
        self.columns
    }

    /// How many columns, from the first on, are the key.
    pub fn key(&self) -> usize
        ensures { result ≡ self.now.key }
    {
        self.key
    }

    /// The column that is the rowid.
    pub fn rowid(&self) -> Option<usize>
        ensures { result ≡ rowid_of self.now }
    {
        match (self.key, self.columns) {
            (1, [(_, Kind::Integer), ..]) => Some(0),
            _ => None,
        }
    }

    /// The name of the index that SQLite makes for the key.
    pub fn key_index(&self) -> &'static str
        ensures { result.now ≡ key_index self.now }
    {
        self.key_index
    }

    /// The statement that makes the table.
    pub fn create(&self) -> &'static str
        ensures { result.now ≡ create_text self.now }
    {
        self.create
    }

    /// The statement that adds a row of some cells.
    pub fn insert(&self) -> &'static str
        ensures { result.now ≡ insert_text self.now }
    {
        self.insert
    }

    /// The statement that removes the row of a key.
    pub fn delete(&self) -> &'static str
        ensures { result.now ≡ delete_text self.now }
    {
        self.delete
    }

    /// The statement that removes all rows.
    pub fn clear(&self) -> &'static str
        ensures { result.now ≡ clear_text self.now }
    {
        self.clear
    }

    /// The statement that reads the rowid and the cells of each row, by the rowid.
    pub fn select(&self) -> &'static str
        ensures { result.now ≡ select_text self.now }
    {
        self.select
    }
}
