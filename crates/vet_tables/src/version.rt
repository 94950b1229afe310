//! The versions of a register's tables.
ghost use Rattle.std.specs.Prelude.{◌≡◌, ◌≤◌, Some};
ghost use Rattle.vet_tables.specs.Versions.{table_count, version_number};
ghost use Rattle.vet_tables.specs.declared.version.TablesVersion.{TablesVersion as VersionValue};

use crate::table_name::{FIRST_TABLE_COUNT, TABLE_COUNT};

/// A version of a register's tables.
#[derive(Clone, Copy)]
pub enum TablesVersion {
    /// All tables except `today` and `lasts`.
    First,
    /// All tables.
    Second,
}

impl TablesVersion {
    /// How many tables the version has: the first 12 or all 14. Takes no memory.
    pub fn table_count(self) -> usize
        ensures count { result ≡ table_count self }
        ensures few { result ≤ TABLE_COUNT }
    {
        match self {
            TablesVersion::First => FIRST_TABLE_COUNT,
            TablesVersion::Second => TABLE_COUNT,
        }
    }

    /// The number of the version in the row of `meta`: 1 or 2. Takes no memory.
    pub fn number(self) -> i64
        ensures { result ≡ version_number self }
    {
        match self {
            TablesVersion::First => 1,
            TablesVersion::Second => 2,
        }
    }

    /// The version with a number: 1 or 2, and `None` for any other. Takes no memory.
    pub fn of_number(number: i64) -> Option<TablesVersion>
        ensures { (version : VersionValue) → number ≡ version_number version → result ≡ Some version }
    {
        match number {
            1 => Some(TablesVersion::First),
            2 => Some(TablesVersion::Second),
            _ => None,
        }
    }
}
