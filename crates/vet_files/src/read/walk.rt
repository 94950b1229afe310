//! Walks over the keys of a table and over the items of a list.
//!
//! **A walk returns what the definition gives for the table: the values found at each key in turn, or the first
//! fault.**
//!
//! `toml` reads the bytes of a file as a table, or refuses them. Nothing is checked before all of them are TOML. Then
//! one walk goes over the table, and finds values of the lower crates. Anything that is not such a value ends the walk
//! with its refusal, so the fault returned is the first one in the order of the walk.
//!
//! The walk consists of two calls, one over the keys of a table (`each_member`) and one over the items of a list
//! (`each_item`). Each takes a reader, which reads the value at a key and continues from what was found before. So each
//! table of the files has one small reader. It asks for its keys in their order by `required` and `optional`, and the
//! type of each key is the type of the value asked for (`Field`). The walk is proved once for all readers, since the
//! result of a reader is a ghost member of its trait.
//!
//! The keys come in the order of their bytes, each once. The loop keeps one equation: the result for all keys is the
//! result for the remaining ones, continued from what was found. At the end no key remains, and the equation is the
//! contract.
//!
//! A peer's audits are read by the same readers as one's own. They differ in their author (`Whose`) and in the path
//! that a fault names. Besides what it found, a reader carries the counts of what it ignored (`Found`, `Notices`).
//!
//! Values that form a set are gathered in the order of the file and sorted once. So no order of a file makes the time
//! to read it quadratic in its length.
ghost use Rattle.std.specs.Prelude.{◌≡◌, ℕ, List};
ghost use Rattle.toml.specs.Data.{Data};
ghost use Rattle.toml.specs.View.{array_view, table_view, view};
ghost use Rattle.vet_base.specs.Gives.{Gives, Told};
ghost use Rattle.vet_files.specs.Walk.{KeysRise, each_item, each_member};

use std::alloc::Global;
use toml::value::Array;
use toml::{Table, Value};
use vet_base::refusal::Refusal;

/// Reads the value at one key of a table.
pub trait ReadMember {
    /// The values found so far.
    type Found: Drop;

    /// The values found after this key, or its fault.
    ghost told: { Self → Self.Found → List ℕ → Data → Told Self.Found };

    /// Continues from the values found so far.
    fn read(
        &self,
        alloc: Global,
        found: Self::Found,
        key: &str,
        value: &Value,
    ) -> Result<Self::Found, Refusal>
        ensures { Gives (λ found. found) (told self.now found key.now (view value.now)) result };
}

/// Reads each key of a table, in the order of their bytes, beginning with the values in `start`. No key comes twice.
pub fn each_member<R: ReadMember>(
    alloc: Global,
    reader: &R,
    start: R::Found,
    table: &Table,
) -> Result<R::Found, Refusal>
    ensures told { Gives (λ found. found) (each_member (R.told reader.now) start (table_view table.now)) result }
    ensures rises { KeysRise (table_view table.now) }
{
    let mut found = start;
    'keys: for (key, value) in table.iter() {
        found = reader.read(alloc, found, key.as_str(), value)?;
    }
    Ok(found)
}

/// Reads one item of a list.
pub trait ReadItem {
    /// The values found so far.
    type Found: Drop;

    /// The values found after the item at this place, or its fault.
    ghost told: { Self → Self.Found → ℕ → Data → Told Self.Found };

    /// Continues from the values found so far.
    fn read(
        &self,
        alloc: Global,
        found: Self::Found,
        place: usize,
        value: &Value,
    ) -> Result<Self::Found, Refusal>
        ensures { Gives (λ found. found) (told self.now found place (view value.now)) result };
}

/// Reads each item of a list, in its order, beginning with the values in `start`.
pub fn each_item<R: ReadItem>(
    alloc: Global,
    reader: &R,
    start: R::Found,
    items: &Array,
) -> Result<R::Found, Refusal>
    ensures { Gives (λ found. found) (each_item (R.told reader.now) start 0 (array_view items.now)) result }
{
    let mut found = start;
    'items: for (place, item) in items.iter().enumerate() {
        found = reader.read(alloc, found, place, item)?;
    }
    Ok(found)
}
