//! Tables of criteria that are compared.
ghost use Rattle.std.specs.Prelude.{◌≡◌, ◌↔◌, IsTrue};
ghost use Rattle.std.specs.FinMap as map;
ghost use Rattle.vet_masks.specs.Tables.{AreWithin};

use vet_base::criteria_table::CriteriaTable;
use vet_base::name::Name;

// Whether two tables are the same, descriptions too.
pub(crate) fn is_same_table(table: &CriteriaTable, other: &CriteriaTable) -> bool
    ensures { IsTrue result ↔ (table.now ≡ other.now) }
{
    are_within(table, other) && are_within(other, table)
}

// Whether a table has each criterion of another, the same.
fn are_within(table: &CriteriaTable, other: &CriteriaTable) -> bool
    ensures { IsTrue result ↔ AreWithin table.now other.now }
{
    let names = table.names();
    'names: for place in 0..names.len() {
        if !is_same_at(table, other, &names[place]) {
            return false;
        }
    }
    true
}

// Whether two tables have the same criterion of a name, or both none.
fn is_same_at(table: &CriteriaTable, other: &CriteriaTable, name: &Name) -> bool
    ensures { IsTrue result ↔ (map.get table.now name.now ≡ map.get other.now name.now) }
{
    let Some(criterion) = table.get(name) else {
        return !other.has(name);
    };
    match other.get(name) {
        Some(held) => *criterion == *held,
        None => false,
    }
}
