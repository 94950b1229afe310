//! Tables of criteria, and peers, can be held.
ghost use Rattle.std.specs.List.{All};
ghost use Rattle.vet_item_rows.specs.ReadFacts.{IsMapped, IsPeerSettings};
ghost use Rattle.vet_item_rows.specs.ReadHeld.{AreCriteria, IsPeerValue};
ghost use Rattle.vet_item_rows.specs.Values.{IsCriterion, MayBe};
ghost use Rattle.vet_register.specs.HeldFiles.{further_at};

use crate::held_register::can_be_held::{CanBeHeld, are_held};
use vet_base::criteria_table::CriteriaTable;
use vet_base::definitions::Definitions;
use vet_base::name::Name;
use vet_entries::criteria_map::MappedCriterion;
use vet_entries::held_peer::HeldPeer;
use vet_entries::peer_settings::PeerSettings;
use vet_register::held_files::further_at;

impl CanBeHeld for MappedCriterion {
    ghost can_be_held = { λ m. IsMapped (m.name, m.criteria) };

    fn is_held(&self) {
        self.name.is_held();
        self.criteria.is_held();
    }
}

impl CanBeHeld for PeerSettings {
    ghost can_be_held = { IsPeerSettings };

    fn is_held(&self) {
        self.name.is_held();
        self.url.is_held();
        self.exclude.is_held();
        are_held(self.map.items());
    }
}

impl CanBeHeld for HeldPeer {
    ghost can_be_held = { IsPeerValue };

    fn is_held(&self) {
        self.settings.is_held();
        self.content.definitions().is_held();
        are_held(self.content.entries());
    }
}

impl CanBeHeld for Definitions {
    ghost can_be_held = { AreCriteria };

    fn is_held(&self) {
        are_held(self.criteria());
    }
}

/// The criteria of a table that aren't built in can be held. Only looks up each.
pub(crate) fn table_is_held(table: &CriteriaTable)
    ensures { AreCriteria table.now }
{
    named_are_held(table, table.names());
}

// The criteria of some names.
fn named_are_held(table: &CriteriaTable, names: &[Name])
    ensures { All (λ n. MayBe IsCriterion (further_at table.now n)) names.now }
{
    'names: for name in names {
        named_is_held(table, name);
    }
}

// The criterion of a name, if there is one.
fn named_is_held(table: &CriteriaTable, name: &Name)
    ensures { MayBe IsCriterion (further_at table.now name.now) }
{
    if let Some(criterion) = further_at(table, name) {
        criterion.is_held();
    }
}
