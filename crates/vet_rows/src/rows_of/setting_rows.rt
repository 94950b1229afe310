//! The rows of criteria, peers and policies.
ghost use Rattle.std.specs.Prelude.{◌≡◌, ◌++◌, IfOk, OnOk, map, ⊤};
ghost use Rattle.std.specs.List.{filter_map};
ghost use Rattle.vet_item_rows.specs.Columns.{own_peer};
ghost use Rattle.vet_item_rows.specs.SettingRows.{all_criteria, criteria_rows, criterion_row, peer_row, policy_row};
ghost use Rattle.vet_register.specs.HeldFiles.{further_at};

use crate::rows_of::to_row::ToRow;
use std::alloc::{AllocError, Global};
use vet_base::criteria_table::CriteriaTable;
use vet_base::name::Name;
use vet_demand::policies::KeyedPolicy;
use vet_entries::facts::EntryFacts;
use vet_entries::held_peer::HeldPeer;
use vet_entries::peer_settings::PeerSettings;
use vet_item_rows::rows_of::columns::{
    flag, key_column, names_or_none, packages_column, text_or_none, texts_column,
};
use vet_item_rows::rows_of::maps::map_column;
use vet_item_rows::rows_of::setting_rows::{criterion_row, push_criteria};
use vet_register::held_files::further_at;
use vet_tables::cell::Cell;
use vet_tables::sequence::{Row, Sequence};

/// The rows of all criteria that aren't built in: one's own, then those of each peer. Fails only if memory runs out.
pub fn all_criteria(alloc: Global, facts: &EntryFacts) -> Result<Vec<Row>, AllocError>
    ensures { IfOk result (λ rows. rows.items ≡ all_criteria facts.now.content) }
{
    let mut rows = own_criteria(alloc, facts.criteria())?;
    'peers: for peer in facts.peers() {
        let name = peer.settings.name.as_str();
        push_criteria(
            alloc,
            &mut rows,
            name,
            peer.content.definitions().criteria(),
        )?;
    }
    Ok(rows)
}

/// The rows of one's own criteria that aren't built in. Fails only if memory runs out.
pub(crate) fn own_criteria(alloc: Global, table: &CriteriaTable) -> Result<Vec<Row>, AllocError>
    ensures { IfOk result (λ rows. rows.items ≡ criteria_rows own_peer table.now) }
{
    let mut rows = Vec::new(alloc);
    push_own_criteria(alloc, &mut rows, table, table.names())?;
    Ok(rows)
}

// Adds the rows of one's own criteria of these names that aren't built in, after those of others.
fn push_own_criteria(
    alloc: Global,
    rows: &mut Vec<Row>,
    table: &CriteriaTable,
    names: &[Name],
) -> Result<(), AllocError>
    ensures { OnOk result (rows.new.items
        ≡ rows.old.items ++ map (criterion_row own_peer) (filter_map (further_at table.now) names.now)) }
{
    'names: for name in names {
        if let Some(criterion) = further_at(table, name) {
            rows.push(criterion_row(alloc, "", criterion)?)?;
        }
    }
    Ok(())
}

impl ToRow for PeerSettings {
    ghost row_of = { peer_row };

    ghost fits = { λ _. ⊤ };

    fn to_row(&self, alloc: Global) -> Result<Row, AllocError> {
        let cells = vec![in alloc;
            Cell::text(alloc, self.name.as_str())?,
            Cell::Blob(texts_column(alloc, &self.url)?),
            Cell::Blob(packages_column(alloc, &self.exclude)?),
            Cell::Blob(map_column(alloc, self.map.items())?),
        ]?;
        Ok(Sequence::of(cells))
    }
}

impl ToRow for HeldPeer {
    ghost row_of = { λ peer. peer_row peer.settings };

    ghost fits = { λ _. ⊤ };

    fn to_row(&self, alloc: Global) -> Result<Row, AllocError> {
        self.settings.to_row(alloc)
    }
}

impl ToRow for KeyedPolicy {
    ghost row_of = { policy_row };

    ghost fits = { λ _. ⊤ };

    fn to_row(&self, alloc: Global) -> Result<Row, AllocError> {
        let policy = &self.policy;
        let cells = vec![in alloc;
            Cell::Text(key_column(alloc, &self.key)?),
            Cell::Int(flag(policy.audit_as_crates_io)),
            Cell::Blob(names_or_none(alloc, &policy.criteria)?),
            Cell::Blob(names_or_none(alloc, &policy.dev_criteria)?),
            Cell::Blob(map_column(alloc, policy.dependency_criteria.items())?),
            Cell::Blob(text_or_none(alloc, &policy.notes)?),
        ]?;
        Ok(Sequence::of(cells))
    }
}
