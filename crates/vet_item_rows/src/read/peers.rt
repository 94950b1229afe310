//! Reading the rows of peers.
ghost use Rattle.std.specs.Prelude.{◌≡◌, IfOk, map};
ghost use Rattle.vet_item_rows.specs.ReadBack.{IsReadBack, IsWritten};
ghost use Rattle.vet_item_rows.specs.ReadFacts.{IsCriteriaMap, IsPeerSettings, criteria_map_column, mapped_criterion};
ghost use Rattle.vet_item_rows.specs.SettingRows.{peer_row};

use crate::read::columns::{name, packages, texts};
use crate::read::from_row::FromRow;
use crate::read::gathered::WithKey;
use crate::read::maps::map_items;
use crate::read::read_error::ReadError;
use std::alloc::{AllocError, Global};
use vet_base::name::Name;
use vet_base::names::Names;
use vet_entries::criteria_map::{CriteriaMap, MappedCriterion};
use vet_entries::peer_settings::PeerSettings;
use vet_tables::cell::Cell;
use vet_tables::sequence::Row;

impl FromRow for PeerSettings {
    ghost stands_for = { IsWritten IsPeerSettings peer_row };

    fn from_row(alloc: Global, row: &Row) -> Result<PeerSettings, ReadError> {
        let [
            Cell::Text(of_name),
            Cell::Blob(urls),
            Cell::Blob(excluded),
            Cell::Blob(mapped),
        ] = row.as_slice()
        else {
            return Err(ReadError::NotARegister);
        };
        Ok(PeerSettings {
            name: name(alloc, of_name.as_str())?,
            url: texts(alloc, urls.as_slice())?,
            exclude: packages(alloc, excluded.as_slice())?,
            map: criteria_map(alloc, mapped.as_slice())?,
        })
    }
}

// What the peer's criteria stand for.
fn criteria_map(alloc: Global, bytes: &[u8]) -> Result<CriteriaMap, ReadError>
    ensures { IsReadBack (IsWritten IsCriteriaMap criteria_map_column) bytes.now result }
{
    let items = map_items::<Name>(alloc, bytes)?;
    Ok(CriteriaMap::of(alloc, mapped(alloc, items)?)?)
}

// The items as those of such a map.
fn mapped(
    alloc: Global,
    items: Vec<WithKey<Name, Names>>,
) -> Result<Vec<MappedCriterion>, AllocError>
    ensures { IfOk result (λ criteria. criteria.items ≡ map mapped_criterion items.items) }
{
    let mut criteria = Vec::new(alloc);
    'items: for filed in items {
        let WithKey { key, item } = filed;
        criteria.push(MappedCriterion {
            name: key,
            criteria: item,
        })?;
    }
    Ok(criteria)
}
