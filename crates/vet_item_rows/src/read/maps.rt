//! Reading maps from a column.
ghost use Rattle.std.specs.Prelude.{◌≡◌, List, MatchResult, map};
ghost use Rattle.vet_base.specs.Names.{NameSet};
ghost use Rattle.vet_item_rows.specs.Columns.{packed_names};
ghost use Rattle.vet_item_rows.specs.ReadBack.{IsWritten, Reads};
ghost use Rattle.vet_item_rows.specs.ReadMaps.{AreMapItems, IsMapItem, in_turn, map_column};
ghost use Rattle.vet_item_rows.specs.declared.read.gathered.WithKey.{WithKey as WithKeyValue};

use crate::packed::read_items;
use crate::packed_item::PackedItem;
use crate::read::columns::names;
use crate::read::gathered::WithKey;
use crate::read::read_error::{ReadError, found};
use std::alloc::Global;
use vet_base::names::Names;

/// The items of a map from keys to sets of names.
pub(crate) fn map_items<K: PackedItem>(
    alloc: Global,
    bytes: &[u8],
) -> Result<Vec<WithKey<K, Names>>, ReadError>
    ensures { (xs : List (WithKeyValue K NameSet))
        → IsWritten (AreMapItems K.bytes_of K.read_bytes) (map_column K.bytes_of) bytes.now xs
        → MatchResult result (λ items. items.items ≡ xs) (λ e. e ≡ ReadError.NoMemory) }
{
    let items = found(read_items(alloc, bytes)?)?;
    in_turn(alloc, items.as_slice())
}

// The items of keys and packed names in turn.
fn in_turn<K: PackedItem>(
    alloc: Global,
    items: &[&[u8]],
) -> Result<Vec<WithKey<K, Names>>, ReadError>
    ensures { (xs : List (WithKeyValue K NameSet))
        → IsWritten (AreMapItems K.bytes_of K.read_bytes) (in_turn K.bytes_of) (map (λ item. item.now) items.now) xs
        → MatchResult result (λ items. items.items ≡ xs) (λ e. e ≡ ReadError.NoMemory) }
{
    let mut found = Vec::new(alloc);
    let mut rest = items;
    'items: while rest.len() >= 2 {
        found.push(map_item(alloc, rest[0], rest[1])?)?;
        rest = &rest[2..];
    }
    Ok(found)
}

// The item of a key and its packed names.
fn map_item<K: PackedItem>(
    alloc: Global,
    key: &[u8],
    list: &[u8],
) -> Result<WithKey<K, Names>, ReadError>
    ensures { (x : WithKeyValue K NameSet) → IsMapItem K.bytes_of K.read_bytes x → key.now ≡ K.bytes_of x.key
        → list.now ≡ packed_names x.item → Reads result x }
{
    Ok(WithKey {
        key: found(K::read(alloc, key)?)?,
        item: names(alloc, list)?,
    })
}
