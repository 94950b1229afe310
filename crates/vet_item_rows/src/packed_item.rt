//! Values that are kept as the items of packed lists.
ghost use Rattle.std.specs.Prelude.{◌≡◌, List, Option, IfOk, OnErr, OnOk, map, option_map};
ghost use Rattle.vet_base.specs.Words.{Bytes};
ghost use Rattle.vet_item_rows.specs.Packed.{packed};
ghost use Rattle.vet_item_rows.specs.PackedItems.{IsReadAs, all_read};

use crate::packed::{push_item, read_items};
use std::alloc::{AllocError, Global};

/// A value that a packed list keeps as an item.
pub trait PackedItem: Drop {
    /// The bytes that stand for it.
    ghost bytes_of: { Self → Bytes };

    /// The value that bytes stand for, if they stand for one.
    ghost read_bytes: { Bytes → Option Self };

    /// Its bytes. Takes no memory.
    fn bytes(&self) -> &[u8]
        ensures { result.now ≡ bytes_of self.now };

    /// The value that bytes stand for, if they stand for one. Fails only if memory runs out.
    fn read(alloc: Global, bytes: &[u8]) -> Result<Option<Self>, AllocError>
        ensures { IfOk result (λ found. found ≡ read_bytes bytes.now) };
}

/// The packed list of some values, in their order. Fails only if memory runs out.
pub fn pack<T: PackedItem>(alloc: Global, values: &[T]) -> Result<Vec<u8>, AllocError>
    ensures { IfOk result (λ bytes. bytes.items ≡ packed (map T.bytes_of values.now)) }
{
    let mut bytes = Vec::new(alloc);
    'values: for value in values {
        push_item(alloc, &mut bytes, value.bytes())?;
    }
    Ok(bytes)
}

/// The values of a packed list, or `None` if the bytes are not one or an item stands for no value. Fails only if memory
/// runs out.
pub fn unpack<T: PackedItem>(alloc: Global, bytes: &[u8]) -> Result<Option<Vec<T>>, AllocError>
    ensures { IfOk result (λ values.
        IsReadAs T.read_bytes bytes.now (option_map (λ found. found.items) values)) }
{
    match read_items(alloc, bytes)? {
        Some(items) => read_all(alloc, items.as_slice()),
        None => Ok(None),
    }
}

// The values of all these items, if each stands for one.
fn read_all<T: PackedItem>(alloc: Global, items: &[&[u8]]) -> Result<Option<Vec<T>>, AllocError>
    ensures { IfOk result (λ values.
        option_map (λ found. found.items) values ≡ all_read T.read_bytes (map (λ item. item.now) items.now)) }
{
    let mut values = Vec::new(alloc);
    'items: for item in items {
        let Some(value) = T::read(alloc, *item)? else {
            return Ok(None);
        };
        values.push(value)?;
    }
    Ok(Some(values))
}
