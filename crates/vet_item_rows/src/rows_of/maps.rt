//! Maps from names to sets of names, as a column holds them.
ghost use Rattle.std.specs.Prelude.{◌≡◌, IfOk, OnOk, ◌++◌, map};
ghost use Rattle.vet_base.specs.Names.{NameSet};
ghost use Rattle.vet_base.specs.Words.{Name};
ghost use Rattle.vet_item_rows.specs.Columns.{packed_map};
ghost use Rattle.vet_item_rows.specs.Packed.{packed};

use crate::packed::push_item;
use crate::packed_names::pack_names;
use std::alloc::{AllocError, Global};
use vet_base::names::Names;
use vet_demand::dependency_criteria::DependencyItem;
use vet_entries::criteria_map::MappedCriterion;
use vet_tables::column::BlobColumn;

/// An item of a map: a name, and the names to which it leads.
pub trait MapItem: Drop {
    /// What a map holds for it.
    ghost item_of: { Self → Name × NameSet };

    /// The name. Takes no memory.
    fn key(&self) -> &str
        ensures { result.now ≡ (item_of self.now).0 };

    /// The names to which it leads. Takes no memory.
    fn names(&self) -> &Names
        ensures { result.now ≡ (item_of self.now).1 };
}

impl MapItem for MappedCriterion {
    ghost item_of = { λ i. (i.name, i.criteria) };

    fn key(&self) -> &str {
        self.name.as_str()
    }

    fn names(&self) -> &Names {
        &self.criteria
    }
}

impl MapItem for DependencyItem {
    ghost item_of = { λ i. (i.«package», i.criteria) };

    fn key(&self) -> &str {
        self.package.as_str()
    }

    fn names(&self) -> &Names {
        &self.criteria
    }
}

/// The packed list of the keys and the packed names of some items in turn. Fails only if memory runs out.
pub fn map_column<T: MapItem>(alloc: Global, items: &[T]) -> Result<BlobColumn, AllocError>
    ensures { IfOk result (λ column. column ≡ packed_map (map T.item_of items.now)) }
{
    let mut bytes = Vec::new(alloc);
    'items: for item in items {
        push_item(alloc, &mut bytes, item.key().as_bytes())?;
        let names = pack_names(alloc, item.names())?;
        push_item(alloc, &mut bytes, names.as_slice())?;
    }
    Ok(BlobColumn::of(bytes))
}
