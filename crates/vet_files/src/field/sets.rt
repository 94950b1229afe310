//! Sets of names and of texts.
ghost use Rattle.std.specs.Prelude.{◌≡◌, All, IfOk, map};
ghost use Rattle.vet_base.specs.Gives.{Gives};
ghost use Rattle.toml.specs.View.{array_view, items_of, view};
ghost use Rattle.vet_files.specs.Field.{items_told, names, one_or_list_told, package_names, texts};
ghost use Rattle.vet_files.specs.ReadAgain.{IsReadAs};
ghost use Rattle.vet_files.specs.Tables.{list_data, set_data};

use crate::field::{Field, fault};
use std::alloc::{AllocError, Global};
use toml::Value;
use toml::value::Array;
use vet_base::names::Names;
use vet_base::package_names::PackageNames;
use vet_base::refusal::Refusal;
use vet_base::texts::Texts;

/// Reads each item of a list in order, given the path of its table and its key.
pub fn read_items<V: Field>(
    alloc: Global,
    path: &str,
    key: &str,
    items: &Array,
) -> Result<Vec<V>, Refusal>
    ensures { Gives (λ vs. vs.items) (items_told (V.told path.now key.now) (array_view items.now)) result }
{
    let mut values = Vec::new(alloc);
    'items: for item in items.iter() {
        values.push(V::read(alloc, path, key, item)?)?;
    }
    Ok(values)
}

/// Reads a single text, or each item of a list. Anything else is refused (`fault`).
pub fn read_one_or_list<V: Field>(
    alloc: Global,
    path: &str,
    key: &str,
    value: &Value,
) -> Result<Vec<V>, Refusal>
    ensures { Gives (λ vs. vs.items) (one_or_list_told V.told path.now key.now (view value.now)) result }
{
    match value {
        Value::String(_) => {
            let mut values = Vec::new(alloc);
            values.push(V::read(alloc, path, key, value)?)?;
            Ok(values)
        }
        Value::Array(items) => read_items(alloc, path, key, items),
        _ => Err(fault(alloc, path, key)),
    }
}

/// Writes a list. Each item is read back.
fn write_items<V: Field>(alloc: Global, items: &[V]) -> Result<Array, AllocError>
    ensures items { IfOk result (λ a. array_view a ≡ items_of (map (λ v. V.written v) items.now)) }
    ensures read { IfOk result (λ a. All (λ v. IsReadAs V.told (V.written v) v) items.now) }
{
    let mut values = Vec::new(alloc);
    'items: for item in items {
        values.push(item.write(alloc)?)?;
    }
    Ok(values)
}

impl Field for Names {
    ghost told = { names };

    ghost written = { set_data };

    fn read(alloc: Global, path: &str, key: &str, value: &Value) -> Result<Names, Refusal> {
        let names = read_one_or_list(alloc, path, key, value)?;
        Ok(Names::of(alloc, names)?)
    }

    fn write(&self, alloc: Global) -> Result<Value, AllocError> {
        let names = self.as_slice();
        if names.len() == 1 {
            return names[0].write(alloc);
        }
        Ok(Value::Array(write_items(alloc, names)?))
    }
}

impl Field for Texts {
    ghost told = { texts };

    ghost written = { set_data };

    fn read(alloc: Global, path: &str, key: &str, value: &Value) -> Result<Texts, Refusal> {
        let texts = read_one_or_list(alloc, path, key, value)?;
        Ok(Texts::of(alloc, texts)?)
    }

    fn write(&self, alloc: Global) -> Result<Value, AllocError> {
        let texts = self.as_slice();
        if texts.len() == 1 {
            return texts[0].write(alloc);
        }
        Ok(Value::Array(write_items(alloc, texts)?))
    }
}

impl Field for PackageNames {
    ghost told = { package_names };

    ghost written = { list_data };

    fn read(alloc: Global, path: &str, key: &str, value: &Value) -> Result<PackageNames, Refusal> {
        let Some(items) = value.as_array() else {
            return Err(fault(alloc, path, key));
        };
        let names = read_items(alloc, path, key, items)?;
        Ok(PackageNames::of(alloc, names)?)
    }

    fn write(&self, alloc: Global) -> Result<Value, AllocError> {
        Ok(Value::Array(write_items(alloc, self.as_slice())?))
    }
}
