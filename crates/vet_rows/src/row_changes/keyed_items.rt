//! The items of a list by key that an edit takes out of it and puts into it.
ghost use Rattle.std.specs.Option.{option_copied};
ghost use Rattle.std.specs.Prelude.{◌≡◌};
ghost use Rattle.vet_rows.specs.KeyedItems.{added_item, removed_item};

use vet_base::keyed::KeyedEdit;

/// The item that is removed, or exchanged for another. Takes no memory.
pub fn removed_item<'a, T: Drop>(edit: &KeyedEdit<T>, items: &'a [T]) -> Option<&'a T>
    ensures { option_copied result ≡ removed_item edit.now items.now }
{
    match edit {
        KeyedEdit::Put(_, _) => None,
        KeyedEdit::Take(place) => items.get(*place),
        KeyedEdit::Swap(place, _) => items.get(*place),
    }
}

/// The item that is added. Takes no memory.
pub fn added_item<T: Drop>(edit: &KeyedEdit<T>) -> Option<&T>
    ensures { option_copied result ≡ added_item edit.now }
{
    match edit {
        KeyedEdit::Put(_, item) => Some(item),
        KeyedEdit::Take(_) => None,
        KeyedEdit::Swap(_, item) => Some(item),
    }
}
