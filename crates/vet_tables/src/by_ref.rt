//! An item by reference, as the key of a set.
ghost use Rattle.std.specs.Prelude.{◌≡◌};

use std::cmp::Ordering;
use std::marker::Model;

/// A reference to an item, seen as the item.
#[derive(Drop)]
pub(crate) struct ByRef<'a, T> {
    item: &'a T,
}

impl<'a, T> Model for ByRef<'a, T> {
    ghost Value = { T };

    ghost coded = { T.code };

    ghost view = { λ l. l.item.now };
}

impl<'a, T> ByRef<'a, T> {
    /// A reference to an item. Costs nothing.
    pub(crate) fn of(item: &'a T) -> ByRef<'a, T>
        ensures { result ≡ item.now }
    {
        ByRef { item }
    }
}

impl<'a, T: PartialEq> PartialEq for ByRef<'a, T> {
    ghost eq = { T.eq };

    ghost laws = { T.PartialEq.laws };

    fn eq(&self, other: &ByRef<'a, T>) -> bool {
        self.item == other.item
    }
}

impl<'a, T: Eq> Eq for ByRef<'a, T> {
    ghost laws = { T.Eq.laws };
}

impl<'a, T: PartialOrd> PartialOrd for ByRef<'a, T> {
    ghost partial_cmp = { T.partial_cmp };

    ghost laws = { T.PartialOrd.laws };

    fn partial_cmp(&self, other: &ByRef<'a, T>) -> Option<Ordering> {
        self.item.partial_cmp(other.item)
    }
}

impl<'a, T: Ord> Ord for ByRef<'a, T> {
    ghost cmp = { T.cmp };

    ghost total = { T.Ord.total };

    ghost matches_partial_cmp = { T.Ord.matches_partial_cmp };

    ghost matches_eq = { T.Ord.matches_eq };

    fn cmp(&self, other: &ByRef<'a, T>) -> Ordering {
        self.item.cmp(other.item)
    }
}
