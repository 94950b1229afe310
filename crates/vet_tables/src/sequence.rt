//! Lists whose value is the list of their items.
ghost use Rattle.std.specs.Prelude.{◌≡◌};

use crate::cell::Cell;
use crate::same_items::Exactly;
use std::cmp::Ordering;
use std::marker::Model;

/// A list. Two of them are the same value if they have the same items in the same order.
#[derive(Drop)]
pub struct Sequence<T: Drop> {
    items: Vec<T>,
}

/// A row of a table: a cell for each column, in the order of the columns.
pub type Row = Sequence<Cell>;

impl<T: Drop> Model for Sequence<T> {
    ghost use Rattle.std.specs.Coded.{coded_list};
    ghost use Rattle.std.specs.Prelude.{List};

    ghost Value = { List T };

    ghost coded = { coded_list T.code };

    ghost view = { λ s. s.items.items };
}

impl<T: Drop> Sequence<T> {
    /// The sequence of these items. Takes no memory.
    pub fn of(items: Vec<T>) -> Sequence<T>
        ensures { result ≡ items.items }
    {
        Sequence { items }
    }

    /// The items. Takes no memory.
    pub fn as_slice(&self) -> &[T]
        ensures { result.now ≡ self.now }
    {
        self.items.as_slice()
    }

    /// The items, without a copy. Takes no memory.
    pub fn into_items(self) -> Vec<T>
        ensures { result.items ≡ self }
    {
        let Sequence { items } = self;
        items
    }
}

impl<T: PartialEq + Drop> PartialEq for Sequence<T> {
    ghost use Rattle.std.specs.Cmp.Lexicographic.{lists_per, pointwise};

    ghost eq = { pointwise T.eq };

    ghost laws = { lists_per T.PartialEq.laws };

    fn eq(&self, other: &Sequence<T>) -> bool {
        self.items.as_slice() == other.items.as_slice()
    }
}

impl<T: Eq + Drop> Eq for Sequence<T> {
    ghost use Rattle.std.specs.Cmp.Lexicographic.{lists_equiv};

    ghost laws = { lists_equiv T.Eq.laws };
}

impl<T: PartialOrd + Drop> PartialOrd for Sequence<T> {
    ghost use Rattle.std.specs.Cmp.Lexicographic.{lists_po, slice_partial_cmp};

    ghost partial_cmp = { slice_partial_cmp T.partial_cmp };

    ghost laws = { lists_po T.PartialOrd.laws };

    fn partial_cmp(&self, other: &Sequence<T>) -> Option<Ordering> {
        self.items.as_slice().partial_cmp(other.items.as_slice())
    }
}

impl<T: Ord + Drop> Ord for Sequence<T> {
    ghost use Rattle.std.specs.Cmp.Lexicographic.{lists_agrees, lists_ties, lists_total, slice_cmp};

    ghost cmp = { slice_cmp T.cmp };

    ghost total = { lists_total T.Ord.total };

    ghost matches_partial_cmp = { lists_agrees T.Ord.matches_partial_cmp };

    ghost matches_eq = { lists_ties T.cmp T.Ord.matches_eq };

    fn cmp(&self, other: &Sequence<T>) -> Ordering {
        self.items.as_slice().cmp(other.items.as_slice())
    }
}

impl<T: Exactly + Drop> Exactly for Sequence<T> {
    ghost use Rattle.std.specs.Cmp.Lexicographic.{pointwise_decides};

    ghost only_itself = { pointwise_decides T.Exactly.only_itself };
}
