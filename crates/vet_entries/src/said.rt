//! Entries by what they say, whatever their sources.
ghost use Rattle.std.specs.Prelude.{◌≡◌};
ghost use Rattle.vet_entries.specs.Entry.{entry_eq, own};

use crate::entry::Entry;
use crate::order::said_cmp;
use std::cmp::Ordering;
use std::marker::Model;

/// A borrowed entry, seen as an own one. Two are equal if their entries say the same, and they are ordered by what the
/// entries say.
#[derive(Drop)]
pub(crate) struct Said<'a> {
    entry: &'a Entry,
}

impl<'a> Model for Said<'a> {
    ghost use Rattle.vet_entries.specs.Entry.{own};
    ghost use Rattle.vet_entries.specs.contracts.entry.Entry as contract;
    ghost use Rattle.vet_entries.specs.declared.entry.Entry.{Entry};

    ghost Value = { Entry };

    ghost coded = { contract.the_row.coded };

    ghost view = { λ s. own s.entry.now };
}

impl<'a> Said<'a> {
    /// An entry, by what it says. Costs nothing.
    pub(crate) fn of(entry: &'a Entry) -> Said<'a>
        ensures { result ≡ own entry.now }
    {
        Said { entry }
    }
}

impl<'a> PartialEq for Said<'a> {
    ghost use Rattle.std.specs.Cmp.{decided, partial_equiv_from_equiv};
    ghost use Rattle.vet_entries.specs.Entry.{entry_eq};
    ghost use Rattle.vet_entries.specs.EntryLaws.{entry_eq-Decides};

    ghost eq = { entry_eq };

    ghost laws = { partial_equiv_from_equiv (decided entry_eq entry_eq-Decides) };

    fn eq(&self, other: &Said<'a>) -> bool {
        self.entry.says_same(other.entry)
    }
}

impl<'a> Eq for Said<'a> {
    ghost use Rattle.std.specs.Cmp.{decided};
    ghost use Rattle.vet_entries.specs.Entry.{entry_eq};
    ghost use Rattle.vet_entries.specs.EntryLaws.{entry_eq-Decides};

    ghost laws = { decided entry_eq entry_eq-Decides };
}

impl<'a> PartialOrd for Said<'a> {
    ghost use Rattle.std.specs.Cmp.{po};
    ghost use Rattle.std.specs.Ordering.{as_partial_cmp};
    ghost use Rattle.vet_entries.specs.EntryOrder.{entry_cmp};
    ghost use Rattle.vet_entries.specs.EntryOrderLaws.{entries_tie, entry_cmp_total};

    ghost partial_cmp = { as_partial_cmp entry_cmp };

    ghost laws = { po entry_cmp_total entries_tie };

    fn partial_cmp(&self, other: &Said<'a>) -> Option<Ordering> {
        Some(self.cmp(other))
    }
}

impl<'a> Ord for Said<'a> {
    ghost use Rattle.std.specs.Prelude.{refl};
    ghost use Rattle.vet_entries.specs.EntryOrder.{entry_cmp};
    ghost use Rattle.vet_entries.specs.EntryOrderLaws.{entries_tie, entry_cmp_total};

    ghost cmp = { entry_cmp };

    ghost total = { entry_cmp_total };

    ghost matches_partial_cmp = { λ a b. refl };

    ghost matches_eq = { entries_tie };

    fn cmp(&self, other: &Said<'a>) -> Ordering {
        said_cmp(self.entry, other.entry)
    }
}
