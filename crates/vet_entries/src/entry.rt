//! Entries: what somebody vouches for.
ghost use Rattle.std.specs.Prelude.{◌≡◌, ◌↔◌, IfOk, IsTrue};
ghost use Rattle.vet_entries.specs.Entry.{entry_eq, of_source, own, says_same};

use crate::kind::Kind;
use crate::order::{said_cmp, source_cmp};
use std::alloc::AllocError;
use std::cmp::Ordering;
use vet_base::name::{Name, PackageName};
use vet_base::names::Names;
use vet_base::text::Text;

/// The source of an entry.
#[derive(Clone)]
pub enum Source {
    /// The organisation itself: the entry is an own one.
    Own,
    /// A peer, from which the entry was imported.
    Peer(Name),
}

impl Drop for Source {
    fn drop(self) {
        match self {
            Source::Own => {}
            Source::Peer(_) => {}
        }
    }
}

impl PartialEq for Source {
    ghost use Rattle.std.specs.Cmp.{decided, partial_equiv_from_equiv};
    ghost use Rattle.vet_entries.specs.Entry.{source_eq};
    ghost use Rattle.vet_entries.specs.EntryLaws.{source_eq-Decides};

    ghost eq = { source_eq };

    ghost laws = { partial_equiv_from_equiv (decided source_eq source_eq-Decides) };

    fn eq(&self, other: &Source) -> bool {
        match (self, other) {
            (Source::Own, Source::Own) => true,
            (Source::Peer(name), Source::Peer(other)) => name == other,
            _ => false,
        }
    }
}

impl Eq for Source {
    ghost use Rattle.std.specs.Cmp.{decided};
    ghost use Rattle.vet_entries.specs.Entry.{source_eq};
    ghost use Rattle.vet_entries.specs.EntryLaws.{source_eq-Decides};

    ghost laws = { decided source_eq source_eq-Decides };
}

/// An entry: a package, what is said of it, and for which criteria. Entries are ordered by source, package, kind,
/// criteria and notes.
pub struct Entry {
    pub source: Source,
    pub package: PackageName,
    pub kind: Kind,
    pub criteria: Names,
    pub notes: Option<Text>,
}

impl Drop for Entry {
    fn drop(self) {
        let Entry {
            source: _,
            package: _,
            kind: _,
            criteria: _,
            notes: _,
        } = self;
    }
}

impl Entry {
    /// A copy of the entry as an own one.
    pub fn to_own(&self) -> Result<Entry, AllocError>
        ensures { IfOk result (λ e. e ≡ own self.now) }
    {
        self.copied_for(Source::Own)
    }

    // A copy of the entry as one of a source.
    pub(crate) fn copied_for(&self, source: Source) -> Result<Entry, AllocError>
        ensures { IfOk result (λ e. e ≡ of_source source self.now) }
    {
        Ok(Entry {
            source,
            package: self.package.clone()?,
            criteria: self.criteria.clone()?,
            notes: notes_copied(&self.notes)?,
            kind: self.kind.clone()?,
        })
    }

    /// Whether this entry equals another taken as an own one.
    pub(crate) fn is_as_own(&self, other: &Entry) -> bool
        ensures { result ≡ entry_eq self.now (own other.now) }
    {
        self.source == Source::Own && self.says_same(other)
    }

    // Whether another entry says the same, whatever the sources of the two.
    pub(crate) fn says_same(&self, other: &Entry) -> bool
        ensures { result ≡ says_same self.now other.now }
    {
        self.package == other.package
            && self.kind == other.kind
            && self.criteria == other.criteria
            && self.notes == other.notes
    }
}

impl Clone for Entry {
    ghost use Rattle.std.specs.Prelude.{◌≡◌};

    ghost is_clone = { λ a b. b ≡ a };

    fn clone(&self) -> Result<Entry, AllocError> {
        self.copied_for(self.source.clone()?)
    }
}

impl PartialEq for Entry {
    ghost use Rattle.std.specs.Cmp.{decided, partial_equiv_from_equiv};
    ghost use Rattle.std.specs.Prelude.{IsTrue, ◌↔◌, ◌≡◌};
    ghost use Rattle.vet_entries.specs.Entry.{entry_eq};
    ghost use Rattle.vet_entries.specs.EntryLaws.{entry_eq-Decides};

    ghost eq = { entry_eq };

    ghost laws = { partial_equiv_from_equiv (decided entry_eq entry_eq-Decides) };

    fn eq(&self, other: &Entry) -> bool
        ensures value { result ≡ entry_eq self.now other.now }
        ensures same { IsTrue result ↔ (self.now ≡ other.now) }
    {
        self.source == other.source && self.says_same(other)
    }
}

impl Eq for Entry {
    ghost use Rattle.std.specs.Cmp.{decided};
    ghost use Rattle.vet_entries.specs.Entry.{entry_eq};
    ghost use Rattle.vet_entries.specs.EntryLaws.{entry_eq-Decides};

    ghost laws = { decided entry_eq entry_eq-Decides };
}

impl PartialOrd for Entry {
    ghost use Rattle.std.specs.Cmp.{po};
    ghost use Rattle.std.specs.Ordering.{as_partial_cmp};
    ghost use Rattle.vet_entries.specs.EntryOrder.{entry_cmp};
    ghost use Rattle.vet_entries.specs.EntryOrderLaws.{entries_tie, entry_cmp_total};

    ghost partial_cmp = { as_partial_cmp entry_cmp };

    ghost laws = { po entry_cmp_total entries_tie };

    fn partial_cmp(&self, other: &Entry) -> Option<Ordering> {
        Some(self.cmp(other))
    }
}

impl Ord for Entry {
    ghost use Rattle.std.specs.Prelude.{refl};
    ghost use Rattle.vet_entries.specs.EntryOrder.{entry_cmp};
    ghost use Rattle.vet_entries.specs.EntryOrderLaws.{entries_tie, entry_cmp_total};

    ghost cmp = { entry_cmp };

    ghost total = { entry_cmp_total };

    ghost matches_partial_cmp = { λ a b. refl };

    ghost matches_eq = { entries_tie };

    fn cmp(&self, other: &Entry) -> Ordering {
        source_cmp(&self.source, &other.source).then_with(|| said_cmp(self, other))
    }
}

// A copy of some notes, if there are any.
fn notes_copied(notes: &Option<Text>) -> Result<Option<Text>, AllocError>
    ensures { IfOk result (λ copy. copy ≡ notes.now) }
{
    match notes {
        Some(notes) => Ok(Some(notes.clone()?)),
        None => Ok(None),
    }
}
