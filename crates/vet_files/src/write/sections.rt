//! The tables of lists of a file, and the entries that are in each.
ghost use Rattle.std.specs.Prelude.{◌≡◌};
ghost use Rattle.vet_files.specs.EntryTables.{is_listed};

use vet_entries::kind::Kind;

/// A table of lists of entries, by package.
#[derive(Clone, Copy)]
pub(crate) enum Listing {
    Audits,
    WildcardAudits,
    Trusted,
    Exemptions,
}

impl Listing {
    /// Whether entries of a kind are in this table. Exemptions with a last day are in none.
    pub(crate) fn holds(self, kind: &Kind) -> bool
        ensures { result ≡ is_listed self kind.now }
    {
        match self {
            Listing::Audits => matches!(
                kind,
                Kind::Full(_, _) | Kind::Delta(_, _) | Kind::Violation(_, _)
            ),
            Listing::WildcardAudits => matches!(kind, Kind::Wildcard(_, _)),
            Listing::Trusted => matches!(kind, Kind::Trusted(_)),
            Listing::Exemptions => matches!(kind, Kind::Exemption { last_day: None, .. }),
        }
    }
}
