//! The kinds of entries: what each says of its package.
ghost use Rattle.std.specs.Prelude.{◌≡◌};
ghost use Rattle.vet_entries.specs.Kind.{grants_same, has_lapsed, has_last_day, is_exemption, is_over, last_day_of};
ghost use Rattle.vet_entries.specs.Kind.{no_audit, same_last_day};

use crate::user::User;
use std::alloc::{AllocError, Global};
use vet_base::day::Day;
use vet_base::delta::Delta;
use vet_base::req::Req;
use vet_base::texts::Texts;
use vet_base::version::VetVersion;

/// Who made an audit, and whether others may import it (The Cargo Vet Book, audit entries).
#[derive(Clone, PartialEq, Eq)]
pub struct Audit {
    /// The reviewers, in the order of their bytes, each once.
    pub who: Texts,
    /// Whether others may import the entry, if it says so.
    pub importable: Option<bool>,
}

impl Drop for Audit {
    fn drop(self) {
        let Audit {
            who: _,
            importable: _,
        } = self;
    }
}

impl Audit {
    /// The audit that names nobody and says nothing of imports.
    pub fn anonymous(alloc: Global) -> Audit
        ensures { result ≡ no_audit }
    {
        Audit {
            who: Texts::new(alloc),
            importable: None,
        }
    }
}

/// Who vouches for what a user publishes, and whether that is to be renewed (The Cargo Vet Book, wildcard
/// audits).
#[derive(Clone, PartialEq, Eq)]
pub struct Grant {
    /// The people who vouch, in the order of their bytes, each once.
    pub who: Texts,
    /// Whether the window is to be renewed, if the entry says so.
    pub renew: Option<bool>,
}

impl Drop for Grant {
    fn drop(self) {
        let Grant { who: _, renew: _ } = self;
    }
}

/// The versions that a user of crates.io published from a first day to a last, both included (The Cargo Vet Book,
/// wildcard audits and trusted publishers). A window that ends before it begins has no day.
#[derive(Clone, Copy)]
pub struct Window {
    pub user: User,
    pub first: Day,
    pub last: Day,
}

impl PartialEq for Window {
    ghost use Rattle.std.specs.Cmp.{decided, partial_equiv_from_equiv};
    ghost use Rattle.vet_entries.specs.Kind.{window_eq};
    ghost use Rattle.vet_entries.specs.KindLaws.{window_eq-Decides};

    ghost eq = { window_eq };

    ghost laws = { partial_equiv_from_equiv (decided window_eq window_eq-Decides) };

    fn eq(&self, other: &Window) -> bool {
        self.user == other.user && self.first == other.first && self.last == other.last
    }
}

impl Eq for Window {
    ghost use Rattle.std.specs.Cmp.{decided};
    ghost use Rattle.vet_entries.specs.Kind.{window_eq};
    ghost use Rattle.vet_entries.specs.KindLaws.{window_eq-Decides};

    ghost laws = { decided window_eq window_eq-Decides };
}

/// The kind of an entry: what it says of its package. Each kind holds what goes with it and nothing else, such as who
/// vouches and flags for tools.
pub enum Kind {
    /// This version was reviewed in full (The Cargo Vet Book, audit entries: `version`).
    Full(VetVersion, Audit),
    /// The changes from one version to another were reviewed, so trust in the first carries over to the second. Either
    /// may be the greater (there: `delta`).
    Delta(Delta, Audit),
    /// The versions that match do not meet the criteria (there: `violation`).
    Violation(Req, Audit),
    /// The versions that a user publishes within a window are vouched for (there: wildcard audits).
    Wildcard(Window, Grant),
    /// The versions that a user publishes within a window are trusted (there: trusted publishers).
    Trusted(Window),
    /// This version is vouched for without a review (there: exemptions).
    Exemption {
        version: VetVersion,
        /// Whether to suggest a review in its place, if the entry says so.
        suggest: Option<bool>,
        /// The last day on which it counts, if it has one. No file has a key for it.
        last_day: Option<Day>,
    },
}

impl Drop for Kind {
    fn drop(self) {
        match self {
            Kind::Full(_, _) => {}
            Kind::Delta(_, _) => {}
            Kind::Violation(_, _) => {}
            Kind::Wildcard(_, _) => {}
            Kind::Trusted(_) => {}
            Kind::Exemption {
                version: _,
                suggest: _,
                last_day: _,
            } => {}
        }
    }
}

impl Kind {
    /// Whether it is an exemption, with a last day or without.
    pub fn is_exemption(&self) -> bool
        ensures { result ≡ is_exemption self.now }
    {
        matches!(self, Kind::Exemption { .. })
    }

    /// The last day of an exemption, if it has one.
    pub fn last_day(&self) -> Option<Day>
        ensures { result ≡ last_day_of self.now }
    {
        match self {
            Kind::Exemption {
                version: _,
                suggest: _,
                last_day,
            } => *last_day,
            _ => None,
        }
    }

    /// Whether it is an exemption with a last day.
    pub fn has_last_day(&self) -> bool
        ensures { result ≡ has_last_day self.now }
    {
        self.last_day().is_some()
    }

    /// Whether it is an exemption whose last day is before this day. Without a day it has not lapsed.
    pub fn has_lapsed(&self, day: Option<Day>) -> bool
        ensures { result ≡ has_lapsed self.now day }
    {
        is_over(self.last_day(), day)
    }

    // Whether both are the same, and of one kind that is not an audit.
    fn grants_the_same(&self, other: &Kind) -> bool
        ensures { result ≡ grants_same self.now other.now }
    {
        match (self, other) {
            (Kind::Wildcard(v, grant), Kind::Wildcard(w, other)) => v == w && grant == other,
            (Kind::Trusted(v), Kind::Trusted(w)) => v == w,
            (
                Kind::Exemption {
                    version: v,
                    suggest,
                    last_day,
                },
                Kind::Exemption {
                    version: w,
                    suggest: other,
                    last_day: other_last,
                },
            ) => v == w && suggest == other && same_last_day(*last_day, *other_last),
            _ => false,
        }
    }
}

/// Whether a last day is over on a day, that is, whether the day comes after it. It is not over if either is absent.
pub fn is_over(last: Option<Day>, day: Option<Day>) -> bool
    ensures { result ≡ is_over last day }
{
    match (last, day) {
        (None, None) => false,
        (None, Some(_)) => false,
        (Some(_), None) => false,
        (Some(last), Some(day)) => last < day,
    }
}

// Whether two exemptions have the same last day, or both have none.
fn same_last_day(a: Option<Day>, b: Option<Day>) -> bool
    ensures { result ≡ same_last_day a b }
{
    match (a, b) {
        (None, None) => true,
        (None, Some(_)) => false,
        (Some(_), None) => false,
        (Some(a), Some(b)) => a == b,
    }
}

impl Clone for Kind {
    ghost use Rattle.std.specs.Prelude.{◌≡◌};

    ghost is_clone = { λ a b. b ≡ a };

    fn clone(&self) -> Result<Kind, AllocError> {
        match self {
            Kind::Full(version, audit) => Ok(Kind::Full(version.clone()?, audit.clone()?)),
            Kind::Delta(delta, audit) => Ok(Kind::Delta(delta.clone()?, audit.clone()?)),
            Kind::Violation(req, audit) => Ok(Kind::Violation(req.clone()?, audit.clone()?)),
            Kind::Wildcard(window, grant) => Ok(Kind::Wildcard(*window, grant.clone()?)),
            Kind::Trusted(window) => Ok(Kind::Trusted(*window)),
            Kind::Exemption {
                version,
                suggest,
                last_day,
            } => Ok(Kind::Exemption {
                version: version.clone()?,
                suggest: *suggest,
                last_day: *last_day,
            }),
        }
    }
}

impl PartialEq for Kind {
    ghost use Rattle.std.specs.Cmp.{decided, partial_equiv_from_equiv};
    ghost use Rattle.vet_entries.specs.Kind.{kind_eq};
    ghost use Rattle.vet_entries.specs.KindLaws.{kind_eq-Decides};

    ghost eq = { kind_eq };

    ghost laws = { partial_equiv_from_equiv (decided kind_eq kind_eq-Decides) };

    fn eq(&self, other: &Kind) -> bool {
        match (self, other) {
            (Kind::Full(v, audit), Kind::Full(w, other)) => v == w && audit == other,
            (Kind::Delta(c, audit), Kind::Delta(d, other)) => c == d && audit == other,
            (Kind::Violation(q, audit), Kind::Violation(r, other)) => q == r && audit == other,
            _ => self.grants_the_same(other),
        }
    }
}

impl Eq for Kind {
    ghost use Rattle.std.specs.Cmp.{decided};
    ghost use Rattle.vet_entries.specs.Kind.{kind_eq};
    ghost use Rattle.vet_entries.specs.KindLaws.{kind_eq-Decides};

    ghost laws = { decided kind_eq kind_eq-Decides };
}
