//! Records of who published a version, and when.
ghost use Rattle.std.specs.Prelude.{◌≡◌, ◌↔◌, IfOk, IsTrue, refl};
ghost use Rattle.std.specs.Cmp.{eq_by_cmp_equiv, partial_equiv_from_equiv, partial_order_from_total};
ghost use Rattle.std.specs.Option.{option_cmp};
ghost use Rattle.std.specs.Ordering.{as_partial_cmp, nat_cmp};
ghost use Rattle.std.specs.Cmp.Lexicographic.{slice_cmp};
ghost use Rattle.vet_entries.specs.Publisher.{calendar_cmp, publisher_cmp, publisher_eq};
ghost use Rattle.vet_entries.specs.PublisherLaws.{publisher_total};

use crate::user::User;
use std::alloc::AllocError;
use std::cmp::Ordering;
use vet_base::day::Day;
use vet_base::text::Text;
use vet_base::version::VetVersion;

/// A record that a user of crates.io published a version of a package on a day (The Cargo Vet Book, wildcard audits).
/// The package is known from the list that holds the record. Records are ordered by version, day, user, login and name.
/// An absent login or name comes before any other, and texts are ordered by their bytes.
pub struct Publisher {
    pub version: VetVersion,
    pub user: User,
    pub day: Day,
    /// The user's name at crates.io.
    pub login: Option<Text>,
    /// The user's name in full.
    pub name: Option<Text>,
}

impl Drop for Publisher {
    fn drop(self) {
        let Publisher {
            version: _,
            user: _,
            day: _,
            login: _,
            name: _,
        } = self;
    }
}

impl Clone for Publisher {
    ghost use Rattle.std.specs.Prelude.{◌≡◌};

    ghost is_clone = { λ a b. b ≡ a };

    fn clone(&self) -> Result<Publisher, AllocError> {
        Ok(Publisher {
            version: self.version.clone()?,
            user: self.user,
            day: self.day,
            login: text_copied(&self.login)?,
            name: text_copied(&self.name)?,
        })
    }
}

impl PartialEq for Publisher {
    ghost eq = { publisher_eq };

    ghost laws = { partial_equiv_from_equiv (eq_by_cmp_equiv publisher_total) };

    // A record ties only with itself.
    fn eq(&self, other: &Publisher) -> bool
        ensures value { result ≡ publisher_eq self.now other.now }
        ensures same { IsTrue result ↔ (self.now ≡ other.now) }
    {
        self.cmp(other).is_eq()
    }
}

impl Eq for Publisher {
    ghost laws = { eq_by_cmp_equiv publisher_total };
}

impl PartialOrd for Publisher {
    ghost partial_cmp = { as_partial_cmp publisher_cmp };

    ghost laws = { partial_order_from_total publisher_total };

    fn partial_cmp(&self, other: &Publisher) -> Option<Ordering> {
        Some(self.cmp(other))
    }
}

impl Ord for Publisher {
    ghost cmp = { publisher_cmp };

    ghost total = { publisher_total };

    ghost matches_partial_cmp = { λ a b. refl };

    ghost matches_eq = { λ a b. refl };

    fn cmp(&self, other: &Publisher) -> Ordering {
        self.version
            .cmp(&other.version)
            .then(day_cmp(self.day, other.day))
            .then(self.user.cmp(&other.user))
            .then(text_cmp(&self.login, &other.login))
            .then(text_cmp(&self.name, &other.name))
    }
}

// Compares two days by their numbers. Each number names one day.
pub(crate) fn day_cmp(a: Day, b: Day) -> Ordering
    ensures { result ≡ calendar_cmp a b }
{
    if a == b {
        return Ordering::Equal;
    }
    a.cmp(&b)
}

// Compares two texts by their bytes. An absent one comes first.
pub(crate) fn text_cmp(a: &Option<Text>, b: &Option<Text>) -> Ordering
    ensures { result ≡ option_cmp (slice_cmp nat_cmp) a.now b.now }
{
    match (a, b) {
        (None, None) => Ordering::Equal,
        (None, Some(_)) => Ordering::Less,
        (Some(_), None) => Ordering::Greater,
        (Some(a), Some(b)) => a.cmp(b),
    }
}

// A copy of a text, if there is one.
fn text_copied(text: &Option<Text>) -> Result<Option<Text>, AllocError>
    ensures { IfOk result (λ copy. copy ≡ text.now) }
{
    match text {
        Some(text) => Ok(Some(text.clone()?)),
        None => Ok(None),
    }
}
