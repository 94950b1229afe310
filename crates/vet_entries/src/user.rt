//! Users of crates.io, by their numbers.
ghost use Rattle.std.specs.Prelude.{◌≡◌, ◌↔◌, ◌<◌, ◌≤◌, IsTrue, IfSome, IsNone, nat_eq, refl};
ghost use Rattle.std.specs.Cmp.{nat_cmp_total, nat_eq_equiv, partial_equiv_from_equiv, unsigned_po, unsigned_ties};
ghost use Rattle.std.specs.Ordering.{as_partial_cmp, nat_cmp};

use std::cmp::Ordering;
use std::marker::Model;

/// The greatest number of a user, 2^63 - 1.
pub const LAST_USER: u64 = 9_223_372_036_854_775_807;

/// A user of crates.io (The Cargo Vet Book, wildcard audits): a number from 0 to 2^63 - 1. Users are equal,
/// and ordered, by their numbers.
#[derive(Clone, Copy)]
pub struct User {
    number: u64,
}

impl Model for User {
    ghost use Rattle.std.specs.Prelude.{ℕ, ◌≤◌};
    ghost use Rattle.vet_entries.specs.declared.user.TheConstants.{LAST_USER};

    ghost Value = { ℕ };

    ghost view = { λ u. u.number };

    ghost invariant = { λ u. u.number ≤ LAST_USER };

    ghost inverse = { λ n. record { number = n } };
}

impl User {
    /// The user with a number, or `None` if the number is greater than 2^63 - 1.
    pub fn new(number: u64) -> Option<User>
        ensures past { IsNone result ↔ (LAST_USER < number) }
        ensures number { IfSome result (λ user. user ≡ number) }
    {
        if number > LAST_USER {
            return None;
        }
        Some(User { number })
    }

    /// The user's number, from 0 to 2^63 - 1.
    pub fn number(self) -> u64
        ensures value { result ≡ self }
        ensures small { result ≤ LAST_USER }
    {
        self.number
    }
}

impl PartialEq for User {
    ghost eq = { nat_eq };

    ghost laws = { partial_equiv_from_equiv nat_eq_equiv };

    fn eq(&self, other: &User) -> bool
        ensures value { result ≡ nat_eq self.now other.now }
        ensures same { IsTrue result ↔ (self.now ≡ other.now) }
    {
        self.number == other.number
    }
}

impl Eq for User {
    ghost laws = { nat_eq_equiv };
}

impl PartialOrd for User {
    ghost partial_cmp = { as_partial_cmp nat_cmp };

    ghost laws = { unsigned_po };

    fn partial_cmp(&self, other: &User) -> Option<Ordering> {
        Some(self.cmp(other))
    }
}

impl Ord for User {
    ghost cmp = { nat_cmp };

    ghost total = { nat_cmp_total };

    ghost matches_partial_cmp = { λ a b. refl };

    ghost matches_eq = { unsigned_ties };

    fn cmp(&self, other: &User) -> Ordering {
        self.number.cmp(&other.number)
    }
}
