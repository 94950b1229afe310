//! Counts of what a reader ignored.
ghost use Rattle.std.specs.Prelude.{◌≡◌, ◌+◌, IfOk};
ghost use Rattle.vet_files.specs.Notices.{no_notices, one_key, one_skipped, only_doubles, sum_of_notices};

use std::alloc::AllocError;

/// The numbers of things that a reader ignored in a file.
#[derive(Clone, Copy, PartialEq, Eq)]
pub struct Notices {
    /// Unknown keys, each counted once with all that is below it.
    pub keys: u64,
    /// Entries and records that were skipped without being read.
    pub skipped: u64,
    /// Entries and records that equal an earlier one.
    pub doubles: u64,
}

impl Notices {
    /// Nothing was ignored.
    pub fn none() -> Notices
        ensures { result ≡ no_notices }
    {
        Notices {
            keys: 0,
            skipped: 0,
            doubles: 0,
        }
    }

    /// One key was ignored, with all that is below it.
    pub(crate) fn key() -> Notices
        ensures { result ≡ one_key }
    {
        Notices {
            keys: 1,
            skipped: 0,
            doubles: 0,
        }
    }

    /// One entry or record was skipped.
    pub(crate) fn skipped() -> Notices
        ensures { result ≡ one_skipped }
    {
        Notices {
            keys: 0,
            skipped: 1,
            doubles: 0,
        }
    }

    /// This many entries or records equal an earlier one.
    pub(crate) fn doubles(count: usize) -> Notices
        ensures { result ≡ only_doubles count }
    {
        Notices {
            keys: 0,
            skipped: 0,
            doubles: count as u64,
        }
    }

    /// The sum of both. Fails if a count would be greater than 2^64 - 1; no memory holds a file for which it would.
    pub(crate) fn and(self, other: Notices) -> Result<Notices, AllocError>
        ensures { IfOk result (λ n. n ≡ sum_of_notices self other) }
    {
        Ok(Notices {
            keys: sum(self.keys, other.keys)?,
            skipped: sum(self.skipped, other.skipped)?,
            doubles: sum(self.doubles, other.doubles)?,
        })
    }

    /// The sum of all three. Fails as `and` does.
    pub(crate) fn and_both(self, other: Notices, further: Notices) -> Result<Notices, AllocError>
        ensures { IfOk result (λ n. n ≡ sum_of_notices (sum_of_notices self other) further) }
    {
        self.and(other)?.and(further)
    }
}

fn sum(a: u64, b: u64) -> Result<u64, AllocError>
    ensures { IfOk result (λ n. n ≡ a + b) }
{
    match a.checked_add(b) {
        Some(sum) => Ok(sum),
        None => Err(AllocError),
    }
}
