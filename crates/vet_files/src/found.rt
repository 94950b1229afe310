//! The results of readers.
ghost use Rattle.std.specs.Prelude.{◌≡◌, IfOk};
ghost use Rattle.vet_files.specs.Lists.{listed, nothing, found_with};

use crate::listed::Listed;
use crate::notices::Notices;
use std::alloc::{AllocError, Global};

/// The content found in a file, and the counts of what was ignored.
#[derive(Drop)]
pub struct Found<T> {
    pub content: T,
    pub notices: Notices,
}

impl<T: Drop> Found<Listed<T>> {
    /// The result if nothing was found.
    pub(crate) fn nothing(alloc: Global) -> Found<Listed<T>>
        ensures { result ≡ nothing }
    {
        Found {
            content: Listed::new(alloc),
            notices: Notices::none(),
        }
    }

    /// This result, followed by another.
    pub(crate) fn followed_by(self, more: Found<Listed<T>>) -> Result<Found<Listed<T>>, AllocError>
        ensures { IfOk result (λ f. f ≡ found_with self more) }
    {
        Ok(Found {
            content: self.content.followed_by(more.content)?,
            notices: self.notices.and(more.notices)?,
        })
    }

    /// This result, followed by one value or by one that was skipped.
    pub(crate) fn with(self, more: Found<Option<T>>) -> Result<Found<Listed<T>>, AllocError>
        ensures { IfOk result (λ f. f ≡ found_with self (listed more)) }
    {
        Ok(Found {
            content: self.content.with(more.content)?,
            notices: self.notices.and(more.notices)?,
        })
    }
}
