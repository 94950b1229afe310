//! Changes that a desk has prepared.
ghost use Rattle.std.specs.Prelude.{◌≡◌};
ghost use Rattle.std.specs.Option.{option_copied};
ghost use Rattle.vet_desk.specs.DeskView.{entry_in};

use crate::review::{Review, ReviewState};
use vet_base::keyed::KeyedEdit;
use vet_base::name::Name;
use vet_entries::entry::Entry;

/// The change of an accepted command, to be installed by the desk that prepared it.
#[derive(Drop)]
pub enum DeskChange {
    /// Adds a member.
    Join(KeyedEdit<Name>),
    /// Opens this review.
    Open(Review),
    /// Puts the review at this place into this state.
    Turn(usize, ReviewState),
    /// Finishes the review at this place by this own entry.
    Finish(usize, Entry),
}

impl DeskChange {
    /// The own entry that finishes a review, whether or not an equal one is held. Takes no memory.
    pub fn entry(&self) -> Option<&Entry>
        ensures { option_copied result ≡ entry_in self.now }
    {
        match self {
            DeskChange::Finish(_, entry) => Some(entry),
            _ => None,
        }
    }
}

/// The answer of a desk to a command that is not refused.
#[derive(Drop)]
pub enum DeskStep {
    /// The member or assignment that the command adds is held already.
    Already,
    /// The command is accepted, and makes this change.
    Change(DeskChange),
}
