//! Commands and their outcomes.
ghost use Rattle.std.specs.Prelude.{◌≡◌};
ghost use Rattle.vet_register.specs.Machine.{ends_period};

use vet_base::criterion::Criterion;
use vet_base::day::Day;
use vet_base::name::{Name, PackageName};
use vet_demand::policies::KeyedPolicy;
use vet_demand::policy_key::PolicyKey;
use vet_demand::project::NamedProject;
use vet_desk::command::DeskCommand;
use vet_entries::entry::Entry;
use vet_entries::peer_content::PeerContent;
use vet_entries::peer_settings::PeerSettings;
use vet_entries::publishers::Publishers;
use vet_files::files_content::FilesContent;

/// A command, and the day on which it is given.
pub struct Command {
    pub day: Day,
    pub action: Action,
}

impl Drop for Command {
    fn drop(self) {
        let Command { day: _, action: _ } = self;
    }
}

/// The action that a command asks for.
pub enum Action {
    /// Adds a criterion, or replaces the one of its name.
    SetCriterion(Criterion),
    /// Removes the criterion of this name.
    RemoveCriterion(Name),
    /// Adds an entry as one of the organisation's own, whatever source it names.
    AddEntry(Entry),
    /// Drops the own entry of this number.
    DropEntry(u64),
    /// Adds a peer with nothing imported, or replaces the settings of the one of this name.
    SetPeer(PeerSettings),
    /// Drops the peer of this name, with all that was imported from it.
    DropPeer(Name),
    /// Replaces the content that was imported from the peer of this name. An entry that was imported before keeps its
    /// number. The content's entries become the peer's, whatever source they name.
    ImportPeer(Name, PeerContent),
    /// Replaces the publisher records of a package. If these are none, it has none.
    SetPublishers(PackageName, Publishers),
    /// Adds a policy, or replaces the one of its key.
    SetPolicy(KeyedPolicy),
    /// Drops the policy of this key.
    DropPolicy(PolicyKey),
    /// Adds a project, or replaces the one of its name.
    LoadProject(NamedProject),
    /// Drops the project of this name.
    DropProject(PackageName),
    /// Replaces all that is held by what three files hold, except projects, the desk, own exemptions with a last day
    /// and the register's day. An entry that was held before, of the same source, keeps its number. A peer of the
    /// config file that the imports file lacks is held with nothing imported.
    ReplaceFiles(FilesContent),
    /// A command to the review desk. A review that is finished adds an own entry, unless an equal one is held.
    Desk(DeskCommand),
    /// Begins another period: the present counts become the first counts, and the recorded moves are removed.
    ClosePeriod,
    /// Makes the day of the command the register's day. Exemptions whose last day is before it have lapsed.
    SetDay,
}

impl Drop for Action {
    fn drop(self) {
        match self {
            Action::SetCriterion(_) => {}
            Action::RemoveCriterion(_) => {}
            Action::AddEntry(_) => {}
            Action::DropEntry(_) => {}
            Action::SetPeer(_) => {}
            Action::DropPeer(_) => {}
            Action::ImportPeer(_, _) => {}
            Action::SetPublishers(_, _) => {}
            Action::SetPolicy(_) => {}
            Action::DropPolicy(_) => {}
            Action::LoadProject(_) => {}
            Action::DropProject(_) => {}
            Action::ReplaceFiles(_) => {}
            Action::Desk(_) => {}
            Action::ClosePeriod => {}
            Action::SetDay => {}
        }
    }
}

impl Action {
    /// Whether this action ends the period.
    pub(crate) fn ends_period(&self) -> bool
        ensures { result ≡ ends_period self.now }
    {
        match self {
            Action::ClosePeriod => true,
            _ => false,
        }
    }
}

/// The outcome of a command that was not refused.
#[derive(Clone, Copy, PartialEq, Eq)]
pub enum Outcome {
    /// The command is done.
    Done {
        /// The number of accepted commands, including this one.
        step: u64,
        /// The number of the entry that it added, of the review that it opened, or of the entry of the review that it
        /// finished.
        number: Option<u64>,
        /// The number of pairs that it moved.
        moves: u64,
    },
    /// The thing that it sets or adds is already held; if it is an entry, under this number.
    Already(Option<u64>),
}
