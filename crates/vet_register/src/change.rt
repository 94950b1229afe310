//! Changes that a register prepared.
ghost use Rattle.std.specs.Option.{option_copied};
ghost use Rattle.std.specs.Prelude.{◌≡◌, Some};
ghost use Rattle.vet_register.specs.Changes.{desk_edited};
ghost use Rattle.vet_register.specs.RegisterView.{IsDeskEdit};

use crate::command::Outcome;
use crate::held::HeldEdit;
use crate::moves::Recording;
use vet_demand::demand::Demand;
use vet_desk::change::DeskChange;
use vet_desk::desk::Desk;
use vet_graph::keeper::Keeper;
use vet_graph::touched::Touched;

/// The change that an accepted command makes at the desk.
pub struct DeskEdit {
    pub change: DeskChange,
    /// The number of the entry, if a review is finished.
    pub entry: Option<u64>,
}

impl Drop for DeskEdit {
    fn drop(self) {
        let DeskEdit {
            change: _,
            entry: _,
        } = self;
    }
}

impl DeskEdit {
    /// Makes the edit, which the desk prepared. Takes no memory.
    pub(crate) fn made_at(self, desk: &mut Desk)
        requires { IsDeskEdit desk.old self }
        ensures { desk.new.content ≡ desk_edited (Some self) desk.old.content }
    {
        let DeskEdit { change, entry } = self;
        desk.install(change, entry);
    }
}

/// The change that an accepted command makes. The register that prepared it installs it.
#[derive(Drop)]
pub struct Change<K: Keeper> {
    pub(crate) edit: HeldEdit,
    // the edit of the desk, if it changes
    pub(crate) desk: Option<DeskEdit>,
    // the demand after the change, unless it is kept
    pub(crate) demand: Option<Demand>,
    pub(crate) update: K::Update,
    pub(crate) recording: Recording,
    pub(crate) step: u64,
    pub(crate) next_entry: u64,
    pub(crate) outcome: Outcome,
}

impl<K: Keeper> Change<K> {
    /// The outcome of the command: its step; the number of the entry that it adds, of the review that it opens, or of
    /// the entry of the review that it finishes; and how many pairs it moves. Takes no memory.
    pub fn outcome(&self) -> Outcome
        ensures { result ≡ self.now.outcome }
    {
        self.outcome
    }

    /// The packages that the command touches, as they were passed to the keeper. Takes no memory.
    pub fn touched(&self) -> &Touched
        ensures { result.now ≡ K.keeping.touched_of self.now.update }
    {
        K::touched(&self.update)
    }
}

impl<K: Keeper> Change<K> {
    /// The edit of what is held. Takes no memory.
    pub fn edit(&self) -> &HeldEdit
        ensures { result.now ≡ self.now.edit }
    {
        &self.edit
    }

    /// The edit of the desk, if it changes. Takes no memory.
    pub fn desk(&self) -> Option<&DeskEdit>
        ensures { option_copied result ≡ self.now.desk }
    {
        self.desk.as_ref()
    }

    /// The moves that are recorded, or the counts with which a period begins. Takes no memory.
    pub fn recording(&self) -> &Recording
        ensures { result.now ≡ self.now.recording }
    {
        &self.recording
    }

    /// The number of accepted commands, including this one. Takes no memory.
    pub fn step(&self) -> u64
        ensures { result ≡ self.now.step }
    {
        self.step
    }

    /// The number that the next entry gets. Takes no memory.
    pub fn next_entry(&self) -> u64
        ensures { result ≡ self.now.next_entry }
    {
        self.next_entry
    }
}

/// A register's answer to a command that is not refused.
#[derive(Drop)]
pub enum Prepared<K: Keeper> {
    /// The thing that it sets or adds is already held; if it is an entry, under this number.
    Already(Option<u64>),
    /// The change that it would make.
    Change(Change<K>),
}
