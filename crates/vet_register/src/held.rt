//! Everything that classes and the demand depend on, and its edits, each of which can be undone.
ghost use Rattle.std.specs.Prelude.{◌≡◌, IfErr, IfOk, IsTrue, is_some, true};
ghost use Rattle.vet_base.specs.Criteria.{IsTable};
ghost use Rattle.vet_register.specs.Held.{Fits, HeldEditsFit, HeldRoomItself, HeldRoomOnward, HeldValue, HoldsRoomOf};
ghost use Rattle.vet_register.specs.Held.{content_of, demand_in, edited, keeps_demand, nothing_held, policy_at};
ghost use Rattle.vet_register.specs.Held.{project_at, room_after, room_of, with_policy, with_project, without_policy};
ghost use Rattle.vet_register.specs.Held.{without_project};

use crate::tool_settings::ToolSettings;
use std::alloc::Global;
use vet_base::keyed::{Keyed, KeyedEdit};
use vet_base::name::PackageName;
use vet_base::refusal::Refusal;
use vet_demand::policies::KeyedPolicy;
use vet_demand::policy_key::PolicyKey;
use vet_demand::project::NamedProject;
use vet_entries::facts::{Edit, EntryFacts};
use vet_entries::laws::edits_fit_with_more_room;

/// Facts of packages, policies and projects, and the settings of a config file that are for the tool only.
pub struct Held {
    pub(crate) facts: EntryFacts,
    pub(crate) policies: Keyed<KeyedPolicy>,
    pub(crate) projects: Keyed<NamedProject>,
    pub(crate) settings: ToolSettings,
}

impl Drop for Held {
    fn drop(self) {
        let Held {
            facts: _,
            policies: _,
            projects: _,
            settings: _,
        } = self;
    }
}

/// A change of what is held. It takes no memory.
pub enum HeldEdit {
    /// Nothing changes.
    Nothing,
    /// An edit of the facts of packages.
    Facts(Edit),
    /// An edit of the policies.
    Policies(KeyedEdit<KeyedPolicy>),
    /// An edit of the projects.
    Projects(KeyedEdit<NamedProject>),
    /// Everything that files hold is replaced.
    Files(FilesHeld),
}

impl Drop for HeldEdit {
    fn drop(self) {
        match self {
            HeldEdit::Nothing => {}
            HeldEdit::Facts(_) => {}
            HeldEdit::Policies(_) => {}
            HeldEdit::Projects(_) => {}
            HeldEdit::Files(_) => {}
        }
    }
}

/// Everything that files hold: all that is held except the projects.
#[derive(Drop)]
pub struct FilesHeld {
    pub facts: EntryFacts,
    pub policies: Keyed<KeyedPolicy>,
    pub settings: ToolSettings,
}

impl HeldEdit {
    /// Whether this edit keeps the demand, whatever is held.
    pub(crate) fn keeps_demand(&self) -> bool
        ensures value { result ≡ keeps_demand self.now }
        ensures stays { IsTrue result → (held : HeldValue) → demand_in (edited self.now held) ≡ demand_in held }
    {
        match self {
            HeldEdit::Facts(edit) => edit.keeps_criteria(),
            HeldEdit::Policies(_) => false,
            HeldEdit::Projects(_) => false,
            HeldEdit::Files(_) => false,
            HeldEdit::Nothing => true,
        }
    }

    // Makes the edit, which fits, and returns the one that undoes it. Takes no memory.
    fn made_in(self, held: &mut Held) -> HeldEdit
        requires { Fits self held.old }
        ensures content { content_of held.new ≡ edited self (content_of held.old) }
        ensures fits { Fits result held.new }
        ensures back { edited result (content_of held.new) ≡ content_of held.old }
        ensures undone { room_after result (room_of held.new) ≡ room_of held.old }
        ensures room { room_of held.new ≡ room_after self (room_of held.old) }
    {
        match self {
            HeldEdit::Facts(edit) => HeldEdit::Facts(held.facts.apply(edit)),
            HeldEdit::Policies(edit) => HeldEdit::Policies(held.policies.apply(edit)),
            HeldEdit::Projects(edit) => HeldEdit::Projects(held.projects.apply(edit)),
            HeldEdit::Files(files) => HeldEdit::Files(held.exchange(files)),
            HeldEdit::Nothing => HeldEdit::Nothing,
        }
    }
}

impl Held {
    /// Only the built-in criteria. Refused: `NoMemory`.
    pub(crate) fn new(alloc: Global) -> Result<Held, Refusal>
        ensures ok { IfOk result (λ held. content_of held ≡ nothing_held) }
        ensures table { IfOk result (λ held. IsTable held.facts.content.criteria) }
        ensures memory { IfErr result (λ e. e ≡ Refusal.NoMemory) }
    {
        let facts = EntryFacts::new(alloc)?;
        Ok(Held {
            facts,
            policies: Keyed::new(alloc),
            projects: Keyed::new(alloc),
            settings: ToolSettings::new(),
        })
    }

    /// The edit that sets a copy of a policy under its key, and room for it. Refused: `NoMemory`.
    pub(crate) fn edit_of_policy(&mut self, policy: &KeyedPolicy) -> Result<HeldEdit, Refusal>
        ensures edit { IfOk result (λ e. edited e (content_of self.old) ≡ record (content_of self.old) {
          policies = with_policy policy.now (content_of self.old).policies;
        }) }
        ensures fits { IfOk result (λ e. Fits e self.new) }
        ensures content { content_of self.new ≡ content_of self.old }
        ensures room_stays { HoldsRoomOf (room_of self.old) (room_of self.new) }
        ensures memory { IfErr result (λ e. e ≡ Refusal.NoMemory) }
    {
        if !self.policies.has(&policy.key) {
            self.policies.reserve()?;
        }
        let copy = policy.clone()?;
        Ok(HeldEdit::Policies(self.policies.edit_setting(copy)))
    }

    /// The edit that drops the policy of a key. Asks that it is held. Takes no memory.
    pub(crate) fn edit_dropping_policy(&self, key: &PolicyKey) -> HeldEdit
        requires { is_some (policy_at (content_of self.now).policies key.now) ≡ true }
        ensures edit { edited result (content_of self.now) ≡ record (content_of self.now) {
          policies = without_policy key.now (content_of self.now).policies;
        } }
        ensures fits { Fits result self.now }
    {
        match self.policies.edit_dropping(key) {
            Some(edit) => HeldEdit::Policies(edit),
            None => unreachable!(),
        }
    }

    /// The edit that sets a project under its name, and room for it. Refused: `NoMemory`, but never if the name is
    /// held.
    pub(crate) fn edit_of_project(&mut self, project: NamedProject) -> Result<HeldEdit, Refusal>
        ensures edit { IfOk result (λ e. edited e (content_of self.old) ≡ record (content_of self.old) {
          projects = with_project project (content_of self.old).projects;
        }) }
        ensures fits { IfOk result (λ e. Fits e self.new) }
        ensures content { content_of self.new ≡ content_of self.old }
        ensures room_stays { HoldsRoomOf (room_of self.old) (room_of self.new) }
        ensures memory { IfErr result (λ e. e ≡ Refusal.NoMemory) }
    {
        if !self.projects.has(&project.name) {
            self.projects.reserve()?;
        }
        Ok(HeldEdit::Projects(self.projects.edit_setting(project)))
    }

    /// The edit that drops the project of a name. Asks that it is held. Takes no memory.
    pub(crate) fn edit_dropping_project(&self, name: &PackageName) -> HeldEdit
        requires { is_some (project_at (content_of self.now).projects name.now) ≡ true }
        ensures edit { edited result (content_of self.now) ≡ record (content_of self.now) {
          projects = without_project name.now (content_of self.now).projects;
        } }
        ensures fits { Fits result self.now }
    {
        match self.projects.edit_dropping(name) {
            Some(edit) => HeldEdit::Projects(edit),
            None => unreachable!(),
        }
    }

    /// Makes an edit that fits, and returns the one that undoes it. Takes no memory.
    pub(crate) fn apply(&mut self, edit: HeldEdit) -> HeldEdit
        requires { Fits edit self.old }
        ensures content { content_of self.new ≡ edited edit (content_of self.old) }
        ensures fits { Fits result self.new }
        ensures back { edited result (content_of self.new) ≡ content_of self.old }
        ensures undone { room_after result (room_of self.new) ≡ room_of self.old }
        ensures room { room_of self.new ≡ room_after edit (room_of self.old) }
    {
        edit.made_in(self)
    }

    // Replaces everything that files hold, and returns what was held. Takes no memory.
    fn exchange(&mut self, files: FilesHeld) -> FilesHeld
        ensures facts { self.new.facts ≡ files.facts }
        ensures policies { self.new.policies ≡ files.policies }
        ensures settings { self.new.settings ≡ files.settings }
        ensures projects { self.new.projects ≡ self.old.projects }
        ensures before { result
            ≡ record { facts = self.old.facts; policies = self.old.policies; settings = self.old.settings } }
    {
        FilesHeld {
            facts: std::mem::replace(&mut self.facts, files.facts),
            policies: std::mem::replace(&mut self.policies, files.policies),
            settings: std::mem::replace(&mut self.settings, files.settings),
        }
    }
}

/// An edit that fits still fits if the same is held and no room is lost. No room is lost if nothing happens, nor by one
/// thing after another if neither loses any. Does nothing.
pub(crate) fn held_edits_fit_with_more_room()
    ensures fits { HeldEditsFit }
    ensures itself { HeldRoomItself }
    ensures onward { HeldRoomOnward }
{
    edits_fit_with_more_room();
}
