//! The edit that an accepted command makes of what is held: one function for each command, which finds the verdict, and
//! then the edit and room for it. Everything that is held stays as it is.
ghost use Rattle.std.specs.Prelude.{◌≡◌, ◌<◌, ◌+◌, ◌^◌, ◌++◌, Ok, IfOk, IfErr, map as mapped};
ghost use Rattle.std.specs.FinMap as map;
ghost use Rattle.vet_base.specs.Criteria.{IsTable};
ghost use Rattle.vet_base.specs.CriteriaChanges.{remove_verdict, set_verdict};
ghost use Rattle.vet_base.specs.Day.{DayValue};
ghost use Rattle.vet_entries.specs.Facts.{IsHeld};
ghost use Rattle.vet_entries.specs.HeldPeer.{imported};
ghost use Rattle.vet_entries.specs.Import.{compared};
ghost use Rattle.vet_register.specs.Machine.{held_of};
ghost use Rattle.vet_register.specs.declared.command.Action.TheVariants as action;
ghost use Rattle.vet_register.specs.RegisterView.{Asks, KeepsRoom};
ghost use Rattle.vet_register.specs.Touches.{entry_package, only_at, packages_of_peer};
ghost use Rattle.vet_register.specs.declared.touching.Touching.TheVariants as touch;
ghost use Rattle.vet_register.specs.Verdict.{judged};

use crate::change::DeskEdit;
use crate::command::{Action, Command};
use crate::files_held::files_held;
use crate::held::HeldEdit;
use crate::register::Register;
use crate::touching::{Touching, entries_touched, none_touched, package_touched};
use crate::verdict::Answer;
use std::alloc::{AllocError, Global};
use vet_base::criteria_table::CriteriaTable;
use vet_base::criterion::Criterion;
use vet_base::day::Day;
use vet_base::name::{Name, PackageName};
use vet_base::refusal::Refusal;
use vet_demand::policies::KeyedPolicy;
use vet_demand::policy_key::PolicyKey;
use vet_demand::project::NamedProject;
use vet_entries::entry::Entry;
use vet_entries::holding::Holding;
use vet_entries::import::{Comparison, holding_after};
use vet_entries::peer_content::PeerContent;
use vet_entries::peer_settings::PeerSettings;
use vet_entries::publishers::Publishers;
use vet_files::files_content::FilesContent;
use vet_graph::keeper::Keeper;
use vet_graph::touched::Touched;

/// The edits that a command makes of what is held and of the desk, if that changes; the packages that are touched; the
/// number in the command's outcome, and the next number of an entry after it.
#[derive(Drop)]
pub struct Effect {
    pub(crate) edit: HeldEdit,
    pub(crate) touching: Touching,
    pub(crate) desk: Option<DeskEdit>,
    pub(crate) number: Option<u64>,
    pub(crate) next_entry: u64,
}

/// The effect that an action has on a register, if any.
#[derive(Drop)]
pub enum Asked {
    /// No effect: the thing that it sets or adds is already held; if it is an entry, under this number.
    Already(Option<u64>),
    /// This effect.
    Effect(Effect),
}

impl<K: Keeper> Register<K> {
    /// The effect that a command has on the register, and room for it.
    pub(crate) fn asked_by(&mut self, alloc: Global, command: &Command) -> Result<Asked, Refusal>
        ensures asked { Asks self.old.state self.new command.now.day command.now.action
            (judged self.old.state command.now.day command.now.action) result }
        ensures state { self.new.state ≡ self.old.state }
        ensures keeper { self.new.keeper ≡ self.old.keeper }
        ensures room_stays { KeepsRoom self.old self.new }
    {
        match &command.action {
            Action::SetCriterion(criterion) => self.set_criterion(criterion),
            Action::RemoveCriterion(name) => self.remove_criterion(name),
            Action::AddEntry(entry) => self.add_entry(alloc, command.day, entry),
            Action::DropEntry(number) => self.drop_entry(alloc, *number),
            Action::SetPeer(settings) => self.set_peer(alloc, settings),
            Action::DropPeer(name) => self.drop_peer(alloc, name),
            Action::ImportPeer(name, content) => self.import_peer(alloc, name, content),
            Action::SetPublishers(package, publishers) => {
                self.set_publishers(alloc, package, publishers)
            }
            Action::SetPolicy(policy) => self.set_policy(policy),
            Action::DropPolicy(key) => self.drop_policy(key),
            Action::LoadProject(project) => self.load_project(project),
            Action::DropProject(name) => self.drop_project(name),
            Action::ReplaceFiles(files) => self.replace_files(alloc, files),
            Action::Desk(asked) => self.ask_desk(alloc, command.day, asked),
            Action::ClosePeriod => self.close_period(alloc),
            Action::SetDay => self.set_day(alloc, command.day),
        }
    }

    fn set_criterion(&mut self, criterion: &Criterion) -> Result<Asked, Refusal>
        ensures asked { (day : DayValue) → Asks self.old.state self.new day (action.SetCriterion criterion.now)
            (judged self.old.state day (action.SetCriterion criterion.now)) result }
        ensures state { self.new.state ≡ self.old.state }
        ensures keeper { self.new.keeper ≡ self.old.keeper }
        ensures room_stays { KeepsRoom self.old self.new }
    {
        if let Answer::Already(number) = self.judge_criterion(criterion)? {
            return Ok(Asked::Already(number));
        }
        let table = with_criterion(self.held.facts.criteria(), criterion)?;
        Ok(Asked::Effect(Effect {
            edit: HeldEdit::Facts(self.held.facts.edit_of_criteria(table)),
            touching: Touching::Known(Touched::All),
            desk: None,
            number: None,
            next_entry: self.next_entry,
        }))
    }

    fn remove_criterion(&mut self, name: &Name) -> Result<Asked, Refusal>
        ensures asked { (day : DayValue) → Asks self.old.state self.new day (action.RemoveCriterion name.now)
            (judged self.old.state day (action.RemoveCriterion name.now)) result }
        ensures state { self.new.state ≡ self.old.state }
        ensures keeper { self.new.keeper ≡ self.old.keeper }
        ensures room_stays { KeepsRoom self.old self.new }
    {
        self.judge_removal(name)?;
        let table = without_criterion(self.held.facts.criteria(), name)?;
        Ok(Asked::Effect(Effect {
            edit: HeldEdit::Facts(self.held.facts.edit_of_criteria(table)),
            touching: Touching::Known(Touched::All),
            desk: None,
            number: None,
            next_entry: self.next_entry,
        }))
    }

    fn add_entry(&mut self, alloc: Global, day: Day, entry: &Entry) -> Result<Asked, Refusal>
        ensures asked { Asks self.old.state self.new day (action.AddEntry entry.now)
            (judged self.old.state day (action.AddEntry entry.now)) result }
        ensures state { self.new.state ≡ self.old.state }
        ensures keeper { self.new.keeper ≡ self.old.keeper }
        ensures room_stays { KeepsRoom self.old self.new }
    {
        if let Answer::Already(number) = self.judge_entry(day, entry)? {
            return Ok(Asked::Already(number));
        }
        let own = entry.to_own()?;
        let touching = package_touched(alloc, &entry.package)?;
        Ok(Asked::Effect(Effect {
            edit: HeldEdit::Facts(self.held.facts.edit_adding(self.next_entry, own)?),
            touching,
            desk: None,
            number: Some(self.next_entry),
            next_entry: self.next_entry + 1,
        }))
    }

    fn drop_entry(&mut self, alloc: Global, number: u64) -> Result<Asked, Refusal>
        ensures asked { (day : DayValue) → Asks self.old.state self.new day (action.DropEntry number)
            (judged self.old.state day (action.DropEntry number)) result }
        ensures state { self.new.state ≡ self.old.state }
        ensures keeper { self.new.keeper ≡ self.old.keeper }
        ensures room_stays { KeepsRoom self.old self.new }
    {
        let place = self.judge_drop(number)?;
        let dropped = &self.held.facts.entries()[place];
        let touching = package_touched(alloc, &dropped.entry.package)?;
        Ok(Asked::Effect(Effect {
            edit: HeldEdit::Facts(self.held.facts.edit_dropping(place)),
            touching,
            desk: None,
            number: None,
            next_entry: self.next_entry,
        }))
    }

    fn set_peer(&mut self, alloc: Global, settings: &PeerSettings) -> Result<Asked, Refusal>
        ensures asked { (day : DayValue) → Asks self.old.state self.new day (action.SetPeer settings.now)
            (judged self.old.state day (action.SetPeer settings.now)) result }
        ensures state { self.new.state ≡ self.old.state }
        ensures keeper { self.new.keeper ≡ self.old.keeper }
        ensures room_stays { KeepsRoom self.old self.new }
    {
        if let Answer::Already(number) = self.judge_settings(settings)? {
            return Ok(Asked::Already(number));
        }
        let touching = self.peer_touched(alloc, &settings.name, &[])?;
        let copy = settings.clone()?;
        Ok(Asked::Effect(Effect {
            edit: HeldEdit::Facts(self.held.facts.edit_of_settings(alloc, copy)?),
            touching,
            desk: None,
            number: None,
            next_entry: self.next_entry,
        }))
    }

    fn drop_peer(&mut self, alloc: Global, name: &Name) -> Result<Asked, Refusal>
        ensures asked { (day : DayValue) → Asks self.old.state self.new day (action.DropPeer name.now)
            (judged self.old.state day (action.DropPeer name.now)) result }
        ensures state { self.new.state ≡ self.old.state }
        ensures keeper { self.new.keeper ≡ self.old.keeper }
        ensures room_stays { KeepsRoom self.old self.new }
    {
        self.judge_peer_drop(name)?;
        let touching = self.peer_touched(alloc, name, &[])?;
        Ok(Asked::Effect(Effect {
            edit: HeldEdit::Facts(self.held.facts.edit_dropping_peer(name)),
            touching,
            desk: None,
            number: None,
            next_entry: self.next_entry,
        }))
    }

    fn import_peer(
        &mut self,
        alloc: Global,
        name: &Name,
        content: &PeerContent,
    ) -> Result<Asked, Refusal>
        ensures asked { (day : DayValue) → Asks self.old.state self.new day (action.ImportPeer name.now content.now)
            (judged self.old.state day (action.ImportPeer name.now content.now)) result }
        ensures state { self.new.state ≡ self.old.state }
        ensures keeper { self.new.keeper ≡ self.old.keeper }
        ensures room_stays { KeepsRoom self.old self.new }
    {
        let _ = content.entries();
        let Some(comparison) = self.judge_import(alloc, name, content)? else {
            return Ok(Asked::Already(None));
        };
        let next_entry = self.next_entry + comparison.new_count() as u64;
        let after = self.holding_after(alloc, name, content, &comparison)?;
        let touching = self.peer_touched(alloc, name, content.entries())?;
        let copy = copied(name)?;
        Ok(Asked::Effect(Effect {
            edit: HeldEdit::Facts(self.held.facts.edit_of_content(copy, after)),
            touching,
            desk: None,
            number: None,
            next_entry,
        }))
    }

    // The packages of a peer's held entries, and of other entries, are touched.
    fn peer_touched(
        &self,
        alloc: Global,
        name: &Name,
        others: &[Entry],
    ) -> Result<Touching, Refusal>
        ensures ok { IfOk result (λ t. t ≡ touch.Known
            (only_at (packages_of_peer self.now.state.held.facts name.now ++ mapped entry_package others.now))) }
        ensures memory { IfErr result (λ e. e ≡ Refusal.NoMemory) }
    {
        match self.held.facts.peer(name) {
            Some(peer) => entries_touched(alloc, peer.content.entries(), others),
            None => entries_touched(alloc, &[], others),
        }
    }

    // The holding of a peer after an import.
    fn holding_after(
        &self,
        alloc: Global,
        name: &Name,
        content: &PeerContent,
        comparison: &Comparison,
    ) -> Result<Holding, Refusal>
        requires held { IsHeld name.now self.now.state.held.facts }
        requires compared { comparison.now
            ≡ compared name.now (held_of self.now.state.held.facts name.now) content.now }
        requires numbers { self.now.state.next_entry + comparison.now.new_count < 2 ^ 64 }
        ensures ok { IfOk result (λ h. h ≡ imported name.now self.now.state.next_entry content.now
            (held_of self.now.state.held.facts name.now)) }
        ensures memory { IfErr result (λ e. e ≡ Refusal.NoMemory) }
    {
        self.state_is_sound();
        match self.held.facts.peer(name) {
            Some(peer) => holding_after(
                alloc,
                name,
                self.next_entry,
                &peer.content,
                content,
                comparison,
            ),
            None => unreachable!(),
        }
    }

    fn set_publishers(
        &mut self,
        alloc: Global,
        package: &PackageName,
        publishers: &Publishers,
    ) -> Result<Asked, Refusal>
        ensures asked { (day : DayValue) → Asks self.old.state self.new day
            (action.SetPublishers «package».now publishers.now)
            (judged self.old.state day (action.SetPublishers «package».now publishers.now)) result }
        ensures state { self.new.state ≡ self.old.state }
        ensures keeper { self.new.keeper ≡ self.old.keeper }
        ensures room_stays { KeepsRoom self.old self.new }
    {
        if let Answer::Already(number) = self.judge_publishers(package, publishers)? {
            return Ok(Asked::Already(number));
        }
        let touching = package_touched(alloc, package)?;
        self.held.facts.records_stay_in_order(package, publishers);
        Ok(Asked::Effect(Effect {
            edit: HeldEdit::Facts(self.held.facts.publishers_edit(package, publishers)?),
            touching,
            desk: None,
            number: None,
            next_entry: self.next_entry,
        }))
    }

    fn set_policy(&mut self, policy: &KeyedPolicy) -> Result<Asked, Refusal>
        ensures asked { (day : DayValue) → Asks self.old.state self.new day (action.SetPolicy policy.now)
            (judged self.old.state day (action.SetPolicy policy.now)) result }
        ensures state { self.new.state ≡ self.old.state }
        ensures keeper { self.new.keeper ≡ self.old.keeper }
        ensures room_stays { KeepsRoom self.old self.new }
    {
        if let Answer::Already(number) = self.judge_policy(policy)? {
            return Ok(Asked::Already(number));
        }
        Ok(Asked::Effect(Effect {
            edit: self.held.edit_of_policy(policy)?,
            touching: Touching::ByDemand,
            desk: None,
            number: None,
            next_entry: self.next_entry,
        }))
    }

    fn drop_policy(&mut self, key: &PolicyKey) -> Result<Asked, Refusal>
        ensures asked { (day : DayValue) → Asks self.old.state self.new day (action.DropPolicy key.now)
            (judged self.old.state day (action.DropPolicy key.now)) result }
        ensures state { self.new.state ≡ self.old.state }
        ensures keeper { self.new.keeper ≡ self.old.keeper }
        ensures room_stays { KeepsRoom self.old self.new }
    {
        self.judge_policy_drop(key)?;
        Ok(Asked::Effect(Effect {
            edit: self.held.edit_dropping_policy(key),
            touching: Touching::ByDemand,
            desk: None,
            number: None,
            next_entry: self.next_entry,
        }))
    }

    fn load_project(&mut self, project: &NamedProject) -> Result<Asked, Refusal>
        ensures asked { (day : DayValue) → Asks self.old.state self.new day (action.LoadProject project.now)
            (judged self.old.state day (action.LoadProject project.now)) result }
        ensures state { self.new.state ≡ self.old.state }
        ensures keeper { self.new.keeper ≡ self.old.keeper }
        ensures room_stays { KeepsRoom self.old self.new }
    {
        if let Answer::Already(number) = self.judge_project(project)? {
            return Ok(Asked::Already(number));
        }
        let copy = project.clone()?;
        Ok(Asked::Effect(Effect {
            edit: self.held.edit_of_project(copy)?,
            touching: Touching::ByDemand,
            desk: None,
            number: None,
            next_entry: self.next_entry,
        }))
    }

    fn drop_project(&mut self, name: &PackageName) -> Result<Asked, Refusal>
        ensures asked { (day : DayValue) → Asks self.old.state self.new day (action.DropProject name.now)
            (judged self.old.state day (action.DropProject name.now)) result }
        ensures state { self.new.state ≡ self.old.state }
        ensures keeper { self.new.keeper ≡ self.old.keeper }
        ensures room_stays { KeepsRoom self.old self.new }
    {
        self.judge_project_drop(name)?;
        Ok(Asked::Effect(Effect {
            edit: self.held.edit_dropping_project(name),
            touching: Touching::ByDemand,
            desk: None,
            number: None,
            next_entry: self.next_entry,
        }))
    }

    fn replace_files(&mut self, alloc: Global, files: &FilesContent) -> Result<Asked, Refusal>
        ensures asked { (day : DayValue) → Asks self.old.state self.new day (action.ReplaceFiles files.now)
            (judged self.old.state day (action.ReplaceFiles files.now)) result }
        ensures state { self.new.state ≡ self.old.state }
        ensures keeper { self.new.keeper ≡ self.old.keeper }
        ensures room_stays { KeepsRoom self.old self.new }
    {
        files.is_of_files();
        let Some(comparison) = self.judge_files(alloc, files)? else {
            return Ok(Asked::Already(None));
        };
        let next_entry = self.next_entry + comparison.new_count() as u64;
        let held = files_held(alloc, self.next_entry, &self.held.facts, files, &comparison)?;
        Ok(Asked::Effect(Effect {
            edit: HeldEdit::Files(held),
            touching: Touching::Known(Touched::All),
            desk: None,
            number: None,
            next_entry,
        }))
    }

    fn close_period(&self, alloc: Global) -> Result<Asked, Refusal>
        ensures { (day : DayValue) → Asks self.now.state self.now day action.ClosePeriod
            (judged self.now.state day action.ClosePeriod) result }
    {
        self.check_step()?;
        Ok(Asked::Effect(Effect {
            edit: HeldEdit::Nothing,
            touching: none_touched(alloc),
            desk: None,
            number: None,
            next_entry: self.next_entry,
        }))
    }
}

// A copy of a table with a criterion added, or in place of the one of its name.
fn with_criterion(table: &CriteriaTable, criterion: &Criterion) -> Result<CriteriaTable, Refusal>
    requires { set_verdict table.now criterion.now ≡ Ok tt }
    ensures ok { IfOk result (λ t. t ≡ map.insert table.now criterion.now.name criterion.now) }
    ensures table { IfOk result IsTable }
    ensures memory { IfErr result (λ e. e ≡ Refusal.NoMemory) }
{
    let mut copy = table.clone()?;
    copy.set(criterion.clone()?)?;
    Ok(copy)
}

// A copy of a table without a criterion.
fn without_criterion(table: &CriteriaTable, name: &Name) -> Result<CriteriaTable, Refusal>
    requires { remove_verdict table.now name.now ≡ Ok tt }
    ensures ok { IfOk result (λ t. t ≡ map.remove table.now name.now) }
    ensures table { IfOk result IsTable }
    ensures memory { IfErr result (λ e. e ≡ Refusal.NoMemory) }
{
    let mut copy = table.clone()?;
    copy.remove(name.clone()?)?;
    Ok(copy)
}

// A copy of a name.
fn copied(name: &Name) -> Result<Name, AllocError>
    ensures { IfOk result (λ copy. copy ≡ name.now) }
{
    name.clone()
}
