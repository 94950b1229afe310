//! The verdict on a command before its moves are known: one function for each command. Each checks first whether the
//! content is held already, then the limits, then what the command refers to, then the rules.
ghost use Rattle.std.specs.Prelude.{◌≡◌, ◌≤◌, ◌+◌, ◌+ℤ◌, pos, not, length, Err, None, Ok, IfErr, IfOk, IsOk, Some};
ghost use Rattle.std.specs.List.{list_any};
ghost use Rattle.std.specs.Option.{option_copied};
ghost use Rattle.std.specs.Ordering.{int_cmp, is_lt};
ghost use Rattle.vet_base.specs.CriteriaChanges.{known, set_rules};
ghost use Rattle.vet_base.specs.Day.{DayValue, day_number};
ghost use Rattle.vet_base.specs.Gives.{Answers, Refuses, refuse_if};
ghost use Rattle.vet_entries.specs.Facts.{entries_total};
ghost use Rattle.vet_entries.specs.HeldPeer.{peer_of};
ghost use Rattle.vet_entries.specs.Numbered.{place_of};
ghost use Rattle.vet_register.specs.declared.command.Action.TheVariants as action;
ghost use Rattle.vet_register.specs.Importing.{IsJudgedImport};
ghost use Rattle.vet_register.specs.Already.{has_policy, has_project, has_settings, is_held};
ghost use Rattle.vet_register.specs.Verdict.{checked, entries_beside, entry_limit, held_peer, held_policy};
ghost use Rattle.vet_register.specs.Verdict.{held_project, import_limits, is_used, judged, kind_rules, number_limit};
ghost use Rattle.vet_register.specs.Verdict.{peer_limit, policy_limit, project_limit, publisher_limit, step_limit};
ghost use Rattle.vet_register.specs.Verdict.{window_rules};

use crate::register::Register;
use std::alloc::Global;
use vet_base::criteria_table::{CriteriaTable, is_built_in};
use vet_base::criterion::Criterion;
use vet_base::day::Day;
use vet_base::limits::{
    LAST_NUMBER, LAST_STEP, MOST_ENTRIES, MOST_PEERS, MOST_POLICIES, MOST_PROJECTS,
    MOST_PUBLISHERS, MOST_WINDOW_DAYS,
};
use vet_base::name::{Name, PackageName};
use vet_base::refusal::{Limit, Refusal};
use vet_demand::policies::KeyedPolicy;
use vet_demand::policy_key::PolicyKey;
use vet_demand::policy_names::{least_unknown_of, names_criterion};
use vet_demand::project::NamedProject;
use vet_entries::entry::Entry;
use vet_entries::facts::EntryFacts;
use vet_entries::import::{Comparison, compare};
use vet_entries::kind::{Kind, Window, is_over};
use vet_entries::peer_content::PeerContent;
use vet_entries::peer_settings::PeerSettings;
use vet_entries::publishers::Publishers;
use vet_graph::keeper::Keeper;

/// The verdict on a command that is not refused.
#[derive(Clone, Copy, PartialEq, Eq)]
pub enum Answer {
    /// The thing that it sets or adds is already held; if it is an entry, under this number.
    Already(Option<u64>),
    /// It is accepted.
    Accepted,
}

impl<K: Keeper> Register<K> {
    /// The verdict on setting a criterion.
    pub(crate) fn judge_criterion(&self, criterion: &Criterion) -> Result<Answer, Refusal>
        ensures { (day : DayValue)
            → Answers (judged self.now.state day (action.SetCriterion criterion.now)) result }
    {
        let criteria = self.held.facts.criteria();
        if is_held(criteria, criterion) {
            return Ok(Answer::Already(None));
        }
        if criteria.is_full_for(&criterion.name) {
            return Err(Refusal::TooManyCriteria);
        }
        self.check_step()?;
        check_known(criteria.unknown_beside(criterion))?;
        check_built_in(&criterion.name)?;
        Ok(Answer::Accepted)
    }

    /// Whether the criterion of a name may be removed.
    pub(crate) fn judge_removal(&self, name: &Name) -> Result<(), Refusal>
        ensures { (day : DayValue)
            → Answers (checked self.now.state day (action.RemoveCriterion name.now)) result }
    {
        let criteria = self.held.facts.criteria();
        self.check_step()?;
        if !criteria.has(name) {
            return Err(Refusal::UnknownCriterion(name.clone()?));
        }
        check_built_in(name)?;
        if criteria.is_implied(name) {
            return Err(Refusal::CriterionInUse);
        }
        if self.uses_criterion(name) {
            return Err(Refusal::CriterionInUse);
        }
        Ok(())
    }

    /// The verdict on adding an entry on a day.
    pub(crate) fn judge_entry(&self, day: Day, entry: &Entry) -> Result<Answer, Refusal>
        ensures { Answers (judged self.now.state day (action.AddEntry entry.now)) result }
    {
        if let Some(number) = self.held.facts.number_of(entry) {
            return Ok(Answer::Already(Some(number)));
        }
        check_entry_limit(self.entries_total(), 1)?;
        self.check_step()?;
        self.check_number_limit(1)?;
        check_known(self.held.facts.criteria().least_unknown(&entry.criteria))?;
        check_kind(day, &entry.kind)?;
        Ok(Answer::Accepted)
    }

    /// The place of the entry of a number, if it may be dropped.
    pub(crate) fn judge_drop(&self, number: u64) -> Result<usize, Refusal>
        ensures place { IfOk result (λ place.
            place_of self.now.state.held.facts.entries number ≡ Some place) }
        ensures passed { (day : DayValue)
            → checked self.now.state day (action.DropEntry number) ≡ Ok tt → IsOk result }
        ensures refused { (day : DayValue)
            → IfErr (checked self.now.state day (action.DropEntry number)) (λ e. Refuses e result) }
    {
        self.check_step()?;
        match self.held.facts.place_of(number) {
            Some(place) => Ok(place),
            None => Err(Refusal::UnknownEntry),
        }
    }

    /// The verdict on setting the settings of a peer.
    pub(crate) fn judge_settings(&self, settings: &PeerSettings) -> Result<Answer, Refusal>
        ensures { (day : DayValue)
            → Answers (judged self.now.state day (action.SetPeer settings.now)) result }
    {
        if has_settings(&self.held.facts, settings) {
            return Ok(Answer::Already(None));
        }
        self.check_peer_limit(&settings.name)?;
        self.check_step()?;
        let criteria = self.held.facts.criteria();
        check_known(settings.map.least_target_outside(criteria))?;
        Ok(Answer::Accepted)
    }

    /// Whether the peer of a name may be dropped.
    pub(crate) fn judge_peer_drop(&self, name: &Name) -> Result<(), Refusal>
        ensures { (day : DayValue)
            → Answers (checked self.now.state day (action.DropPeer name.now)) result }
    {
        self.check_step()?;
        self.check_peer(name)
    }

    /// The verdict on importing a content from the peer of a name: `None` if nothing changes, otherwise how the content
    /// compares with what is held.
    pub(crate) fn judge_import(
        &self,
        alloc: Global,
        name: &Name,
        content: &PeerContent,
    ) -> Result<Option<Comparison>, Refusal>
        ensures { (day : DayValue) → IsJudgedImport self.now.state day name.now content.now result }
    {
        self.state_is_sound();
        let Some(peer) = self.held.facts.peer(name) else {
            return Err(self.refused_import(name, content));
        };
        let comparison = compare(alloc, name, &peer.content, content)?;
        if comparison.is_same() {
            return Ok(None);
        }
        self.check_import(name, content, comparison.new_count())?;
        Ok(Some(comparison))
    }

    // The refusal of an import from a peer that isn't held.
    fn refused_import(&self, name: &Name, content: &PeerContent) -> Refusal
        requires { peer_of self.now.state.held.facts.peers name.now ≡ None }
        ensures { (day : DayValue) → judged self.now.state day (action.ImportPeer name.now content.now) ≡ Err result }
    {
        match self.check_import(name, content, content.entries().len()) {
            Err(refusal) => refusal,
            Ok(()) => Refusal::UnknownPeer,
        }
    }

    /// The verdict on setting the publisher records of a package.
    pub(crate) fn judge_publishers(
        &self,
        package: &PackageName,
        publishers: &Publishers,
    ) -> Result<Answer, Refusal>
        ensures { (day : DayValue) → Answers
            (judged self.now.state day (action.SetPublishers «package».now publishers.now)) result }
    {
        if self.held.facts.records_of(package) == publishers.as_slice() {
            return Ok(Answer::Already(None));
        }
        self.check_publisher_limit(package, publishers)?;
        self.check_step()?;
        Ok(Answer::Accepted)
    }

    /// The verdict on setting a policy.
    pub(crate) fn judge_policy(&self, policy: &KeyedPolicy) -> Result<Answer, Refusal>
        ensures { (day : DayValue)
            → Answers (judged self.now.state day (action.SetPolicy policy.now)) result }
    {
        if self.has_policy(policy) {
            return Ok(Answer::Already(None));
        }
        self.check_policy_limit(&policy.key)?;
        self.check_step()?;
        check_known(least_unknown_of(&policy.policy, self.held.facts.criteria()))?;
        Ok(Answer::Accepted)
    }

    /// Whether the policy of a key may be dropped.
    pub(crate) fn judge_policy_drop(&self, key: &PolicyKey) -> Result<(), Refusal>
        ensures { (day : DayValue)
            → Answers (checked self.now.state day (action.DropPolicy key.now)) result }
    {
        self.check_step()?;
        self.check_policy(key)
    }

    /// The verdict on loading a project.
    pub(crate) fn judge_project(&self, project: &NamedProject) -> Result<Answer, Refusal>
        ensures { (day : DayValue)
            → Answers (judged self.now.state day (action.LoadProject project.now)) result }
    {
        if self.has_project(project) {
            return Ok(Answer::Already(None));
        }
        self.check_project_limit(&project.name)?;
        self.check_step()?;
        Ok(Answer::Accepted)
    }

    /// Whether the project of a name may be dropped.
    pub(crate) fn judge_project_drop(&self, name: &PackageName) -> Result<(), Refusal>
        ensures { (day : DayValue)
            → Answers (checked self.now.state day (action.DropProject name.now)) result }
    {
        self.check_step()?;
        self.check_project(name)
    }

    // Whether an own entry, a target of a peer's map, a policy or a review that isn't closed names a criterion.
    fn uses_criterion(&self, name: &Name) -> bool
        ensures { result ≡ is_used self.now.state name.now }
    {
        if self.held.facts.names_criterion(name) {
            return true;
        }
        if names_criterion(self.held.policies.items(), name) {
            return true;
        }
        self.desk.names_criterion(name)
    }

    // Whether an equal policy is held.
    fn has_policy(&self, policy: &KeyedPolicy) -> bool
        ensures { result ≡ has_policy self.now.state.held.policies policy.now }
    {
        match self.held.policies.get(&policy.key) {
            Some(held) => held == policy,
            None => false,
        }
    }

    // Whether an equal project is held.
    fn has_project(&self, project: &NamedProject) -> bool
        ensures { result ≡ has_project self.now.state.held.projects project.now }
    {
        match self.held.projects.get(&project.name) {
            Some(held) => held == project,
            None => false,
        }
    }

    fn check_policy(&self, key: &PolicyKey) -> Result<(), Refusal>
        ensures { result ≡ held_policy self.now.state key.now }
    {
        if !self.held.policies.has(key) {
            return Err(Refusal::UnknownPolicy);
        }
        Ok(())
    }

    fn check_project(&self, name: &PackageName) -> Result<(), Refusal>
        ensures { result ≡ held_project self.now.state name.now }
    {
        if !self.held.projects.has(name) {
            return Err(Refusal::UnknownProject);
        }
        Ok(())
    }

    fn check_policy_limit(&self, key: &PolicyKey) -> Result<(), Refusal>
        ensures { result ≡ policy_limit self.now.state key.now }
    {
        if !self.held.policies.has(key) && self.held.policies.len() >= MOST_POLICIES {
            return Err(Refusal::TooLarge(Limit::Policies));
        }
        Ok(())
    }

    fn check_project_limit(&self, name: &PackageName) -> Result<(), Refusal>
        ensures { result ≡ project_limit self.now.state name.now }
    {
        if !self.held.projects.has(name) && self.held.projects.len() >= MOST_PROJECTS {
            return Err(Refusal::TooLarge(Limit::Projects));
        }
        Ok(())
    }

    pub(crate) fn check_step(&self) -> Result<(), Refusal>
        ensures { result ≡ step_limit self.now.state }
    {
        if self.step >= LAST_STEP {
            return Err(Refusal::TooLarge(Limit::Step));
        }
        Ok(())
    }

    /// The number of held entries of all sources.
    pub(crate) fn entries_total(&self) -> usize
        ensures value { result ≡ entries_total self.now.state.held.facts }
        ensures few { result ≤ MOST_ENTRIES }
    {
        self.state_is_sound();
        self.held.facts.entries_total()
    }

    // Checks an import against the limits, if this many of its entries are new.
    fn check_import(&self, name: &Name, content: &PeerContent, count: usize) -> Result<(), Refusal>
        ensures { result ≡ import_limits self.now.state name.now (length content.now.entries) count }
    {
        check_entry_limit(self.entries_beside(name), content.entries().len())?;
        self.check_step()?;
        self.check_number_limit(count)
    }

    // The number of held entries of all sources except one peer.
    fn entries_beside(&self, name: &Name) -> usize
        ensures value { result ≡ entries_beside self.now.state.held.facts name.now }
        ensures few { result ≤ MOST_ENTRIES }
    {
        self.state_is_sound();
        self.held.facts.entries_beside(name)
    }

    fn check_peer(&self, name: &Name) -> Result<(), Refusal>
        ensures { result ≡ held_peer self.now.state name.now }
    {
        if self.held.facts.peer(name).is_none() {
            return Err(Refusal::UnknownPeer);
        }
        Ok(())
    }

    pub(crate) fn check_number_limit(&self, count: usize) -> Result<(), Refusal>
        ensures { result ≡ number_limit self.now.state count }
    {
        self.state_is_sound();
        if count as u64 > LAST_NUMBER + 1 - self.next_entry {
            return Err(Refusal::TooLarge(Limit::Number));
        }
        Ok(())
    }

    fn check_peer_limit(&self, name: &Name) -> Result<(), Refusal>
        ensures { result ≡ peer_limit self.now.state name.now }
    {
        if self.held.facts.peer(name).is_none() && self.held.facts.peers().len() >= MOST_PEERS {
            return Err(Refusal::TooLarge(Limit::Peers));
        }
        Ok(())
    }

    fn check_publisher_limit(
        &self,
        package: &PackageName,
        publishers: &Publishers,
    ) -> Result<(), Refusal>
        ensures { result ≡ publisher_limit self.now.state «package».now publishers.now }
    {
        if self
            .held
            .facts
            .records_would_pass(MOST_PUBLISHERS, package, publishers)
        {
            return Err(Refusal::TooLarge(Limit::Publishers));
        }
        Ok(())
    }
}

/// Whether this many held entries, and this many more, are within their limit.
pub(crate) fn check_entry_limit(held: usize, more: usize) -> Result<(), Refusal>
    requires { held ≤ MOST_ENTRIES }
    ensures { result ≡ entry_limit (held + more) }
{
    if more > MOST_ENTRIES - held {
        return Err(Refusal::TooLarge(Limit::Entries));
    }
    Ok(())
}

/// Whether an equal criterion is held; never true of a built-in name.
pub(crate) fn is_held(table: &CriteriaTable, criterion: &Criterion) -> bool
    ensures { result ≡ is_held table.now criterion.now }
{
    if is_built_in(&criterion.name) {
        return false;
    }
    match table.get(&criterion.name) {
        Some(held) => held == criterion,
        None => false,
    }
}

/// Whether equal settings of a peer are held.
pub(crate) fn has_settings(facts: &EntryFacts, settings: &PeerSettings) -> bool
    ensures { result ≡ has_settings facts.now.content.peers settings.now }
{
    match facts.peer(&settings.name) {
        Some(peer) => peer.settings == *settings,
        None => false,
    }
}

/// Refuses an unknown name, if there is one.
pub(crate) fn check_known(unknown: Option<&Name>) -> Result<(), Refusal>
    ensures { Answers (known (option_copied unknown.entry)) result }
{
    match unknown {
        Some(name) => Err(Refusal::UnknownCriterion(name.clone()?)),
        None => Ok(()),
    }
}

fn check_built_in(name: &Name) -> Result<(), Refusal>
    ensures { result ≡ set_rules name.now }
{
    if is_built_in(name) {
        return Err(Refusal::BuiltInCriterion);
    }
    Ok(())
}

// Refuses a window that ends before it begins, or too long after the day of the command, and an exemption whose last
// day is before that day.
fn check_kind(day: Day, kind: &Kind) -> Result<(), Refusal>
    ensures { result ≡ kind_rules day kind.now }
{
    match kind {
        Kind::Wildcard(window, _) => check_window(day, *window),
        Kind::Trusted(window) => check_window(day, *window),
        Kind::Exemption {
            version: _,
            suggest: _,
            last_day,
        } => {
            if is_over(*last_day, Some(day)) {
                return Err(Refusal::EmptyWindow);
            }
            Ok(())
        }
        _ => Ok(()),
    }
}

fn check_window(day: Day, window: Window) -> Result<(), Refusal>
    ensures { result ≡ window_rules day window }
{
    if window.last < window.first {
        return Err(Refusal::EmptyWindow);
    }
    if ends_too_late(day, window.last) {
        return Err(Refusal::WindowTooLong);
    }
    Ok(())
}

// Whether a last day comes more than 366 days after a day. If that many days lead past the last day of the calendar, no
// day does.
fn ends_too_late(day: Day, last: Day) -> bool
    ensures { result ≡ is_lt (int_cmp (day_number day +ℤ pos MOST_WINDOW_DAYS) (day_number last)) }
{
    let number = last.number();
    match day.plus(MOST_WINDOW_DAYS) {
        Some(latest) => number > latest.number(),
        None => false,
    }
}
