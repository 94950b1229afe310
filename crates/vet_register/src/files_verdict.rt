//! The verdict on a command that replaces what is held by three files.
//!
//! Except for the room for its moves, it depends only on the files, on what is kept and on the numbers that are left.
//! So nothing has to be built from the files before the verdict is known.
ghost use Rattle.std.specs.FinMap as map;
ghost use Rattle.std.specs.FinSet as set;
ghost use Rattle.std.specs.List.{All, list_all};
ghost use Rattle.std.specs.Option.{option_copied};
ghost use Rattle.std.specs.Prelude.{◌≡◌, ◌≤◌, ◌+◌, ◌&&◌, ℕ, List, IfErr, IfOk, filter, false, length, map as mapped};
ghost use Rattle.std.specs.Prelude.{nat_lt, not};
ghost use Rattle.vet_base.specs.CriteriaChanges.{is_built_in};
ghost use Rattle.vet_base.specs.Day.{DayValue};
ghost use Rattle.vet_base.specs.Defined.{defined, least_undefined};
ghost use Rattle.vet_base.specs.Gives.{Answers, Gives, refuse_if};
ghost use Rattle.vet_base.specs.declared.refusal.Refusal.TheVariants.{CriterionInUse};
ghost use Rattle.vet_register.specs.Already.{has_criteria, has_files, has_lists, has_peers, has_settings, is_held};
ghost use Rattle.vet_register.specs.NamesOfFiles.{counted, named_alone, unknown_of_files, unknown_of_policies};
ghost use Rattle.vet_register.specs.NamesOfFiles.{unknown_of_targets};
ghost use Rattle.vet_register.specs.Replacing.{compared_peer, entries_in_files, tool_of_files};
ghost use Rattle.vet_register.specs.ReplacingFound.{AreJudged, IsCompared};
ghost use Rattle.vet_register.specs.ToolSettings.{tool_eq};
ghost use Rattle.vet_files.specs.FilesContent.{content_for};
ghost use Rattle.vet_entries.specs.Import.{ComparisonValue};
ghost use Rattle.vet_entries.specs.Replaced.{is_dated};
ghost use Rattle.vet_register.specs.Verdict.{checked, files_limits, files_references, names_beyond};
ghost use Rattle.vet_register.specs.declared.command.Action.TheVariants as action;
ghost use Rattle.vet_register.specs.Held.{content_of};

use crate::class_of_file::unknown_of_entries;
use crate::files_comparison::{FilesComparison, compare_files};
use crate::held::Held;
use crate::register::Register;
use crate::tool_settings::ToolSettings;
use crate::verdict::{check_known, has_settings, is_held};
use std::alloc::{AllocError, Global};
use vet_base::criteria_table::{CriteriaTable, is_built_in};
use vet_base::criterion::Criterion;
use vet_base::defined::lesser;
use vet_base::limits::{MOST_CRITERIA, MOST_ENTRIES, MOST_PEERS, MOST_POLICIES, MOST_PUBLISHERS};
use vet_base::name::Name;
use vet_base::names::Names;
use vet_base::refusal::{Limit, Refusal};
use vet_demand::policies::KeyedPolicy;
use vet_demand::policy_names::least_unknown_of;
use vet_entries::facts::EntryFacts;
use vet_entries::import::Comparison;
use vet_entries::peer_settings::PeerSettings;
use vet_files::files_content::FilesContent;
use vet_graph::keeper::Keeper;

// The names of the criteria that files define and of the built-in ones, as a set and as a table in which none implies
// another.
#[derive(Drop)]
struct DefinedNames {
    names: Names,
    table: CriteriaTable,
}

impl<K: Keeper> Register<K> {
    /// The verdict on files that replace what is held: `None` if nothing changes, otherwise how their entries compare
    /// with those held.
    pub(crate) fn judge_files(
        &self,
        alloc: Global,
        files: &FilesContent,
    ) -> Result<Option<FilesComparison>, Refusal>
        ensures { (day : DayValue) → AreJudged self.now.state day files.now result }
    {
        self.state_is_sound();
        let comparison = compare_files(alloc, &self.held.facts, files)?;
        if has_files(&self.held, files, &comparison) {
            return Ok(None);
        }
        self.check_files(alloc, files, &comparison)?;
        Ok(Some(comparison))
    }

    // The checks on files that change something.
    fn check_files(
        &self,
        alloc: Global,
        files: &FilesContent,
        comparison: &FilesComparison,
    ) -> Result<(), Refusal>
        requires { IsCompared self.now.state.held.facts files.now comparison.now }
        ensures { (day : DayValue)
            → Gives (λ u. u) (checked self.now.state day (action.ReplaceFiles files.now)) result }
    {
        files.is_of_files();
        let known = defined_names(alloc, files.criteria())?;
        self.check_files_limits(files, comparison)?;
        check_references(&known, files)?;
        self.check_kept(&known)
    }

    // Whether reviews that aren't closed and own exemptions with a last day, which files keep, name only these
    // criteria.
    fn check_kept(&self, known: &DefinedNames) -> Result<(), Refusal>
        ensures { result ≡ refuse_if (names_beyond self.now.state known.now.table) CriterionInUse }
    {
        if self.desk.names_beyond(&known.table) {
            return Err(Refusal::CriterionInUse);
        }
        if self.held.facts.has_dated_beyond(&known.table) {
            return Err(Refusal::CriterionInUse);
        }
        Ok(())
    }

    // Whether files, together with what is kept, are within the limits, given which of their entries are new.
    fn check_files_limits(
        &self,
        files: &FilesContent,
        comparison: &FilesComparison,
    ) -> Result<(), Refusal>
        requires { IsCompared self.now.state.held.facts files.now comparison.now }
        ensures { result ≡ files_limits self.now.state files.now }
    {
        if files.settings().len() > MOST_PEERS {
            return Err(Refusal::TooLarge(Limit::Peers));
        }
        if has_more_entries(files, self.dated_count(), MOST_ENTRIES) {
            return Err(Refusal::TooLarge(Limit::Entries));
        }
        if files.has_more_records_than(MOST_PUBLISHERS) {
            return Err(Refusal::TooLarge(Limit::Publishers));
        }
        if files.policies().len() > MOST_POLICIES {
            return Err(Refusal::TooLarge(Limit::Policies));
        }
        self.check_step()?;
        self.check_number_limit(comparison.new_count())
    }

    // How many own entries are exemptions with a last day, which files keep.
    fn dated_count(&self) -> usize
        ensures value { result ≡ length (filter is_dated self.now.state.held.facts.entries) }
        ensures few { result ≤ MOST_ENTRIES }
    {
        self.state_is_sound();
        self.held.facts.dated_count()
    }
}

// ---- whether all is held already

// Whether all that files hold is held, as sets, and nothing else except projects and own exemptions with a last day.
fn has_files(held: &Held, files: &FilesContent, comparison: &FilesComparison) -> bool
    requires { IsCompared held.now.facts.content files.now comparison.now }
    ensures { result ≡ has_files (content_of held.now) files.now }
{
    if !has_criteria(held.facts.criteria(), files.criteria()) {
        return false;
    }
    if !comparison.own.is_same() {
        return false;
    }
    if !has_peers(&held.facts, files, comparison.peers.as_slice()) {
        return false;
    }
    has_lists(held, files)
}

// Whether some criteria are those held besides the built-in ones.
fn has_criteria(table: &CriteriaTable, criteria: &[Criterion]) -> bool
    ensures { result ≡ has_criteria table.now criteria.now }
{
    if criteria.len() != further_count(table.names()) {
        return false;
    }
    are_held(table, criteria)
}

// Whether each of some criteria is held.
fn are_held(table: &CriteriaTable, criteria: &[Criterion]) -> bool
    ensures { result ≡ list_all (is_held table.now) criteria.now }
{
    criteria.iter().all(|criterion| is_held(table, criterion))
}

// How many of some names are of no built-in criterion.
fn further_count(names: &[Name]) -> usize
    ensures { result ≡ length (filter (λ n. not (is_built_in n)) names.now) }
{
    names.iter().filter(|name| !is_built_in(name)).count()
}

// Whether the peers of files are those held, given how their contents compare with what is held of them.
fn has_peers(facts: &EntryFacts, files: &FilesContent, comparisons: &[Comparison]) -> bool
    requires { comparisons.now ≡ mapped (compared_peer facts.now.content.peers files.now.contents) files.now.settings }
    ensures { result ≡ has_peers facts.now.content.peers files.now }
{
    if files.settings().len() != facts.peers().len() {
        return false;
    }
    if !have_settings(facts, files.settings()) {
        return false;
    }
    if !are_same(comparisons) {
        return false;
    }
    files.each_is_set()
}

// Whether each of some peers is held with these settings.
fn have_settings(facts: &EntryFacts, peers: &[PeerSettings]) -> bool
    ensures { result ≡ list_all (has_settings facts.now.content.peers) peers.now }
{
    peers.iter().all(|settings| has_settings(facts, settings))
}

// Whether each of some contents is what is held of its peer.
fn are_same(comparisons: &[Comparison]) -> bool
    ensures { result ≡ list_all (λ (c : ComparisonValue). c.is_same) comparisons.now }
{
    comparisons.iter().all(|comparison| comparison.is_same())
}

// Whether the lists of files are held, and their settings for the tool.
fn has_lists(held: &Held, files: &FilesContent) -> bool
    ensures { result ≡ has_lists (content_of held.now) files.now }
{
    if held.facts.publishers() != files.publishers() {
        return false;
    }
    if held.policies.items() != files.policies().as_slice() {
        return false;
    }
    says_as(&held.settings, files)
}

// Whether files have these settings for the tool.
fn says_as(settings: &ToolSettings, files: &FilesContent) -> bool
    ensures { result ≡ tool_eq settings.now (tool_of_files files.now) }
{
    settings.vet_version == *files.vet_version()
        && settings.default_criteria == *files.default_criteria()
}

// ---- limits

// Whether there would be more than `most` entries: those that are kept, the own ones of files, and those of the peers
// of the config file.
fn has_more_entries(files: &FilesContent, staying: usize, most: usize) -> bool
    requires { staying ≤ most }
    ensures { result ≡ nat_lt most (staying + entries_in_files files.now) }
{
    if files.entries().len() > most - staying {
        return true;
    }
    let peers = files.settings();
    let mut room = most - staying - files.entries().len();
    'peers: for settings in peers {
        let count = entries_of(files, &settings.name);
        if count > room {
            return true;
        }
        room -= count;
    }
    false
}

// How many entries the imports file has of the peer of a name.
fn entries_of(files: &FilesContent, name: &Name) -> usize
    ensures { result ≡ length (content_for files.now.contents name.now).entries }
{
    match files.content(name) {
        Some(peer) => peer.content.entries().len(),
        None => 0,
    }
}

// ---- what files refer to

// The names of some criteria and of the built-in ones, if they are not too many.
fn defined_names(alloc: Global, criteria: &[Criterion]) -> Result<DefinedNames, Refusal>
    requires { All (λ c. is_built_in c.name ≡ false) criteria.now }
    ensures told { Gives (λ d. tt) (counted (defined criteria.now)) result }
    ensures names { IfOk result
        (λ d. (n : List ℕ) → set.contains d.names n ≡ map.contains_key (defined criteria.now) n) }
    ensures table { IfOk result
        (λ d. (n : List ℕ) → map.contains_key d.table n ≡ map.contains_key (defined criteria.now) n) }
{
    let names = CriteriaTable::names_with(alloc, criteria)?;
    if names.len() > MOST_CRITERIA {
        return Err(Refusal::TooManyCriteria);
    }
    let table = CriteriaTable::of(alloc, without_implied(alloc, criteria)?)?;
    Ok(DefinedNames { names, table })
}

// Criteria of the same names, with nothing else.
fn without_implied(alloc: Global, criteria: &[Criterion]) -> Result<Vec<Criterion>, AllocError>
    ensures { IfOk result (λ bare. bare.items ≡ mapped named_alone criteria.now) }
{
    let mut bare = Vec::new(alloc);
    'criteria: for criterion in criteria {
        bare.push(Criterion {
            name: criterion.name.clone()?,
            description: None,
            url: None,
            implies: Names::new(alloc),
        })?;
    }
    Ok(bare)
}

// Whether the criteria that files name are known, and the peers of the imports file are in the config file.
fn check_references(known: &DefinedNames, files: &FilesContent) -> Result<(), Refusal>
    requires names { (n : List ℕ) → set.contains known.now.names n ≡ map.contains_key (defined files.now.criteria) n }
    requires table { (n : List ℕ)
        → map.contains_key known.now.table n ≡ map.contains_key (defined files.now.criteria) n }
    ensures { Answers (files_references files.now) result }
{
    check_known(unknown_of_files(known, files))?;
    if !files.each_is_set() {
        return Err(Refusal::UnknownPeer);
    }
    Ok(())
}

// The least name of a criterion in files that is neither built in nor of a criterion that they define.
fn unknown_of_files<'f>(known: &DefinedNames, files: &'f FilesContent) -> Option<&'f Name>
    requires names { (n : List ℕ) → set.contains known.now.names n ≡ map.contains_key (defined files.now.criteria) n }
    requires table { (n : List ℕ)
        → map.contains_key known.now.table n ≡ map.contains_key (defined files.now.criteria) n }
    ensures { option_copied result ≡ unknown_of_files (map.contains_key (defined files.now.criteria)) files.now }
{
    let implied = CriteriaTable::least_undefined(files.criteria(), &known.names);
    let own = unknown_of_entries(&known.names, implied, files.entries());
    let policies = unknown_of_policies(&known.table, own, files.policies().as_slice());
    unknown_of_targets(&known.table, policies, files.settings())
}

// The lesser of a given name, if there is one, and the least name in some policies that a table lacks.
fn unknown_of_policies<'f>(
    table: &CriteriaTable,
    first: Option<&'f Name>,
    policies: &'f [KeyedPolicy],
) -> Option<&'f Name>
    ensures { option_copied result
        ≡ unknown_of_policies (map.contains_key table.now) (option_copied first.entry) policies.now }
{
    let mut least = first;
    'policies: for held in policies {
        least = lesser(least, least_unknown_of(&held.policy, table));
    }
    least
}

// The lesser of a given name, if there is one, and the least target of some peers' maps that a table lacks.
fn unknown_of_targets<'f>(
    table: &CriteriaTable,
    first: Option<&'f Name>,
    peers: &'f [PeerSettings],
) -> Option<&'f Name>
    ensures { option_copied result
        ≡ unknown_of_targets (map.contains_key table.now) (option_copied first.entry) peers.now }
{
    let mut least = first;
    'peers: for settings in peers {
        least = lesser(least, settings.map.least_target_outside(table));
    }
    least
}
