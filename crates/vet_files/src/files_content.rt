//! The content of the three files together.
//!
//! **The content of three files is one value, in which each entry occurs once, and each peer, package and policy is
//! under its own name.**
ghost use Rattle.std.specs.List.{list_all};
ghost use Rattle.std.specs.Option.{option_copied};
ghost use Rattle.std.specs.Ordering.{nat_cmp};
ghost use Rattle.std.specs.Cmp.Lexicographic.{slice_cmp};
ghost use Rattle.std.specs.Prelude.{◌≡◌, ◌++◌, [], IfErr, IfOk, nat_lt};
ghost use Rattle.vet_base.specs.Keyed.{all_set, item_of};
ghost use Rattle.vet_entries.specs.Distinct.{distinct};
ghost use Rattle.vet_entries.specs.PeerSettings.{settings_name};
ghost use Rattle.vet_entries.specs.PublisherRecords.{package_of, records_total};
ghost use Rattle.vet_files.specs.FilesContent.{IsFiles, each_is_set, files_of, is_set};
ghost use Rattle.vet_files.specs.Imports.{imported_name};
ghost use Rattle.vet_files.specs.SameContent.{AreUndated, IsAudits, IsConfig, IsImports};
ghost use Rattle.vet_files.specs.SameFiles.{SameListsAreSame};

use crate::audits_file::AuditsContent;
use crate::config_file::ConfigContent;
use crate::imports_file::{ImportedPeer, ImportsContent};
use crate::listed::Listed;
use std::alloc::{AllocError, Global};
use std::marker::Model;
use vet_base::criterion::Criterion;
use vet_base::keyed::{HasKey, Keyed};
use vet_base::name::Name;
use vet_base::names::Names;
use vet_base::refusal::Refusal;
use vet_base::text::Text;
use vet_demand::policies::Policies;
use vet_entries::distinct::distinct;
use vet_entries::entry::Entry;
use vet_entries::peer_settings::PeerSettings;
use vet_entries::publisher_records::PackagePublishers;

/// The content of three files: an audits file, a config file and an imports file. One's own entries and then the
/// exemptions are in the order of reading, each once, and none has a last day. No criterion has the name of a built-in
/// one or of another.
pub struct FilesContent {
    criteria: Vec<Criterion>,
    entries: Vec<Entry>,
    settings: Keyed<PeerSettings>,
    contents: Keyed<ImportedPeer>,
    publishers: Keyed<PackagePublishers>,
    policies: Policies,
    vet_version: Option<Text>,
    default_criteria: Option<Names>,
}

impl Model for FilesContent {
    ghost use Rattle.vet_demand.specs.contracts.policies.KeyedPolicy as policy;
    ghost use Rattle.vet_entries.specs.contracts.entry.Entry as entry;
    ghost use Rattle.vet_entries.specs.contracts.peer_settings.PeerSettings as peer;
    ghost use Rattle.vet_entries.specs.contracts.publisher_records.PackagePublishers as listed;
    ghost use Rattle.vet_files.specs.FilesContent.{FilesValue, IsFiles, files_code};
    ghost use Rattle.vet_files.specs.contracts.imports_file.ImportedPeer as imported;

    ghost Value = { FilesValue };

    ghost coded = { files_code entry.the_row.coded peer.the_row.coded imported.the_row.coded
        listed.the_row.coded policy.the_row.coded };

    ghost view = { λ f. record {
      criteria = f.criteria.items;
      entries = f.entries.items;
      settings = f.settings.items;
      contents = f.contents.items;
      publishers = f.publishers.items;
      policies = f.policies;
      vet_version = f.vet_version;
      default_criteria = f.default_criteria;
    } };

    ghost invariant = { λ f. IsFiles (record {
      criteria = f.criteria.items;
      entries = f.entries.items;
      settings = f.settings.items;
      contents = f.contents.items;
      publishers = f.publishers.items;
      policies = f.policies;
      vet_version = f.vet_version;
      default_criteria = f.default_criteria;
    }) };
}

impl Drop for FilesContent {
    fn drop(self) {
        let FilesContent {
            criteria: _,
            entries: _,
            settings: _,
            contents: _,
            publishers: _,
            policies: _,
            vet_version: _,
            default_criteria: _,
        } = self;
    }
}

impl FilesContent {
    /// The content of three files. Asks that each content is one that its reader can give, so no exemption has a last
    /// day. Takes a time of n log n. Moves what it is given, and copies no entry to find duplicates. Refused:
    /// `NoMemory`.
    pub fn of(
        alloc: Global,
        audits: AuditsContent,
        config: ConfigContent,
        imports: ImportsContent,
    ) -> Result<FilesContent, Refusal>
        requires audits { IsAudits audits }
        requires config { IsConfig config }
        requires undated { AreUndated config.exemptions }
        requires imports { IsImports imports }
        ensures ok { IfOk result (λ f. f ≡ files_of audits config imports) }
        ensures memory { IfErr result (λ e. e ≡ Refusal.NoMemory) }
    {
        let AuditsContent { criteria, entries } = audits;
        let ConfigContent {
            vet_version,
            default_criteria,
            peers,
            policies,
            exemptions,
        } = config;
        let lists = lists_of(alloc, entries, exemptions, peers, imports)?;
        let Lists {
            entries,
            settings,
            contents,
            publishers,
        } = lists;
        Ok(FilesContent {
            criteria: criteria.into_vec(),
            entries,
            settings,
            contents,
            publishers,
            policies,
            vet_version,
            default_criteria,
        })
    }

    /// The criteria of the audits file, in the order of reading. Takes no memory.
    pub fn criteria(&self) -> &[Criterion]
        ensures { result.now ≡ self.now.criteria }
    {
        self.criteria.as_slice()
    }

    /// The entries of the audits file and then the exemptions, in the order of reading, each once. None has a last day.
    /// Takes no memory.
    pub fn entries(&self) -> &[Entry]
        ensures { result.now ≡ self.now.entries }
    {
        self.entries.as_slice()
    }

    /// The settings of the config file's peers, in the order of their names. Takes no memory.
    pub fn settings(&self) -> &[PeerSettings]
        ensures { result.now ≡ self.now.settings }
    {
        self.settings.items()
    }

    /// The contents of the imports file's peers, in the order of their names. Takes no memory.
    pub fn contents(&self) -> &[ImportedPeer]
        ensures { result.now ≡ self.now.contents }
    {
        self.contents.items()
    }

    /// The content of the peer with a name in the imports file, if it is there. Takes no memory, and a time of log n.
    pub fn content(&self, name: &Name) -> Option<&ImportedPeer>
        ensures { option_copied result ≡ item_of (slice_cmp nat_cmp) imported_name self.now.contents name.now }
    {
        self.contents.get(name)
    }

    /// The packages that have publisher records, in the order of their names. Takes no memory.
    pub fn publishers(&self) -> &[PackagePublishers]
        ensures { result.now ≡ self.now.publishers }
    {
        self.publishers.items()
    }

    /// The policies. Takes no memory.
    pub fn policies(&self) -> &Policies
        ensures { result.now ≡ self.now.policies }
    {
        &self.policies
    }

    /// The version of cargo-vet that the config file names, if it names one. Takes no memory.
    pub fn vet_version(&self) -> &Option<Text>
        ensures { result.now ≡ self.now.vet_version }
    {
        &self.vet_version
    }

    /// The criteria of a new audit for which no others are given, if the config file has them. Takes no memory.
    pub fn default_criteria(&self) -> &Option<Names>
        ensures { result.now ≡ self.now.default_criteria }
    {
        &self.default_criteria
    }

    /// Three files can give the content. A law, which does nothing.
    pub fn is_of_files(&self)
        ensures { IsFiles self.now }
    {
        let _ = &self.criteria;
    }

    /// Whether the config file has settings of each peer of the imports file. Takes no memory, and a binary search for
    /// each peer.
    pub fn each_is_set(&self) -> bool
        ensures { result ≡ each_is_set self.now }
    {
        are_set(&self.settings, self.contents.items())
    }

    /// Whether there are more than `most` publisher records. Takes no memory.
    pub fn has_more_records_than(&self, most: usize) -> bool
        ensures { result ≡ nat_lt most (records_total self.now.publishers) }
    {
        has_more_records(self.publishers.items(), most)
    }
}

// The lists of the files that are put in order or searched for duplicates. Only this takes memory.
#[derive(Drop)]
struct Lists {
    entries: Vec<Entry>,
    settings: Keyed<PeerSettings>,
    contents: Keyed<ImportedPeer>,
    publishers: Keyed<PackagePublishers>,
}

fn lists_of(
    alloc: Global,
    entries: Listed<Entry>,
    exemptions: Listed<Entry>,
    peers: Listed<PeerSettings>,
    imports: ImportsContent,
) -> Result<Lists, AllocError>
    ensures entries { IfOk result (λ l. l.entries.items ≡ distinct (entries ++ exemptions)) }
    ensures settings { IfOk result (λ l. l.settings.items ≡ all_set (slice_cmp nat_cmp) settings_name [] peers) }
    ensures contents { IfOk result (λ l.
        l.contents.items ≡ all_set (slice_cmp nat_cmp) imported_name [] imports.peers) }
    ensures publishers { IfOk result (λ l.
        l.publishers.items ≡ all_set (slice_cmp nat_cmp) package_of [] imports.publishers) }
{
    let ImportsContent {
        publishers,
        peers: imported,
    } = imports;
    let (contents, publishers) = both_by_key(alloc, imported, publishers)?;
    let entries = all_once(alloc, entries, exemptions)?;
    let settings = by_key(alloc, peers)?;
    Ok(Lists {
        entries,
        settings,
        contents,
        publishers,
    })
}

fn both_by_key<A: HasKey, B: HasKey>(
    alloc: Global,
    first: Listed<A>,
    second: Listed<B>,
) -> Result<(Keyed<A>, Keyed<B>), AllocError>
    ensures first { IfOk result (λ both. both.0.items ≡ all_set A.Key.cmp A.key_of [] first) }
    ensures second { IfOk result (λ both. both.1.items ≡ all_set B.Key.cmp B.key_of [] second) }
{
    let first = by_key(alloc, first)?;
    let second = by_key(alloc, second)?;
    Ok((first, second))
}

// The items of a list, in the order of their keys.
fn by_key<T: HasKey>(alloc: Global, items: Listed<T>) -> Result<Keyed<T>, AllocError>
    ensures { IfOk result (λ k. k.items ≡ all_set T.Key.cmp T.key_of [] items) }
{
    Keyed::of(alloc, items.into_vec())
}

/// These entries and then the others, each once.
fn all_once(
    alloc: Global,
    entries: Listed<Entry>,
    others: Listed<Entry>,
) -> Result<Vec<Entry>, AllocError>
    ensures { IfOk result (λ v. v.items ≡ distinct (entries ++ others)) }
{
    let all = entries.followed_by(others)?;
    distinct(alloc, all.into_vec())
}

/// Whether each of some peers is among the settings.
fn are_set(settings: &Keyed<PeerSettings>, peers: &[ImportedPeer]) -> bool
    ensures { result ≡ list_all (is_set settings.now.items) peers.now }
{
    peers.iter().all(|peer| settings.has(&peer.name))
}

/// Whether some packages have more than `most` records. Stops at the first package at which they do.
fn has_more_records(packages: &[PackagePublishers], most: usize) -> bool
    ensures { result ≡ nat_lt most (records_total packages.now) }
{
    let mut room = most;
    'packages: for held in packages {
        let count = held.publishers.len();
        if room < count {
            return true;
        }
        room -= count;
    }
    false
}

/// Files whose lists are the same as sets have the same content, if no exemption has a last day. A law, which does
/// nothing.
pub fn same_lists_are_same()
    ensures { SameListsAreSame }
{}
