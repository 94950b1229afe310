//! The counts of a file.
ghost use Rattle.std.specs.Prelude.{◌≡◌, ◌+◌, IfOk, string_bytes};
ghost use Rattle.vet_entries.specs.PublisherRecords.{records_total};
ghost use Rattle.vetd_words.specs.Counts.{counts_line, counts_of_audits, counts_of_config, counts_of_imports};
ghost use Rattle.vetd_words.specs.Counts.{criteria_total, entries_text, entries_total, notices_text, settings_text};

use std::alloc::{AllocError, Global};
use vet_entries::publisher_records::PackagePublishers;
use vet_files::audits_file::AuditsContent;
use vet_files::config_file::ConfigContent;
use vet_files::imports_file::{ImportedPeer, ImportsContent};
use vet_files::notices::Notices;

/// The number of things that a file holds, those of all peers together. Exemptions are entries.
#[derive(Clone, Copy)]
pub struct FileCounts {
    /// Criteria that are defined. No built-in one is among them.
    pub criteria: u64,
    pub entries: u64,
    /// Publisher records of all packages.
    pub publishers: u64,
    pub policies: u64,
    pub peers: u64,
}

impl FileCounts {
    pub fn of_audits(content: &AuditsContent) -> FileCounts
        ensures { result ≡ counts_of_audits content.now }
    {
        FileCounts {
            criteria: content.criteria.len() as u64,
            entries: content.entries.len() as u64,
            publishers: 0,
            policies: 0,
            peers: 0,
        }
    }

    pub fn of_config(content: &ConfigContent) -> FileCounts
        ensures { result ≡ counts_of_config content.now }
    {
        FileCounts {
            criteria: 0,
            entries: content.exemptions.len() as u64,
            publishers: 0,
            policies: content.policies.len() as u64,
            peers: content.peers.len() as u64,
        }
    }

    /// The counts of an imports file. Fails only if a count would pass 2^64 - 1; no memory holds such a file.
    pub fn of_imports(content: &ImportsContent) -> Result<FileCounts, AllocError>
        ensures { IfOk result (λ counts. counts ≡ counts_of_imports content.now) }
    {
        let (criteria, entries) = peers_totals(content.peers.as_slice())?;
        Ok(FileCounts {
            criteria,
            entries,
            publishers: records_total(content.publishers.as_slice())?,
            policies: 0,
            peers: content.peers.len() as u64,
        })
    }

    /// The line that is printed about a file: the counts, those of ignored things, and a line feed. Fails only if
    /// memory runs out.
    pub fn line(self, alloc: Global, notices: Notices) -> Result<String, AllocError>
        ensures { IfOk result (λ text. string_bytes text ≡ counts_line self notices) }
    {
        let entries = entries_text(alloc, self)?;
        let settings = settings_text(alloc, self)?;
        let notices = notices_text(alloc, notices)?;
        format!(in alloc; "read {entries} {settings} {notices}\n")
    }
}

/// The text of the criteria, entries and publishers.
fn entries_text(alloc: Global, counts: FileCounts) -> Result<String, AllocError>
    ensures { IfOk result (λ text. string_bytes text ≡ entries_text counts) }
{
    let criteria = counts.criteria;
    let entries = counts.entries;
    let publishers = counts.publishers;
    format!(in alloc; "criteria {criteria} entries {entries} publishers {publishers}")
}

/// The text of the policies and peers.
fn settings_text(alloc: Global, counts: FileCounts) -> Result<String, AllocError>
    ensures { IfOk result (λ text. string_bytes text ≡ settings_text counts) }
{
    let policies = counts.policies;
    let peers = counts.peers;
    format!(in alloc; "policies {policies} peers {peers}")
}

/// The text of the ignored keys, entries and doubles.
fn notices_text(alloc: Global, notices: Notices) -> Result<String, AllocError>
    ensures { IfOk result (λ text. string_bytes text ≡ notices_text notices) }
{
    let keys = notices.keys;
    let skipped = notices.skipped;
    let doubles = notices.doubles;
    format!(in alloc; "keys {keys} skipped {skipped} doubles {doubles}")
}

/// How many criteria all peers define, and how many entries they have.
fn peers_totals(peers: &[ImportedPeer]) -> Result<(u64, u64), AllocError>
    ensures criteria { IfOk result (λ totals. totals.0 ≡ criteria_total peers.now) }
    ensures entries { IfOk result (λ totals. totals.1 ≡ entries_total peers.now) }
{
    let mut criteria = 0;
    let mut entries = 0;
    'peers: for peer in peers {
        criteria = sum(criteria, peer.content.criteria().len() as u64)?;
        entries = sum(entries, peer.content.entries().len() as u64)?;
    }
    Ok((criteria, entries))
}

/// How many publisher records all packages have.
fn records_total(packages: &[PackagePublishers]) -> Result<u64, AllocError>
    ensures { IfOk result (λ total. total ≡ records_total packages.now) }
{
    let mut total = 0;
    'packages: for held in packages {
        total = sum(total, held.publishers.len() as u64)?;
    }
    Ok(total)
}

fn sum(a: u64, b: u64) -> Result<u64, AllocError>
    ensures { IfOk result (λ n. n ≡ a + b) }
{
    match a.checked_add(b) {
        Some(sum) => Ok(sum),
        None => Err(AllocError),
    }
}
