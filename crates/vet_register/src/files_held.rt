//! The facts, policies and settings after three files replace those held. The register's day and exemptions with a last
//! day are kept.
//!
//! **An entry that was held before, of the same source, keeps its number, and the new ones get the next numbers in the
//! order of reading: one's own, and then those of the peers in the order of their names.**
ghost use Rattle.std.specs.Cmp.Lexicographic.{slice_cmp};
ghost use Rattle.std.specs.List.{All, sum_by};
ghost use Rattle.std.specs.Ordering.{nat_cmp};
ghost use Rattle.std.specs.Prelude.{◌≡◌, ◌<◌, ◌+◌, ◌^◌, IfErr, IfOk, map};
ghost use Rattle.vet_base.specs.Criteria.{IsTable};
ghost use Rattle.vet_base.specs.Keyed.{IsByKey};
ghost use Rattle.vet_entries.specs.HeldPeer.{holding_or_none, imported, peer_name, peer_of};
ghost use Rattle.vet_entries.specs.Import.{compared};
ghost use Rattle.vet_register.specs.Replacing.{compared_peer, facts_of_files, new_of_peer, peers_after, tool_of_files};
ghost use Rattle.vet_register.specs.ReplacingFound.{MayReplace};

use crate::class_of_file::defined_table;
use crate::files_comparison::{FilesComparison, content_of, held_of, no_content};
use crate::held::FilesHeld;
use crate::held_files::{criteria_copied, version_copied};
use crate::tool_settings::ToolSettings;
use std::alloc::{AllocError, Global};
use vet_base::keyed::Keyed;
use vet_base::refusal::Refusal;
use vet_demand::policies::KeyedPolicy;
use vet_entries::facts::{EntryFacts, HeldEntry};
use vet_entries::held_peer::HeldPeer;
use vet_entries::holding::Holding;
use vet_entries::import::{Comparison, holding_after, own_entries_after};
use vet_entries::peer_content::PeerContent;
use vet_entries::peer_settings::PeerSettings;
use vet_entries::replaced::entries_keep_order;
use vet_files::files_content::FilesContent;

/// Everything that is held afterwards, given the next number. Copies everything that the files hold, and the held
/// entries that remain. Refused: `NoMemory`.
pub(crate) fn files_held(
    alloc: Global,
    next: u64,
    facts: &EntryFacts,
    files: &FilesContent,
    comparison: &FilesComparison,
) -> Result<FilesHeld, Refusal>
    requires { MayReplace next facts.now.content files.now comparison.now }
    ensures facts { IfOk result (λ h. h.facts.content ≡ facts_of_files next files.now facts.now.content) }
    ensures table { IfOk result (λ h. IsTable h.facts.content.criteria) }
    ensures policies { IfOk result (λ h. h.policies.items ≡ files.now.policies) }
    ensures settings { IfOk result (λ h. h.settings ≡ tool_of_files files.now) }
    ensures memory { IfErr result (λ e. e ≡ Refusal.NoMemory) }
{
    let facts = facts_after(alloc, next, facts, files, comparison)?;
    let policies = policies_of(alloc, files)?;
    let settings = settings_of(files)?;
    Ok(FilesHeld {
        facts,
        policies,
        settings,
    })
}

// The facts of packages afterwards.
fn facts_after(
    alloc: Global,
    next: u64,
    facts: &EntryFacts,
    files: &FilesContent,
    comparison: &FilesComparison,
) -> Result<EntryFacts, Refusal>
    requires { MayReplace next facts.now.content files.now comparison.now }
    ensures facts { IfOk result (λ f. f.content ≡ facts_of_files next files.now facts.now.content) }
    ensures table { IfOk result (λ f. IsTable f.content.criteria) }
    ensures memory { IfErr result (λ e. e ≡ Refusal.NoMemory) }
{
    files.is_of_files();
    entries_keep_order();
    let criteria = defined_table(alloc, files.criteria().to_vec(alloc)?)?;
    let publishers = files.publishers().to_vec(alloc)?;
    let peers = peers_after(alloc, next, facts, files, comparison)?;
    let entries = own_entries_after(
        alloc,
        next,
        facts.entries(),
        files.entries(),
        &comparison.own,
    )?;
    EntryFacts::of_parts(alloc, criteria, entries, peers, publishers, facts.today())
}

// The peers afterwards, whose new entries are numbered after one's own.
fn peers_after(
    alloc: Global,
    next: u64,
    facts: &EntryFacts,
    files: &FilesContent,
    comparison: &FilesComparison,
) -> Result<Vec<HeldPeer>, Refusal>
    requires { MayReplace next facts.now.content files.now comparison.now }
    ensures ok { IfOk result (λ v. v.items ≡ (facts_of_files next files.now facts.now.content).peers) }
    ensures by_name { IfOk result (λ v. IsByKey (slice_cmp nat_cmp) peer_name v.items) }
    ensures memory { IfErr result (λ e. e ≡ Refusal.NoMemory) }
{
    files.is_of_files();
    let nothing = Holding::new(alloc)?;
    let silence = no_content(alloc);
    let settings = files.settings();
    let comparisons = comparison.peers.as_slice();
    let mut number = next + comparison.own.new_count() as u64;
    let mut peers = Vec::new(alloc);
    'peers: for place in 0..settings.len() {
        let name = &settings[place].name;
        let held = held_of(facts, name, &nothing);
        let content = content_of(files, name, &silence);
        let found = &comparisons[place];
        peers.push(peer_after(alloc, number, &settings[place], held, content, found)?)?;
        number += found.new_count() as u64;
    }
    Ok(peers)
}

// A peer afterwards, given the next number.
fn peer_after(
    alloc: Global,
    next: u64,
    settings: &PeerSettings,
    held: &Holding,
    content: &PeerContent,
    comparison: &Comparison,
) -> Result<HeldPeer, Refusal>
    requires compared { comparison.now ≡ compared settings.now.name held.now content.now }
    requires below { All (λ h. h.number < next) held.now.entries }
    requires numbers { next + comparison.now.new_count < 2 ^ 64 }
    ensures settings { IfOk result (λ p. p.settings ≡ settings.now) }
    ensures content { IfOk result (λ p. p.content ≡ imported settings.now.name next content.now held.now) }
    ensures memory { IfErr result (λ e. e ≡ Refusal.NoMemory) }
{
    let content = holding_after(alloc, &settings.name, next, held, content, comparison)?;
    let settings = settings.clone()?;
    Ok(HeldPeer { settings, content })
}

// Copies of the policies.
fn policies_of(alloc: Global, files: &FilesContent) -> Result<Keyed<KeyedPolicy>, AllocError>
    ensures { IfOk result (λ p. p.items ≡ files.now.policies) }
{
    let policies = files.policies().as_slice().to_vec(alloc)?;
    Keyed::of(alloc, policies)
}

// A copy of the config file's settings for the tool.
fn settings_of(files: &FilesContent) -> Result<ToolSettings, AllocError>
    ensures { IfOk result (λ s. s ≡ tool_of_files files.now) }
{
    let default_criteria = criteria_copied(files.default_criteria())?;
    let vet_version = version_copied(files.vet_version())?;
    Ok(ToolSettings {
        vet_version,
        default_criteria,
    })
}
