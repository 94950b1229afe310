//! Copies of what the files of a register hold.
//!
//! **Each file of a register is written from what is held and what such a file can give, so it is read back as the same
//! content, except that an imports file has no entries of excluded packages, and a config file no exemptions with a
//! last day.**
ghost use Rattle.std.specs.List.{All, filter, filter_map};
ghost use Rattle.std.specs.Option.{option_copied};
ghost use Rattle.std.specs.Prelude.{◌≡◌, IfErr, IfOk, map};
ghost use Rattle.vet_base.specs.FurtherCriteria.{further};
ghost use Rattle.vet_demand.specs.Policies.{IsInKeyOrder};
ghost use Rattle.vet_entries.specs.PeerContent.{IsPeerContent};
ghost use Rattle.vet_files.specs.SameContent.{IsAudits, IsConfig, IsImports};
ghost use Rattle.vet_register.specs.HeldFiles.{audits_of, config_of, content_of, further_at, imported_of, imports_of};
ghost use Rattle.vet_register.specs.HeldFiles.{is_audit, is_exemption, settings_of, spoken, unnumbered};

use crate::register::Register;
use std::alloc::{AllocError, Global};
use vet_base::criteria_table::{CriteriaTable, is_built_in};
use vet_base::criterion::Criterion;
use vet_base::further_criteria::further;
use vet_base::name::Name;
use vet_base::names::Names;
use vet_base::refusal::Refusal;
use vet_base::text::Text;
use vet_demand::policies::{KeyedPolicy, Policies};
use vet_entries::entry::Entry;
use vet_entries::facts::HeldEntry;
use vet_entries::held_peer::HeldPeer;
use vet_entries::peer_content::PeerContent;
use vet_entries::peer_settings::PeerSettings;
use vet_files::audits_file::AuditsContent;
use vet_files::config_file::ConfigContent;
use vet_files::imports_file::{ImportedPeer, ImportsContent};
use vet_files::listed::Listed;
use vet_graph::keeper::Keeper;

/// The values from which the imports file of a register is written: how each peer is imported, and the file's content.
#[derive(Drop)]
pub struct HeldImports {
    pub settings: Listed<PeerSettings>,
    pub content: ImportsContent,
}

impl<K: Keeper> Register<K> {
    /// Copies of what an audits file holds of the register (The Cargo Vet Book, audits.toml): its criteria except the
    /// built-in ones, in the order of their names, and its own entries except the exemptions, in that of their numbers.
    /// Refused: `NoMemory`.
    pub fn held_audits(&self, alloc: Global) -> Result<AuditsContent, Refusal>
        ensures content { IfOk result (λ c. c ≡ audits_of self.now.state.held.facts) }
        ensures readable { IfOk result IsAudits }
        ensures memory { IfErr result (λ e. e ≡ Refusal.NoMemory) }
    {
        self.state_is_sound();
        let criteria = further_of(alloc, self.criteria())?;
        let entries = audits_among(alloc, self.entries())?;
        Ok(AuditsContent {
            criteria: Listed::of(criteria),
            entries: Listed::of(entries),
        })
    }

    /// Copies of what a config file holds of the register (The Cargo Vet Book, config file): the version of cargo-vet
    /// and the default criteria, how each peer is imported, in the order of their names, the policies in that of
    /// their keys, and its own exemptions in that of their numbers. These include the ones with a last day, which the
    /// writer leaves out. Refused: `NoMemory`.
    pub fn held_config(&self, alloc: Global) -> Result<ConfigContent, Refusal>
        ensures content { IfOk result (λ c. c ≡ config_of self.now.state.held) }
        ensures readable { IfOk result IsConfig }
        ensures memory { IfErr result (λ e. e ≡ Refusal.NoMemory) }
    {
        self.state_is_sound();
        let peers = settings_among(alloc, self.peers())?;
        let exemptions = exemptions_among(alloc, self.entries())?;
        let policies = policies_copied(alloc, self.policies())?;
        let default_criteria = criteria_copied(&self.held.settings.default_criteria)?;
        let vet_version = version_copied(&self.held.settings.vet_version)?;
        Ok(ConfigContent {
            vet_version,
            default_criteria,
            peers: Listed::of(peers),
            policies,
            exemptions: Listed::of(exemptions),
        })
    }

    /// Copies of how each held peer is imported and of what an imports file holds of the register (The Cargo Vet Book,
    /// imports.lock): packages and peers are in the order of their names, and a peer's entries in that of their
    /// numbers. Entries of excluded packages are among them; the writer leaves them out. Refused: `NoMemory`.
    pub fn held_imports(&self, alloc: Global) -> Result<HeldImports, Refusal>
        ensures settings { IfOk result (λ h. h.settings ≡ settings_of self.now.state.held.facts) }
        ensures content { IfOk result (λ h. h.content ≡ imports_of self.now.state.held.facts) }
        ensures readable { IfOk result (λ h. IsImports h.content) }
        ensures memory { IfErr result (λ e. e ≡ Refusal.NoMemory) }
    {
        self.state_is_sound();
        let settings = settings_among(alloc, self.peers())?;
        let peers = peers_among(alloc, self.peers())?;
        let publishers = self.publishers().to_vec(alloc)?;
        Ok(HeldImports {
            settings: Listed::of(settings),
            content: ImportsContent {
                publishers: Listed::of(publishers),
                peers: Listed::of(peers),
            },
        })
    }
}

// Copies of the criteria of a table that are not built in, in the order of their names.
fn further_of(alloc: Global, table: &CriteriaTable) -> Result<Vec<Criterion>, AllocError>
    ensures { IfOk result (λ copies. copies.items ≡ further table.now) }
{
    further_named(alloc, table, table.names())
}

// Copies of the criteria of some names that a table has and that are not built in.
fn further_named(
    alloc: Global,
    table: &CriteriaTable,
    names: &[Name],
) -> Result<Vec<Criterion>, AllocError>
    ensures { IfOk result (λ copies. copies.items ≡ filter_map (further_at table.now) names.now) }
{
    let mut copies = Vec::new(alloc);
    'names: for name in names {
        if let Some(criterion) = further_at(table, name) {
            copies.push(criterion.clone()?)?;
        }
    }
    Ok(copies)
}

/// The criterion of a name, if a table has one that is not built in. Takes no memory.
pub fn further_at<'t>(table: &'t CriteriaTable, name: &Name) -> Option<&'t Criterion>
    ensures { option_copied result ≡ further_at table.now name.now }
{
    if is_built_in(name) {
        return None;
    }
    table.get(name)
}

// Copies of the held entries that are not exemptions, without their numbers.
fn audits_among(alloc: Global, held: &[HeldEntry]) -> Result<Vec<Entry>, AllocError>
    ensures { IfOk result (λ copies. copies.items ≡ filter is_audit (unnumbered held.now)) }
{
    let mut copies = Vec::new(alloc);
    'entries: for it in held {
        if !is_exemption(&it.entry) {
            copies.push(it.entry.clone()?)?;
        }
    }
    Ok(copies)
}

// Copies of the held entries that are exemptions, without their numbers.
fn exemptions_among(alloc: Global, held: &[HeldEntry]) -> Result<Vec<Entry>, AllocError>
    ensures { IfOk result (λ copies. copies.items ≡ filter is_exemption (unnumbered held.now)) }
{
    let mut copies = Vec::new(alloc);
    'entries: for it in held {
        if is_exemption(&it.entry) {
            copies.push(it.entry.clone()?)?;
        }
    }
    Ok(copies)
}

// Whether an entry is an exemption, with a last day or without.
fn is_exemption(entry: &Entry) -> bool
    ensures { result ≡ is_exemption entry.now }
{
    entry.kind.is_exemption()
}

/// A copy of a version of cargo-vet, if there is one.
pub(crate) fn version_copied(version: &Option<Text>) -> Result<Option<Text>, AllocError>
    ensures { IfOk result (λ copy. copy ≡ version.now) }
{
    match version {
        Some(version) => Ok(Some(version.clone()?)),
        None => Ok(None),
    }
}

/// A copy of the criteria for a new audit, if they are given.
pub(crate) fn criteria_copied(criteria: &Option<Names>) -> Result<Option<Names>, AllocError>
    ensures { IfOk result (λ copy. copy ≡ criteria.now) }
{
    match criteria {
        Some(criteria) => Ok(Some(criteria.clone()?)),
        None => Ok(None),
    }
}

// Copies of some policies that are in the order of their keys.
fn policies_copied(alloc: Global, policies: &[KeyedPolicy]) -> Result<Policies, AllocError>
    requires { IsInKeyOrder policies.now }
    ensures { IfOk result (λ copies. copies ≡ policies.now) }
{
    Policies::of(alloc, policies.to_vec(alloc)?)
}

// Copies of the settings of some peers.
fn settings_among(alloc: Global, peers: &[HeldPeer]) -> Result<Vec<PeerSettings>, AllocError>
    ensures { IfOk result (λ copies. copies.items ≡ map (λ p. p.settings) peers.now) }
{
    let mut copies = Vec::new(alloc);
    'peers: for peer in peers {
        copies.push(peer.settings.clone()?)?;
    }
    Ok(copies)
}

// Copies of some peers, as an imports file gives them.
fn peers_among(alloc: Global, peers: &[HeldPeer]) -> Result<Vec<ImportedPeer>, AllocError>
    requires { All (λ p. IsPeerContent (content_of p.content).criteria (content_of p.content).entries) peers.now }
    ensures { IfOk result (λ copies. copies.items ≡ map imported_of peers.now) }
{
    let mut copies = Vec::new(alloc);
    'peers: for peer in peers {
        copies.push(imported(alloc, peer)?)?;
    }
    Ok(copies)
}

// A copy of a peer, as an imports file gives it.
fn imported(alloc: Global, peer: &HeldPeer) -> Result<ImportedPeer, AllocError>
    requires { IsPeerContent (content_of peer.now.content).criteria (content_of peer.now.content).entries }
    ensures { IfOk result (λ copy. copy ≡ imported_of peer.now) }
{
    let name = peer.settings.name.clone()?;
    let criteria = further(alloc, peer.content.definitions())?;
    let entries = entries_among(alloc, peer.content.entries())?;
    Ok(ImportedPeer {
        name,
        content: PeerContent::of(criteria, entries),
    })
}

// Copies of some held entries without their numbers, each as an own entry.
fn entries_among(alloc: Global, held: &[HeldEntry]) -> Result<Vec<Entry>, AllocError>
    ensures { IfOk result (λ copies. copies.items ≡ spoken held.now) }
{
    let mut copies = Vec::new(alloc);
    'entries: for it in held {
        copies.push(it.entry.to_own()?)?;
    }
    Ok(copies)
}
