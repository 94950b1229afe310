//! The criteria for which violations condemn versions.
ghost use Rattle.std.specs.Prelude.{◌≡◌, ◌||◌, ◌&&◌, ◌++◌, ℕ, IfOk, IfErr, OnOk};
ghost use Rattle.std.specs.List.{list_any};
ghost use Rattle.std.specs.Option.{option_copied};
ghost use Rattle.vet_base.specs.Closures.{AreClosures};
ghost use Rattle.vet_base.specs.Criteria.{leads_to, placed};
ghost use Rattle.vet_base.specs.CriteriaSet.{has};
ghost use Rattle.vet_base.specs.Req.{req_matches};
ghost use Rattle.vet_entries.specs.Condemned.{ViolationsCondemn, condemned_by, condemns, is_condemned, violates};
ghost use Rattle.vet_entries.specs.Condemned.{violation_in, violations_of};
ghost use Rattle.vet_entries.specs.PeerWords.{violated_names};
ghost use Rattle.vet_entries.specs.Source.{IsWithin, entries_from};

use crate::facts::{EntryFacts, HeldEntry};
use crate::held_peer::HeldPeer;
use crate::kind::Kind;
use crate::local_criteria::mapped_set;
use crate::package_entries::PackageEntries;
use crate::source::{Source, entries_taken, own_entries};
use std::alloc::{AllocError, Global};
use vet_base::closures::Closures;
use vet_base::criteria_set::{CriteriaSet, meet_of_nothing, meet_of_unions};
use vet_base::criteria_table::{CriteriaTable, led_to};
use vet_base::name::PackageName;
use vet_base::names::Names;
use vet_base::refusal::Refusal;
use vet_base::req::Req;
use vet_base::version::VetVersion;

/// The criteria for which a version of a package is condemned: those whose closure has a criterion that a violation of
/// the package names, if the requirement of the violation matches the version. The violation is one's own, or that of a
/// peer that does not exclude the package. The names in a peer's violation are mapped, and neither they nor one's own
/// are closed. Takes no memory. Costs a binary search among the own entries and one among those of each peer, a look at
/// each of the package's entries, and the closures of the table once. Each violation that matches costs a search for
/// each of its names. For a peer's violation this is a search in the peer's map, and one for each name that the map
/// lists there.
pub fn condemned(package: &PackageName, version: &VetVersion, facts: &EntryFacts) -> CriteriaSet
    ensures { (c : ℕ) → has c result ≡ is_condemned facts.now.content «package».now c version.now }
{
    meet_of_nothing();
    led_to();
    let criteria = facts.criteria();
    let own = own_entries(package, facts);
    let mut violated = with_all_violated(CriteriaSet::empty(), &own, version, criteria);
    for peer in facts.peers() {
        let taken = entries_taken(package, peer);
        violated = with_all_violated(violated, &taken, version, criteria);
    }
    criteria.leading_to(&violated)
}

// The violated criteria together with those that violations of a source name.
fn with_all_violated(
    mut violated: CriteriaSet,
    source: &Source<'_>,
    version: &VetVersion,
    criteria: &CriteriaTable,
) -> CriteriaSet
    requires { IsWithin source.now }
    ensures { (c : ℕ) → leads_to criteria.now result c ≡ (leads_to criteria.now violated c
        || list_any (condemns criteria.now version.now c) (entries_from source.now)) }
{
    for place in source.places {
        let held = &source.entries[*place];
        violated = with_violated(violated, source.peer, held, version, criteria);
    }
    violated
}

// The violated criteria together with those that an entry of a peer or an own one names, if it is a violation that
// matches the version.
fn with_violated(
    violated: CriteriaSet,
    peer: Option<&HeldPeer>,
    held: &HeldEntry,
    version: &VetVersion,
    criteria: &CriteriaTable,
) -> CriteriaSet
    ensures { (c : ℕ) → leads_to criteria.now result c ≡ (leads_to criteria.now violated c
        || condemns criteria.now version.now c (record { peer = option_copied peer.entry; held = held.now })) }
{
    meet_of_unions();
    if !held.entry.kind.violates(version) {
        return violated;
    }
    violated.union(&violated_set(peer, &held.entry.criteria, criteria))
}

/// A violation of a package: the requirement that its versions match, and the criteria for which they are condemned.
pub struct Violation {
    pub requirement: Req,
    /// The criteria whose closure has one that the violation names, by their places in the table.
    pub criteria: CriteriaSet,
}

impl Drop for Violation {
    fn drop(self) {
        let Violation {
            requirement: _,
            criteria: _,
        } = self;
    }
}

/// The violations of a package: one's own, then those of each peer that does not exclude it, each in the order of the
/// entries' numbers. Costs the closures of the table, and then as much as `PackageEntries::of` and `violations`.
/// Refused: `NoMemory`.
pub fn violations_of(
    alloc: Global,
    package: &PackageName,
    facts: &EntryFacts,
) -> Result<Vec<Violation>, Refusal>
    ensures ok { IfOk result (λ v. v.items ≡ violations_of facts.now.content «package».now) }
    ensures memory { IfErr result (λ e. e ≡ Refusal.NoMemory) }
{
    let entries = PackageEntries::of(alloc, package, facts)?;
    entries.violations(alloc, facts, &facts.criteria().closures())
}

/// The criteria for which some violations condemn a version. Takes no memory. Costs a look at each violation.
pub fn condemned_by(violations: &[Violation], version: &VetVersion) -> CriteriaSet
    ensures { (c : ℕ) → has c result ≡ condemned_by violations.now c version.now }
{
    let mut condemned = CriteriaSet::empty();
    for violation in violations {
        condemned = with_matching(condemned, violation, version);
    }
    condemned
}

/// The violations of a package condemn a version for exactly the criteria for which its entries do.
pub fn violations_condemn()
    ensures { ViolationsCondemn }
{
    led_to();
}

/// Adds the violation that an own entry or a peer's is, if it is one.
pub(crate) fn add_violation(
    violations: &mut Vec<Violation>,
    peer: Option<&HeldPeer>,
    held: &HeldEntry,
    criteria: &CriteriaTable,
    closures: &Closures,
) -> Result<(), AllocError>
    requires { AreClosures criteria.now closures.now }
    ensures { OnOk result (violations.new.items ≡ violations.old.items
        ++ violation_in criteria.now (record { peer = option_copied peer.entry; held = held.now })) }
{
    if let Kind::Violation(requirement, _) = &held.entry.kind {
        let violated = violated_set(peer, &held.entry.criteria, criteria);
        violations.push(Violation {
            requirement: requirement.clone()?,
            criteria: closures.leading_to(&violated),
        })?;
    }
    Ok(())
}

// The criteria that a violation names, as places in the table. Those of a peer's violation are mapped.
fn violated_set(peer: Option<&HeldPeer>, names: &Names, criteria: &CriteriaTable) -> CriteriaSet
    ensures { result ≡ placed criteria.now (violated_names (option_copied peer.entry) names.now) }
{
    match peer {
        None => criteria.set_of(names),
        Some(peer) => mapped_set(criteria, &peer.settings.map, names),
    }
}

// The condemned criteria together with those of a violation, if it matches the version.
fn with_matching(condemned: CriteriaSet, violation: &Violation, version: &VetVersion) -> CriteriaSet
    ensures { (c : ℕ) → has c result ≡ (has c condemned
        || (req_matches violation.now.requirement version.now.parts && has c violation.now.criteria)) }
{
    if !violation.requirement.matches(version) {
        return condemned;
    }
    condemned.union(&violation.criteria)
}

impl Kind {
    // Whether this is a violation that matches a version.
    fn violates(&self, version: &VetVersion) -> bool
        ensures { result ≡ violates version.now self.now }
    {
        match self {
            Kind::Violation(requirement, _) => requirement.matches(version),
            _ => false,
        }
    }
}
