//! The violations of a package, by which many versions are judged.
//!
//! **Each distinct requirement is matched once against each distinct version, and the criteria found are those for
//! which the violations together condemn the version.**
ghost use Rattle.std.specs.Prelude.{◌≡◌, ◌||◌, ◌&&◌, ℕ, IfOk, IfErr, OnOk};
ghost use Rattle.std.specs.BTreeMap.{get};
ghost use Rattle.std.specs.Cmp.Lexicographic.{slice_cmp};
ghost use Rattle.std.specs.Ordering.{nat_cmp};
ghost use Rattle.vet_base.specs.CriteriaSet.{has};
ghost use Rattle.vet_base.specs.Req.{req_matches};
ghost use Rattle.vet_base.specs.Version.{VersionValue};
ghost use Rattle.vet_base.specs.VersionOrder.{version_cmp};
ghost use Rattle.vet_entries.specs.Condemned.{condemned_by};
ghost use Rattle.vet_entries.specs.Judge.{AreJudged, ArePlaced};

use crate::condemned::{Violation, condemned_by};
use std::alloc::Global;
use std::collections::BTreeMap;
use vet_base::criteria_set::CriteriaSet;
use vet_base::refusal::Refusal;
use vet_base::req::Req;
use vet_base::version::VetVersion;

/// Some violations, with those of the same requirement merged into one. Costs a lookup of each requirement among those
/// before it, and two copies of each distinct one. Refused: `NoMemory`.
pub fn merged(alloc: Global, violations: &[Violation]) -> Result<Vec<Violation>, Refusal>
    ensures ok { IfOk result (λ merged. (c : ℕ) (v : VersionValue)
        → condemned_by merged.items c v ≡ condemned_by violations.now c v) }
    ensures memory { IfErr result (λ e. e ≡ Refusal.NoMemory) }
{
    let mut merged = Vec::new(alloc);
    let mut places = BTreeMap::new(alloc);
    for violation in violations {
        merge(&mut merged, &mut places, violation)?;
    }
    Ok(merged)
}

/// The criteria for which some violations condemn a version, which may have been found before. Costs a lookup among the
/// versions judged so far. For a new version it also costs a look at each violation, and a copy of the version.
/// Refused: `NoMemory`.
pub fn judge(
    judged: &mut BTreeMap<VetVersion, CriteriaSet>,
    violations: &[Violation],
    version: &VetVersion,
) -> Result<CriteriaSet, Refusal>
    requires { AreJudged violations.now (get version_cmp judged.old) }
    ensures ok { IfOk result (λ condemned. (c : ℕ) → has c condemned ≡ condemned_by violations.now c version.now) }
    ensures judged { OnOk result (AreJudged violations.now (get version_cmp judged.new)) }
    ensures memory { IfErr result (λ e. e ≡ Refusal.NoMemory) }
{
    if let Some(condemned) = judged.get(version).copied() {
        return Ok(condemned);
    }
    let condemned = condemned_by(violations, version);
    judged.insert(version.clone()?, condemned)?;
    Ok(condemned)
}

// Merges a violation into the one with its requirement, or adds it after all.
fn merge(
    merged: &mut Vec<Violation>,
    places: &mut BTreeMap<Req, usize>,
    violation: &Violation,
) -> Result<(), Refusal>
    requires { ArePlaced merged.old.items (get (slice_cmp nat_cmp) places.old) }
    ensures placed { OnOk result (ArePlaced merged.new.items (get (slice_cmp nat_cmp) places.new)) }
    ensures condemns { OnOk result ((c : ℕ) (v : VersionValue) → condemned_by merged.new.items c v
        ≡ (condemned_by merged.old.items c v
        || (req_matches violation.now.requirement v.parts && has c violation.now.criteria))) }
    ensures memory { IfErr result (λ e. e ≡ Refusal.NoMemory) }
{
    if let Some(place) = places.get(&violation.requirement).copied() {
        merged[place].criteria = merged[place].criteria.union(&violation.criteria);
        return Ok(());
    }
    places.insert(violation.requirement.clone()?, merged.len())?;
    merged.push(Violation {
        requirement: violation.requirement.clone()?,
        criteria: violation.criteria,
    })?;
    Ok(())
}
