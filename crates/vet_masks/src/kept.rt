//! What is kept of a package from one change to the next.
ghost use Rattle.std.specs.Prelude.{◌≡◌, ◌↔◌, ◌+◌, ◌*◌, ◌≤◌, ℕ, IfOk, IfErr, IsTrue, List, length, take};
ghost use Rattle.std.specs.List.{All};
ghost use Rattle.vet_entries.specs.Condemned.{condemned_by};
ghost use Rattle.vet_entries.specs.declared.step.Step.{Step};
ghost use Rattle.vet_graph.specs.Chain.{Condemned};
ghost use Rattle.vet_masks.specs.Classes.{AreJudged, IsFound, StartsExempt};
ghost use Rattle.vet_graph.specs.StandingOf.{class_by};
ghost use Rattle.vet_masks.specs.Kept.{GoesOn, IsGrown, IsKept, stands_by};
ghost use Rattle.vet_masks.specs.Reached.{used_below};

use crate::classes::PackageClasses;
use std::alloc::Global;
use vet_base::criteria_set::CriteriaSet;
use vet_base::criteria_table::CriteriaTable;
use vet_base::limits::MOST_CRITERIA;
use vet_base::refusal::Refusal;
use vet_demand::pair::Pair;
use vet_entries::condemned::{Violation, condemned_by};
use vet_entries::judge::merged;
use vet_entries::step::Step;
use vet_graph::class::Class;
use vet_graph::standing::Stand;

// What was found of a package, and the violations by which its versions were judged, those of one requirement as one.
#[derive(Drop)]
pub(crate) struct KeptPackage {
    pub(crate) violations: Vec<Violation>,
    pub(crate) classes: PackageClasses,
}

// What is kept of a package after a change, and how many looks were made for it.
#[derive(Drop)]
pub(crate) struct Searched {
    pub(crate) kept: KeptPackage,
    pub(crate) looks: u128,
}

impl Searched {
    // A package of these steps and violations, of which nothing was found before.
    pub(crate) fn anew(
        alloc: Global,
        steps: Vec<Step>,
        violations: &[Violation],
    ) -> Result<Searched, Refusal>
        requires starts { All StartsExempt steps.items }
        ensures kept { IfOk result (λ s. IsKept steps.items (condemned_by violations.now) s.kept) }
        ensures looks { IfOk result (λ s. s.looks ≡ s.kept.classes.looks.count) }
        ensures memory { IfErr result (λ e. e ≡ Refusal.NoMemory) }
    {
        let kept = KeptPackage::found(alloc, steps, violations)?;
        let looks = kept.classes.looks.count();
        Ok(Searched { kept, looks })
    }
}

impl KeptPackage {
    // Of these steps and violations, of which nothing is kept.
    pub(crate) fn found(
        alloc: Global,
        steps: Vec<Step>,
        violations: &[Violation],
    ) -> Result<KeptPackage, Refusal>
        requires starts { All StartsExempt steps.items }
        ensures kept { IfOk result (IsKept steps.items (condemned_by violations.now)) }
        ensures memory { IfErr result (λ e. e ≡ Refusal.NoMemory) }
    {
        let violations = merged(alloc, violations)?;
        let nothing = PackageClasses::nothing(alloc);
        let classes = nothing.extended(alloc, steps, violations.as_slice())?;
        Ok(KeptPackage {
            violations,
            classes,
        })
    }

    // Of these steps and violations, from what is kept: extended where the table of criteria is the same and the
    // package has grown, and otherwise found anew.
    pub(crate) fn after(
        &self,
        alloc: Global,
        same_criteria: bool,
        steps: Vec<Step>,
        violations: &[Violation],
    ) -> Result<Searched, Refusal>
        requires starts { All StartsExempt steps.items }
        requires kept { (old_steps : List Step) × (old : Condemned) × IsKept old_steps old self.now }
        ensures kept { IfOk result (λ s. IsKept steps.items (condemned_by violations.now) s.kept) }
        ensures grown { IfOk result (λ s. GoesOn same_criteria steps.items (condemned_by violations.now) self.now
            → self.now.classes.looks.count + s.looks ≡ s.kept.classes.looks.count) }
        ensures anew { IfOk result (λ s. ¬ GoesOn same_criteria steps.items (condemned_by violations.now) self.now
            → s.looks ≡ s.kept.classes.looks.count) }
        ensures memory { IfErr result (λ e. e ≡ Refusal.NoMemory) }
    {
        let merged = merged(alloc, violations)?;
        if !self.goes_on(same_criteria, steps.as_slice(), merged.as_slice()) {
            return Searched::anew(alloc, steps, merged.as_slice());
        }
        let classes = self.classes.extended(alloc, steps, merged.as_slice())?;
        let looks = classes.looks.count() - self.classes.looks.count();
        let kept = KeptPackage {
            violations: merged,
            classes,
        };
        Ok(Searched { kept, looks })
    }

    // Pairs of the package, each with its class.
    pub(crate) fn stands(
        &self,
        alloc: Global,
        criteria: &CriteriaTable,
        pairs: &[Pair],
    ) -> Result<Vec<Stand>, Refusal>
        requires { (steps : List Step) × (condemned : Condemned) × IsKept steps condemned self.now }
        ensures stands { IfOk result (λ stands. (steps : List Step) (condemned : Condemned)
            → IsKept steps condemned self.now → stands.items ≡ stands_by criteria.now steps condemned pairs.now) }
        ensures memory { IfErr result (λ e. e ≡ Refusal.NoMemory) }
    {
        let mut stands = Vec::new(alloc);
        'pairs: for place in 0..pairs.len() {
            stands.push(self.stand(criteria, &pairs[place])?)?;
        }
        Ok(stands)
    }

    // A pair of the package with its class.
    fn stand(&self, criteria: &CriteriaTable, pair: &Pair) -> Result<Stand, Refusal>
        requires { (steps : List Step) × (condemned : Condemned) × IsKept steps condemned self.now }
        ensures ok { IfOk result (λ stand. (steps : List Step) (condemned : Condemned) → IsKept steps condemned self.now
            → stand ≡ record { pair = pair.now; class = class_by criteria.now steps condemned pair.now }) }
        ensures memory { IfErr result (λ e. e ≡ Refusal.NoMemory) }
    {
        let class = self.class(criteria, pair);
        Ok(Stand {
            pair: pair.clone()?,
            class,
        })
    }

    // The class of a pair of the package: the last one where the table lacks its criterion.
    fn class(&self, criteria: &CriteriaTable, pair: &Pair) -> Class
        requires { (steps : List Step) × (condemned : Condemned) × IsKept steps condemned self.now }
        ensures { (steps : List Step) (condemned : Condemned) → IsKept steps condemned self.now
            → result ≡ class_by criteria.now steps condemned pair.now }
    {
        match criteria.place(&pair.criterion) {
            Some(place) => self.classes.class(place, &pair.version),
            None => Class::Unvetted,
        }
    }

    // How many looks were made at the package's steps, since what was found of it was last found anew. Where e versions
    // have an exempt step, that is at most e + 3 searches, each of a look at each step and one more for each criterion.
    pub(crate) fn looks(&self) -> u128
        ensures value { result ≡ self.now.classes.looks.count }
        ensures bound { (steps : List Step) (condemned : Condemned) → IsKept steps condemned self.now
            → result ≤ (self.now.classes.exempt.count + 3) * (length steps * (used_below MOST_CRITERIA steps + 1)) }
    {
        self.classes.looks.count()
    }

    // Whether what is kept goes on.
    fn goes_on(&self, same_criteria: bool, steps: &[Step], violations: &[Violation]) -> bool
        requires kept { (old_steps : List Step) × (old : Condemned) × IsKept old_steps old self.now }
        ensures { IsTrue result ↔ GoesOn same_criteria steps.now (condemned_by violations.now) self.now }
    {
        if !same_criteria {
            return false;
        }
        self.has_grown(steps, violations)
    }

    // Whether these steps are those that are kept and then none or more, and these violations condemn each version that
    // the kept ones name as it was condemned. Violations that are the same need no look at versions.
    fn has_grown(&self, steps: &[Step], violations: &[Violation]) -> bool
        requires kept { (old_steps : List Step) × (old : Condemned) × IsKept old_steps old self.now }
        ensures { IsTrue result ↔ IsGrown steps.now (condemned_by violations.now) self.now }
    {
        if !self.classes.looks.are_first_of(steps) {
            return false;
        }
        are_same(self.violations.as_slice(), violations) || self.classes.are_judged_by(violations)
    }
}

impl PackageClasses {
    // Whether violations condemn each version that steps name for the criteria that are held of it.
    fn are_judged_by(&self, violations: &[Violation]) -> bool
        requires { (steps : List Step) × (condemned : Condemned) × IsFound steps condemned self.now }
        ensures { IsTrue result ↔ AreJudged self.now.index (condemned_by violations.now) self.now.condemned.items }
    {
        'versions: for (version, number) in self.index.numbers.iter() {
            let condemned = condemned_by(violations, version);
            if !is_same_set(&condemned, &self.condemned[*number]) {
                return false;
            }
        }
        true
    }
}

// Whether two lists of violations are the same.
fn are_same(held: &[Violation], violations: &[Violation]) -> bool
    ensures { IsTrue result → held.now ≡ violations.now }
{
    if held.len() != violations.len() {
        return false;
    }
    'violations: for place in 0..held.len() {
        if !is_same(&held[place], &violations[place]) {
            return false;
        }
    }
    true
}

// Whether two violations are the same.
fn is_same(held: &Violation, violation: &Violation) -> bool
    ensures { IsTrue result ↔ (held.now ≡ violation.now) }
{
    held.requirement == violation.requirement && is_same_set(&held.criteria, &violation.criteria)
}

// Whether two sets are the same.
pub(crate) fn is_same_set(set: &CriteriaSet, other: &CriteriaSet) -> bool
    ensures { IsTrue result ↔ (set.now ≡ other.now) }
{
    !set.exceeds(other) && !other.exceeds(set)
}
