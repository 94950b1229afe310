//! The class of each version of a package, from a few searches for all criteria at once.
ghost use Rattle.std.specs.Prelude.{◌≡◌, ◌↔◌, ◌<◌, ◌&&◌, ℕ, true, IsTrue, List, Some, None, get_or, length};
ghost use Rattle.std.specs.BTreeMap.{get};
ghost use Rattle.vet_base.specs.CriteriaSet.{has};
ghost use Rattle.vet_base.specs.Version.{VersionValue};
ghost use Rattle.vet_base.specs.VersionOrder.{version_cmp};
ghost use Rattle.vet_entries.specs.declared.step.Step.{Step};
ghost use Rattle.vet_graph.specs.Chain.{Condemned};
ghost use Rattle.vet_graph.specs.Class.{IsConflicting};
ghost use Rattle.vet_graph.specs.ClassAt.{class_at};
ghost use Rattle.vet_masks.specs.Classes.{AreClasses, held_at, held_by, is_wanted};
ghost use Rattle.vet_masks.specs.Rules.{rule_of};

use crate::exempt::ExemptNumbers;
use crate::index::Index;
use crate::looks::Looks;
use crate::rule::Rule;
use vet_base::criteria_set::CriteriaSet;
use vet_base::version::VetVersion;
use vet_graph::class::Class;

// What was found of a package. Sets are kept by the numbers of versions.
#[derive(Drop)]
pub(crate) struct PackageClasses {
    pub(crate) looks: Looks,
    pub(crate) index: Index,
    // The criteria for which versions are condemned.
    pub(crate) condemned: Vec<CriteriaSet>,
    pub(crate) exempt: ExemptNumbers,
    // By the places of their rules, what searches through no condemned version reached.
    pub(crate) clean: Vec<Vec<CriteriaSet>>,
    // What a search through any version reached, where a step leads to a condemned one.
    pub(crate) any: Option<Vec<CriteriaSet>>,
}

impl PackageClasses {
    // The class of a version for the criterion at a place.
    pub(crate) fn class(&self, place: usize, version: &VetVersion) -> Class
        requires { (steps : List Step) × (condemned : Condemned) × AreClasses steps condemned self.now }
        ensures { (steps : List Step) (condemned : Condemned) → AreClasses steps condemned self.now
            → result ≡ class_at steps condemned place version.now }
    {
        let Some(number) = self.index.numbers.get(version).copied() else {
            return Class::Unvetted;
        };
        if self.is_conflicting(number, place) {
            return Class::Conflicting;
        }
        if self.clean[0][number].has(place) {
            return Class::Full;
        }
        if self.reached(number, true).has(place) {
            return Class::Partial;
        }
        if self.reached(number, false).has(place) {
            return Class::Exempted;
        }
        Class::Unvetted
    }

    // Whether the version of a number is condemned for a criterion, and yet some chain leads to it.
    fn is_conflicting(&self, number: usize, place: usize) -> bool
        requires { (steps : List Step) × (condemned : Condemned) × AreClasses steps condemned self.now
            × (number < length self.now.index.after.items) }
        ensures { (steps : List Step) (condemned : Condemned) → AreClasses steps condemned self.now
            → (v : VersionValue) → get version_cmp self.now.index.numbers v ≡ Some number
            → IsTrue result ↔ IsConflicting steps condemned place v }
    {
        let Some(any) = &self.any else {
            return false;
        };
        self.condemned[number].has(place) && any[number].has(place)
    }

    // The criteria for which some search through no condemned version reaches the version of a number; where the chains
    // are to end in a review, some search that skips the exempt steps to it.
    fn reached(&self, number: usize, ends_reviewed: bool) -> CriteriaSet
        requires { (steps : List Step) × (condemned : Condemned) × AreClasses steps condemned self.now
            × (number < length self.now.index.after.items) }
        ensures { (c : ℕ) → (has c result ≡ true) ↔ ((i : ℕ) × (i < length self.now.clean.items)
            × (is_wanted ends_reviewed (rule_of i) (get_or self.now.exempt.numbers.items number None) ≡ true)
            × (has c (held_at self.now.clean.items i number) ≡ true)) }
    {
        let mut criteria = CriteriaSet::empty();
        'searches: for place in 0..self.clean.len() {
            criteria = criteria.union(&self.reached_by(place, number, ends_reviewed));
        }
        criteria
    }

    // The same by the search at a place alone.
    fn reached_by(&self, place: usize, number: usize, ends_reviewed: bool) -> CriteriaSet
        requires place { place < length self.now.clean.items }
        requires number { number < length (held_by self.now.clean.items place) }
        requires exempt { number < length self.now.exempt.numbers.items }
        ensures { (c : ℕ) → has c result
            ≡ (is_wanted ends_reviewed (rule_of place) (get_or self.now.exempt.numbers.items number None)
            && has c (held_at self.now.clean.items place number)) }
    {
        let exempt = self.exempt.numbers[number];
        if is_wanted(ends_reviewed, &Rule::of(place), exempt) {
            return self.clean[place][number];
        }
        CriteriaSet::empty()
    }
}

// Whether the chains that a search takes are such as are asked for.
fn is_wanted(ends_reviewed: bool, rule: &Rule, exempt: Option<usize>) -> bool
    ensures { result ≡ is_wanted ends_reviewed rule.now exempt }
{
    !ends_reviewed || rule.skips(exempt)
}
