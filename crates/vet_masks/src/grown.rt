//! What searches find of a package to which steps were added, from what they found of its first steps.
//!
//! A search goes on from what it reached. What it reached by the first steps stays reached, as long as each version
//! that these steps name is condemned for the same criteria. A search that wasn't needed before begins from scratch,
//! over the same index.
ghost use Rattle.std.specs.Prelude.{◌≡◌, ◌≢◌, ◌+◌, ◌*◌, ◌^◌, ◌<◌, ◌≤◌, ◌∷◌, ℕ, false, IfOk, IfErr, IsTrue, [], Some};
ghost use Rattle.std.specs.Prelude.{get_or, length, map, take};
ghost use Rattle.std.specs.BTreeMap.{get};
ghost use Rattle.std.specs.FinSet as set;
ghost use Rattle.std.specs.List.{All};
ghost use Rattle.vet_base.specs.CriteriaSet.{has};
ghost use Rattle.vet_base.specs.Version.{VersionValue};
ghost use Rattle.vet_base.specs.VersionOrder.{version_cmp};
ghost use Rattle.vet_entries.specs.Condemned.{condemned_by};
ghost use Rattle.vet_graph.specs.Chain.{Condemned};
ghost use Rattle.vet_masks.specs.Classes.{AreClasses, AreJudged, AreReached, IsAny, IsFound, StartsExempt};
ghost use Rattle.vet_masks.specs.Classes.{bars_nothing, held_by, held_by_all, held_if_any, takes_each};
ghost use Rattle.vet_masks.specs.Growing.{AreJudgedAlike, IsShared, is_taken_now, spent_first, spent_now};
ghost use Rattle.vet_masks.specs.Index.{IsIndex, IsNumbering, no_ends};
ghost use Rattle.vet_masks.specs.Masks.{IsReaching, is_open, numbered_by, size, spent};
ghost use Rattle.vet_masks.specs.Rules.{AreEnough, rule_of, skips};

use crate::classes::PackageClasses;
use crate::exempt::ExemptNumbers;
use crate::index::{Ends, Index};
use crate::looks::Looks;
use crate::masks::Terms;
use crate::reach::{filled_up, reach};
use crate::rule::{Rule, searches_for};
use crate::search::all_flags;
use std::alloc::Global;
use vet_base::criteria_set::CriteriaSet;
use vet_base::limits::MOST_CRITERIA;
use vet_base::refusal::Refusal;
use vet_entries::condemned::{Violation, condemned_by};
use vet_entries::step::Step;

// What all searches of a package share.
#[derive(Clone, Copy)]
pub(crate) struct Shared<'s> {
    pub(crate) index: &'s Index,
    // How many steps were searched before.
    pub(crate) first: usize,
    // By their numbers, the criteria for which versions are condemned.
    pub(crate) condemned: &'s [CriteriaSet],
    pub(crate) exempt: &'s ExemptNumbers,
}

impl PackageClasses {
    // Of a package without steps. No search was begun.
    pub(crate) fn nothing(alloc: Global) -> PackageClasses
        ensures found { (condemned : Condemned) → IsFound [] condemned result }
        ensures looks { result.looks.count ≡ 0 }
    {
        PackageClasses {
            looks: Looks::over(Vec::new(alloc)),
            index: Index::nothing(alloc),
            condemned: Vec::new(alloc),
            exempt: ExemptNumbers::nothing(alloc),
            clean: Vec::new(alloc),
            any: None,
        }
    }

    // The same for these steps. The first of them are those that were searched, and the violations condemn the versions
    // that these name as before.
    pub(crate) fn extended(
        &self,
        alloc: Global,
        steps: Vec<Step>,
        violations: &[Violation],
    ) -> Result<PackageClasses, Refusal>
        requires first { length self.now.looks.steps ≤ length steps.items }
        requires starts { All StartsExempt steps.items }
        requires found { (old : Condemned)
            × IsFound (take (length self.now.looks.steps) steps.items) old self.now
            × AreJudgedAlike self.now.index old (condemned_by violations.now) }
        ensures classes { IfOk result (AreClasses steps.items (condemned_by violations.now)) }
        ensures looks { IfOk result (λ p. self.now.looks.count ≤ p.looks.count) }
        ensures memory { IfErr result (λ e. e ≡ Refusal.NoMemory) }
    {
        let first = self.looks.len();
        let mut looks = self.looks.over_others(steps);
        let index = self.index.extended(alloc, &mut looks, first)?;
        let condemned = judged(alloc, &index, self.condemned.as_slice(), violations)?;
        let exempt = self.exempt.extended(alloc, &index, first)?;
        let shared = Shared {
            index: &index,
            first,
            condemned: condemned.as_slice(),
            exempt: &exempt,
        };
        let clean = self.all_clean(alloc, &mut looks, &shared)?;
        let any = self.any_chains(alloc, &mut looks, &shared)?;
        Ok(PackageClasses {
            looks,
            index,
            condemned,
            exempt,
            clean,
            any,
        })
    }
}

impl PackageClasses {
    // What the searches through no condemned version reach: those that were begun go on, and those that are wanted now
    // begin.
    fn all_clean(
        &self,
        alloc: Global,
        looks: &mut Looks,
        shared: &Shared<'_>,
    ) -> Result<Vec<Vec<CriteriaSet>>, Refusal>
        requires shared { (condemned : Condemned) × IsShared looks.old.steps condemned self.now shared.now }
        requires count { looks.old.count < 2 ^ 126 }
        ensures enough { IfOk result (λ all. AreEnough shared.now.exempt.now.count (length all.items)) }
        ensures few { IfOk result (λ all. length all.items ≤ shared.now.exempt.now.count + 2) }
        ensures most { IfOk result (λ all. length all.items < 130) }
        ensures clean { IfOk result (λ all. (condemned : Condemned)
            → IsShared looks.old.steps condemned self.now shared.now → (i : ℕ) → i < length all.items
            → AreReached looks.old.steps shared.now.index.now condemned (is_taken_now shared.now (rule_of i))
            (held_by all.items i)) }
        ensures steps { looks.new.steps ≡ looks.old.steps }
        ensures least { looks.old.count ≤ looks.new.count }
        ensures count { IfOk result (λ all. looks.new.count + spent_first shared.now (held_by_all self.now.clean.items)
            ≤ looks.old.count + spent_now shared.now (held_by_all all.items)) }
        ensures bound { IfOk result (λ all.
            looks.new.count ≤ looks.old.count
            + length all.items * ((MOST_CRITERIA + 1) * length looks.old.steps)) }
        ensures memory { IfErr result (λ e. e ≡ Refusal.NoMemory) }
    {
        let count = searches_for(shared.exempt.count).max(self.clean.len());
        let mut all = Vec::new(alloc);
        'searches: for place in 0..count {
            all.push(self.clean_at(alloc, looks, shared, place)?)?;
        }
        Ok(all)
    }

    // The same of the search at a place.
    fn clean_at(
        &self,
        alloc: Global,
        looks: &mut Looks,
        shared: &Shared<'_>,
        place: usize,
    ) -> Result<Vec<CriteriaSet>, Refusal>
        requires shared { (condemned : Condemned) × IsShared looks.old.steps condemned self.now shared.now }
        requires count { looks.old.count < 2 ^ 127 }
        ensures clean { IfOk result (λ held. (condemned : Condemned)
            → IsShared looks.old.steps condemned self.now shared.now
            → AreReached looks.old.steps shared.now.index.now condemned (is_taken_now shared.now (rule_of place))
            held.items) }
        ensures steps { looks.new.steps ≡ looks.old.steps }
        ensures least { looks.old.count ≤ looks.new.count }
        ensures goes_on { place < length self.now.clean.items → IfOk result (λ held.
            looks.new.count + spent_first shared.now (held_by self.now.clean.items place ∷ [])
            ≤ looks.old.count + spent_now shared.now (held.items ∷ [])) }
        ensures begins { length self.now.clean.items ≤ place → IfOk result (λ held.
            looks.new.count ≤ looks.old.count + spent_now shared.now (held.items ∷ [])) }
        ensures bound { IfOk result (λ _.
            looks.new.count ≤ looks.old.count + (MOST_CRITERIA + 1) * length looks.old.steps) }
        ensures memory { IfErr result (λ e. e ≡ Refusal.NoMemory) }
    {
        let skipped = skipped_under(alloc, shared.exempt, &Rule::of(place))?;
        let terms = Terms {
            bars: shared.condemned,
            skipped: skipped.as_slice(),
        };
        if place < self.clean.len() {
            let held = self.clean[place].as_slice();
            return reach(alloc, looks, shared.index, shared.first, held, &terms);
        }
        reach(alloc, looks, shared.index, 0, &[], &terms)
    }

    // What a search through any version reaches, if one was begun before or some step leads to a condemned version now.
    fn any_chains(
        &self,
        alloc: Global,
        looks: &mut Looks,
        shared: &Shared<'_>,
    ) -> Result<Option<Vec<CriteriaSet>>, Refusal>
        requires shared { (condemned : Condemned) × IsShared looks.old.steps condemned self.now shared.now }
        requires count { looks.old.count < 2 ^ 127 }
        ensures any { IfOk result (λ any. (condemned : Condemned)
            → IsShared looks.old.steps condemned self.now shared.now
            → IsAny looks.old.steps condemned shared.now.index.now any) }
        ensures steps { looks.new.steps ≡ looks.old.steps }
        ensures least { looks.old.count ≤ looks.new.count }
        ensures count { IfOk result (λ any. looks.new.count + spent_first shared.now (held_if_any self.now.any)
            ≤ looks.old.count + spent_now shared.now (held_if_any any)) }
        ensures memory { IfErr result (λ e. e ≡ Refusal.NoMemory) }
    {
        if let Some(any) = &self.any {
            return Ok(Some(chains(alloc, looks, shared.index, shared.first, any.as_slice())?));
        }
        if !leads_to_condemned(shared.index.ends.as_slice(), shared.condemned) {
            return Ok(None);
        }
        Ok(Some(chains(alloc, looks, shared.index, 0, &[])?))
    }
}

// What a search through any version, by any step, reaches, where this is what it reached by the first steps.
fn chains(
    alloc: Global,
    looks: &mut Looks,
    index: &Index,
    first: usize,
    held: &[CriteriaSet],
) -> Result<Vec<CriteriaSet>, Refusal>
    requires first { first ≤ length looks.old.steps }
    requires count { looks.old.count < 2 ^ 127 }
    requires index { IsIndex looks.old.steps index.now }
    requires held { length held.now ≤ length index.now.after.items }
    requires reaches { IsReaching (numbered_by index.now looks.old.steps) (is_open bars_nothing takes_each) first
        held.now }
    ensures reached { IfOk result (λ h. AreReached looks.old.steps index.now bars_nothing takes_each h.items) }
    ensures least { looks.old.count ≤ looks.new.count }
    ensures steps { looks.new.steps ≡ looks.old.steps }
    ensures count { IfOk result (λ h. looks.new.count
        + spent (size MOST_CRITERIA index.now.used) held.now (take first index.now.ends.items)
        ≤ looks.old.count + spent (size MOST_CRITERIA index.now.used) h.items index.now.ends.items) }
    ensures memory { IfErr result (λ e. e ≡ Refusal.NoMemory) }
{
    let count = index.after.len();
    let bars = filled_up(alloc, &[], count)?;
    let skipped = all_flags(alloc, false, count)?;
    let terms = Terms {
        bars: bars.as_slice(),
        skipped: skipped.as_slice(),
    };
    reach(alloc, looks, index, first, held, &terms)
}

// Whether some step leads to a version that is condemned for a criterion.
fn leads_to_condemned(ends: &[Ends], condemned: &[CriteriaSet]) -> bool
    requires { All (λ e. e.target < length condemned.now) ends.now }
    ensures some { IsTrue result → (p : ℕ) × (p < length ends.now)
        × (get_or condemned.now (get_or ends.now p no_ends).target set.empty ≢ set.empty) }
    ensures none { result ≡ false → All (λ e. get_or condemned.now e.target set.empty ≡ set.empty) ends.now }
{
    'steps: for place in 0..ends.len() {
        if !condemned[ends[place].target].is_empty() {
            return true;
        }
    }
    false
}

// Whether the exempt steps to versions are skipped by a rule, by the numbers of versions.
fn skipped_under(alloc: Global, exempt: &ExemptNumbers, rule: &Rule) -> Result<Vec<bool>, Refusal>
    ensures ok { IfOk result (λ flags. flags.items ≡ map (skips rule.now) exempt.now.numbers.items) }
    ensures memory { IfErr result (λ e. e ≡ Refusal.NoMemory) }
{
    let mut flags = Vec::new(alloc);
    'versions: for place in 0..exempt.numbers.len() {
        flags.push(rule.skips(exempt.numbers[place]))?;
    }
    Ok(flags)
}

// The criteria for which violations condemn versions, by their numbers, where these are those of the first versions.
fn judged(
    alloc: Global,
    index: &Index,
    held: &[CriteriaSet],
    violations: &[Violation],
) -> Result<Vec<CriteriaSet>, Refusal>
    requires held { length held.now ≤ length index.now.after.items }
    requires numbering { IsNumbering (get version_cmp index.now.numbers) (length index.now.after.items) }
    requires judged { (v : VersionValue) (n c : ℕ) → get version_cmp index.now.numbers v ≡ Some n
        → n < length held.now → has c (get_or held.now n set.empty) ≡ condemned_by violations.now c v }
    ensures judged { IfOk result (λ sets. AreJudged index.now (condemned_by violations.now) sets.items) }
    ensures memory { IfErr result (λ e. e ≡ Refusal.NoMemory) }
{
    let mut sets = filled_up(alloc, held, index.after.len())?;
    'versions: for (version, number) in index.numbers.iter() {
        if *number >= held.len() {
            sets[*number] = condemned_by(violations, version);
        }
    }
    Ok(sets)
}
