//! A keeper of the classes of demanded pairs, which searches only touched packages.
//!
//! **A plan looks at the steps of the packages that are touched, and at no other's.**
//!
//! It keeps what the searches of each package's steps found. If steps were only added after those that it knew, the
//! searches go on from there; otherwise they begin again. The standing is held by package, so an update exchanges only
//! the pairs of touched packages, and its moves are those of these packages.
ghost use Rattle.std.specs.Prelude.{◌≡◌, ◌↔◌, ◌≤◌, ◌+◌, ◌-◌, ◌*◌, ◌^◌, [], IfErr, IfOk, IfSome, IsTrue, List};
ghost use Rattle.std.specs.Prelude.{OnOk, Some, false, length, map, min, true};
ghost use Rattle.std.specs.FinSet as set;
ghost use Rattle.std.specs.List.{All};
ghost use Rattle.std.specs.Option.{option_or};
ghost use Rattle.vet_base.specs.Names.{members};
ghost use Rattle.vet_base.specs.Words.{Name};
ghost use Rattle.vet_demand.specs.declared.pair.Pair.{Pair as PairValue};
ghost use Rattle.vet_entries.specs.Condemned.{violations_of};
ghost use Rattle.vet_entries.specs.Facts.{Facts};
ghost use Rattle.vet_demand.specs.DemandOf.{HasDemanded};
ghost use Rattle.vet_entries.specs.Step.{AreKnown, entries_of, steps_of};
ghost use Rattle.vet_masks.specs.declared.keeper.MaskUpdate.{MaskUpdate};
ghost use Rattle.vet_entries.specs.LocalCriteria.{AreLocal};
ghost use Rattle.vet_graph.specs.Moves.{moves_between};
ghost use Rattle.vet_graph.specs.Standing.{counts_of};
ghost use Rattle.vet_graph.specs.StandingOf.{standing_of};
ghost use Rattle.vet_graph.specs.Touched.{SameOutside, pairs_at};
ghost use Rattle.vet_masks.specs.Keeper.{AreChanges, Holds, HoldsAt, IsPlanned, IsSameWithRoom, IsSpent};
ghost use Rattle.vet_masks.specs.Keeper.{IsOfTouched, Spends, looks_of, looks_spent};
ghost use Rattle.vet_masks.specs.Packages.{IsKeptOf, has_kept_slot, kept_at, put_at};
ghost use Rattle.vet_masks.specs.Reached.{used_below};
ghost use Rattle.vet_masks.specs.Standings.{all_stands, has_slot};

use crate::changes::Changes;
use crate::counts::counts_after;
use crate::demanded::pairs_of;
use crate::kept::Searched;
use crate::names::{add_entries, add_other_packages};
use crate::packages::KeptPackages;
use crate::standing::Standing;
use crate::table::is_same_table;
use std::alloc::Global;
use vet_base::criteria_table::CriteriaTable;
use vet_base::limits::MOST_CRITERIA;
use vet_base::name::{Name, PackageName};
use vet_base::package_names::PackageNames;
use vet_base::refusal::Refusal;
use vet_base::version::VetVersion;
use vet_demand::demand::Demand;
use vet_entries::condemned::{Violation, violations_condemn};
use vet_entries::facts::EntryFacts;
use vet_entries::local_criteria::LocalCriteria;
use vet_entries::package_entries::PackageEntries;
use vet_entries::step::Step;
use vet_graph::class::Class;
use vet_graph::keeper::Keeper;
use vet_graph::moves::Move;
use vet_graph::standing::{Counts, Stand};
use vet_graph::touched::Touched;

/// Keeps, of each package, what searches of its steps found, and its demanded pairs with their classes.
#[derive(Drop)]
pub struct MaskKeeper {
    standing: Standing,
    packages: KeptPackages,
    // The table of the last plan that was applied.
    criteria: Option<CriteriaTable>,
    looks: u128,
}

/// What touched packages change to, the moves, the counts after them, the table of criteria if another is to be held,
/// and the packages that the plan was given as touched.
#[derive(Drop)]
pub struct MaskUpdate {
    changes: Changes,
    counts: Counts,
    criteria: Option<CriteriaTable>,
    touched: Touched,
}

impl Keeper for MaskKeeper {
    type Update = MaskUpdate;

    ghost keeping = { record {
      standing = λ k. all_stands k.standing;
      keeps = λ k facts demand. Holds k facts demand;
      plans = λ k u facts demand. IsPlanned k u facts demand;
      moves_of = λ u. u.changes.moves.items;
      touched_of = λ u. u.touched;
    } };

    /// Nothing is demanded, and nothing is kept. Never refused.
    fn empty(alloc: Global) -> Result<MaskKeeper, Refusal> {
        Ok(MaskKeeper {
            standing: Standing::nothing(alloc),
            packages: KeptPackages::nothing(alloc),
            criteria: None,
            looks: 0,
        })
    }

    /// Finds the steps and the violations of each touched package, goes on with its searches or begins anew, and looks
    /// at its demanded pairs before and after. What a peer's words stand for is found at most once, and only if a
    /// touched package has an entry of that peer. If all packages are touched, it looks at those that have an entry, a
    /// demanded pair or something kept. Refused: `NoMemory`.
    fn plan(
        &mut self,
        alloc: Global,
        touched: &Touched,
        facts: &EntryFacts,
        demand: &Demand,
    ) -> Result<MaskUpdate, Refusal>
        requires known { AreKnown facts.now.content }
        requires demanded { HasDemanded facts.now.content.criteria demand.now }
        requires outside { (old_facts : Facts) × (old_demand : List PairValue) × Holds self.old old_facts old_demand
            × SameOutside touched.now old_facts old_demand facts.now.content demand.now }
        ensures plans { IfOk result (λ u. IsPlanned self.new u facts.now.content demand.now) }
        ensures moves { IfOk result (λ u. u.changes.moves.items
            ≡ moves_between (all_stands self.old.standing) (standing_of facts.now.content demand.now)) }
        ensures touched { IfOk result (λ u. u.touched ≡ touched.now) }
        ensures memory { IfErr result (λ e. e ≡ Refusal.NoMemory) }
        ensures standing { all_stands self.new.standing ≡ all_stands self.old.standing }
        ensures keeps { (facts : Facts) (demand : List PairValue)
            → Holds self.old facts demand → Holds self.new facts demand }
        ensures stays_planned { (u : MaskUpdate) (facts : Facts) (demand : List PairValue)
            → IsPlanned self.old u facts demand → IsPlanned self.new u facts demand }
        ensures spent { IfOk result (λ u. Spends self.old u facts.now.content touched.now) }
    {
        let same_criteria = self.has_criteria(touched, facts);
        let names = self.names_of(alloc, touched, facts, demand)?;
        self.reserve(alloc, names.as_slice())?;
        self.planned(alloc, touched, same_criteria, &names, facts, demand)
    }

    fn moves(update: &MaskUpdate) -> &[Move] {
        update.changes.moves.as_slice()
    }

    fn touched(update: &MaskUpdate) -> &Touched {
        &update.touched
    }

    /// Exchanges the stands of the packages that change, and what is kept of them. Takes no memory.
    fn apply(&mut self, update: MaskUpdate)
        requires { (facts : Facts) × (demand : List PairValue) × IsPlanned self.old update facts demand }
        ensures standing { (facts : Facts) (demand : List PairValue) → IsPlanned self.old update facts demand
            → all_stands self.new.standing ≡ standing_of facts demand }
        ensures keeps { (facts : Facts) (demand : List PairValue) → IsPlanned self.old update facts demand
            → Holds self.new facts demand }
        ensures looks { self.new.looks ≡ min (self.old.looks + looks_spent update.changes.kept.items) (2 ^ 128 - 1) }
        ensures package_looks { (name : Name) → looks_of (kept_at self.new.packages name)
            ≡ looks_of (put_at update.changes.kept.items name (kept_at self.old.packages name)) }
    {
        self.standing.is_by_package();
        let MaskUpdate {
            changes,
            counts,
            criteria,
            touched: _,
        } = update;
        let Changes {
            stands,
            kept,
            moves: _,
            looks,
        } = changes;
        self.standing.exchange(stands, counts);
        self.packages.exchange(kept);
        self.looks = self.looks.saturating_add(looks);
        put_criteria(&mut self.criteria, criteria);
    }

    fn class(
        &self,
        package: &PackageName,
        version: &VetVersion,
        criterion: &Name,
    ) -> Option<Class> {
        self.standing.class(package, version, criterion)
    }

    fn stands(&self, alloc: Global) -> Result<Vec<&Stand>, Refusal> {
        self.standing.all(alloc)
    }

    fn counts(&self) -> Counts {
        self.standing.counts()
    }
}

impl MaskKeeper {
    /// How many looks at steps were made for all updates that were applied. The count stops at `u128::MAX`.
    pub fn looks(&self) -> u128
        ensures { result ≡ self.now.looks }
    {
        self.looks
    }

    /// How many looks were made at the steps of a package since its searches last began again; 0 if nothing is kept of
    /// it. If e versions have an exempt step, there are at most e + 3 searches. Each looks at a step at most once, and
    /// once more for each criterion that some step has.
    pub fn package_looks(&self, package: &PackageName) -> u128
        ensures value { result ≡ looks_of (kept_at self.now.packages «package».now) }
        ensures bound { (facts : Facts) (demand : List PairValue) → Holds self.now facts demand
            → IfSome (kept_at self.now.packages «package».now) (λ k. result ≤ (k.classes.exempt.count + 3)
            * (length (steps_of facts «package».now) * (used_below MOST_CRITERIA (steps_of facts «package».now) + 1))) }
    {
        match self.packages.of(package) {
            Some(kept) => kept.classes.looks.count(),
            None => 0,
        }
    }

    // Whether the table of criteria is that of the last plan that was applied.
    fn has_criteria(&self, touched: &Touched, facts: &EntryFacts) -> bool
        requires { (old_facts : Facts) × (old_demand : List PairValue) × (demand : List PairValue)
            × Holds self.now old_facts old_demand
            × SameOutside touched.now old_facts old_demand facts.now.content demand }
        ensures { IsTrue result ↔ (self.now.criteria ≡ Some facts.now.content.criteria) }
    {
        let Some(held) = &self.criteria else {
            return false;
        };
        match touched {
            Touched::All => is_same_table(held, facts.criteria()),
            Touched::Packages(_) => true,
        }
    }

    // The packages that may change: at each other what is held is what these facts and this demand give.
    fn names_of(
        &self,
        alloc: Global,
        touched: &Touched,
        facts: &EntryFacts,
        demand: &Demand,
    ) -> Result<PackageNames, Refusal>
        requires { (old_facts : Facts) × (old_demand : List PairValue) × Holds self.now old_facts old_demand
            × SameOutside touched.now old_facts old_demand facts.now.content demand.now }
        ensures others { IfOk result (λ names. (name : Name) → set.contains names name ≡ false
            → HoldsAt self.now facts.now.content demand.now name) }
        ensures touched { IfOk result (IsOfTouched touched.now) }
        ensures memory { IfErr result (λ e. e ≡ Refusal.NoMemory) }
    {
        self.standing.is_by_package();
        match touched {
            Touched::All => self.all_names(alloc, facts, demand),
            Touched::Packages(names) => Ok(names.clone()?),
        }
    }

    // The packages that have a slot here, a demanded pair or an entry of any source. Most have a slot, and each is
    // looked up there before it is copied and put in order.
    fn all_names(
        &self,
        alloc: Global,
        facts: &EntryFacts,
        demand: &Demand,
    ) -> Result<PackageNames, Refusal>
        ensures slots { IfOk result (λ names. (name : Name) → set.contains names name ≡ false
            → has_slot self.now.standing name ≡ false) }
        ensures kept { IfOk result (λ names. (name : Name) → set.contains names name ≡ false
            → has_kept_slot self.now.packages name ≡ false) }
        ensures pairs { IfOk result (λ names. (name : Name) → set.contains names name ≡ false
            → pairs_at name demand.now ≡ []) }
        ensures entries { IfOk result (λ names. (name : Name) → set.contains names name ≡ false
            → entries_of facts.now.content name ≡ []) }
        ensures memory { IfErr result (λ e. e ≡ Refusal.NoMemory) }
    {
        let mut names = Vec::new(alloc);
        self.standing.add_names(&mut names)?;
        self.packages.add_names(&mut names)?;
        add_other_packages(&mut names, demand.pairs(), &self.packages)?;
        add_entries(&mut names, facts, &self.packages)?;
        Ok(PackageNames::of(alloc, names)?)
    }

    // Makes slots for packages.
    fn reserve(&mut self, alloc: Global, names: &[PackageName]) -> Result<(), Refusal>
        ensures same { IsSameWithRoom self.old self.new }
        ensures made { OnOk result (All (λ name. has_slot self.new.standing name ≡ true) names.now) }
        ensures kept_made { OnOk result (All (λ name. has_kept_slot self.new.packages name ≡ true) names.now) }
        ensures memory { IfErr result (λ e. e ≡ Refusal.NoMemory) }
    {
        'names: for place in 0..names.len() {
            let name = &names[place];
            self.standing.reserve(alloc, name.clone()?)?;
            self.packages.reserve(name.clone()?)?;
        }
        Ok(())
    }

    // The update that changes these packages, each of which has a slot.
    fn planned(
        &self,
        alloc: Global,
        touched: &Touched,
        same_criteria: bool,
        names: &PackageNames,
        facts: &EntryFacts,
        demand: &Demand,
    ) -> Result<MaskUpdate, Refusal>
        requires same { IsTrue same_criteria ↔ (self.now.criteria ≡ Some facts.now.content.criteria) }
        requires slots { All (λ name. has_slot self.now.standing name ≡ true) (members names.now) }
        requires kept_slots { All (λ name. has_kept_slot self.now.packages name ≡ true) (members names.now) }
        requires others { (name : Name) → set.contains names.now name ≡ false
            → HoldsAt self.now facts.now.content demand.now name }
        requires kept { (old : Facts) × ((name : Name) → IfSome (kept_at self.now.packages name) (IsKeptOf old name)) }
        ensures plans { IfOk result (λ u. IsPlanned self.now u facts.now.content demand.now) }
        ensures moves { IfOk result (λ u. u.changes.moves.items
            ≡ moves_between (all_stands self.now.standing) (standing_of facts.now.content demand.now)) }
        ensures touched { IfOk result (λ u. u.touched ≡ touched.now) }
        ensures each { IfOk result (λ u. All (IsSpent self.now facts.now.content) u.changes.kept.items) }
        ensures names { IfOk result (λ u. map (λ c. c.«package») u.changes.kept.items ≡ members names.now) }
        ensures memory { IfErr result (λ e. e ≡ Refusal.NoMemory) }
    {
        self.standing.is_by_package();
        let _ = demand.pairs();
        let changes = self.changes(alloc, same_criteria, names.as_slice(), facts, demand)?;
        let counts = self.counts_after(&changes, facts, demand);
        Ok(MaskUpdate {
            changes,
            counts,
            criteria: self.criteria_after(same_criteria, facts)?,
            touched: touched.clone()?,
        })
    }

    // The table of criteria of these facts, if it isn't held.
    fn criteria_after(
        &self,
        same_criteria: bool,
        facts: &EntryFacts,
    ) -> Result<Option<CriteriaTable>, Refusal>
        requires { IsTrue same_criteria ↔ (self.now.criteria ≡ Some facts.now.content.criteria) }
        ensures criteria { IfOk result (λ t. option_or t self.now.criteria ≡ Some facts.now.content.criteria) }
        ensures memory { IfErr result (λ e. e ≡ Refusal.NoMemory) }
    {
        if same_criteria {
            return Ok(None);
        }
        Ok(Some(facts.criteria().clone()?))
    }

    // What changes of these packages.
    fn changes(
        &self,
        alloc: Global,
        same_criteria: bool,
        names: &[PackageName],
        facts: &EntryFacts,
        demand: &Demand,
    ) -> Result<Changes, Refusal>
        requires same { IsTrue same_criteria ↔ (self.now.criteria ≡ Some facts.now.content.criteria) }
        requires kept { (old : Facts) × ((name : Name) → IfSome (kept_at self.now.packages name) (IsKeptOf old name)) }
        ensures changes { IfOk result (λ changes.
            AreChanges self.now facts.now.content demand.now names.now changes) }
        ensures memory { IfErr result (λ e. e ≡ Refusal.NoMemory) }
    {
        let mut local = LocalCriteria::of(alloc, facts)?;
        let mut changes = Changes::nothing(alloc);
        'names: for place in 0..names.len() {
            let package = &names[place];
            let searched = self.searched(alloc, same_criteria, package, facts, &mut local)?;
            let pairs = pairs_of(demand, package);
            let stands = searched.kept.stands(alloc, facts.criteria(), pairs)?;
            changes.add(alloc, package, self.standing.of(package), stands, searched)?;
        }
        Ok(changes)
    }

    // What is kept of a package by these facts, and how many looks were made for it.
    fn searched(
        &self,
        alloc: Global,
        same_criteria: bool,
        package: &PackageName,
        facts: &EntryFacts,
        local: &mut LocalCriteria,
    ) -> Result<Searched, Refusal>
        requires local { AreLocal facts.now.content local.old }
        requires same { IsTrue same_criteria ↔ (self.now.criteria ≡ Some facts.now.content.criteria) }
        requires kept { (old : Facts) × IfSome (kept_at self.now.packages «package».now) (IsKeptOf old «package».now) }
        ensures kept { IfOk result (λ s. IsKeptOf facts.now.content «package».now s.kept) }
        ensures spent { IfOk result (λ s. IsSpent self.now facts.now.content
            (record { «package» = «package».now; kept = s.kept; looks = s.looks })) }
        ensures local { AreLocal facts.now.content local.new }
        ensures memory { IfErr result (λ e. e ≡ Refusal.NoMemory) }
    {
        violations_condemn();
        let Evidence { steps, violations } = evidence_of(alloc, package, facts, local)?;
        match self.packages.of(package) {
            Some(kept) => kept.after(alloc, same_criteria, steps, violations.as_slice()),
            None => Searched::anew(alloc, steps, violations.as_slice()),
        }
    }

    // The counts of the standing after changes of all packages that change.
    fn counts_after(&self, changes: &Changes, facts: &EntryFacts, demand: &Demand) -> Counts
        requires { changes.now.moves.items
            ≡ moves_between (all_stands self.now.standing) (standing_of facts.now.content demand.now) }
        ensures { result ≡ counts_of (standing_of facts.now.content demand.now) }
    {
        let _ = demand.len();
        counts_after(self.standing.counts(), changes.moves.as_slice())
    }
}

// Puts a table in place of what is held, if there is one.
fn put_criteria(held: &mut Option<CriteriaTable>, criteria: Option<CriteriaTable>)
    ensures { held.new ≡ option_or criteria held.old }
{
    if criteria.is_some() {
        *held = criteria;
    }
}

// The steps and the violations of a package.
#[derive(Drop)]
struct Evidence {
    steps: Vec<Step>,
    violations: Vec<Violation>,
}

// Those by some facts.
fn evidence_of(
    alloc: Global,
    package: &PackageName,
    facts: &EntryFacts,
    local: &mut LocalCriteria,
) -> Result<Evidence, Refusal>
    requires { AreLocal facts.now.content local.old }
    ensures steps { IfOk result (λ e. e.steps.items ≡ steps_of facts.now.content «package».now) }
    ensures violations { IfOk result (λ e. e.violations.items ≡ violations_of facts.now.content «package».now) }
    ensures memory { IfErr result (λ e. e ≡ Refusal.NoMemory) }
    ensures local { AreLocal facts.now.content local.new }
{
    let entries = PackageEntries::of(alloc, package, facts)?;
    let violations = entries.violations(alloc, facts, local.own())?;
    let steps = entries.into_steps(alloc, facts, local)?;
    Ok(Evidence { steps, violations })
}
