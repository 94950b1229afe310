//! Sets of criteria that pass from version to version, for all criteria at once.
//!
//! A version passes on what it holds and has not passed on yet. A step adds, of that, what it vouches for and its
//! target isn't barred for, unless the search skips the step. A version that gains waits for its turn.
//!
//! Why a search ends, and how often it looks at a step. Each turn of a version passes on at least one criterion more,
//! and no criterion passes twice along a step. So each look at a step is paid by a criterion.
ghost use Rattle.std.specs.Prelude.{◌≡◌, ◌+◌, ◌*◌, ◌-◌, ◌^◌, ◌<◌, ◌≤◌, ◌&&◌, ℕ, true, false, not, IfOk, IfErr, []};
ghost use Rattle.std.specs.Prelude.{Some};
ghost use Rattle.std.specs.Prelude.{get_or, length, set};
ghost use Rattle.std.specs.Prelude.{take as taken};
ghost use Rattle.std.specs.FinSet as places;
ghost use Rattle.std.specs.List.{All, Contains, HoldsAt};
ghost use Rattle.vet_base.specs.CriteriaSet.{has};
ghost use Rattle.vet_demand.specs.Spread.{lists_in};
ghost use Rattle.vet_masks.specs.Index.{IsIndex, no_ends};
ghost use Rattle.vet_masks.specs.Masks.{AreReady, AreWaiting, AreWaitingBut, GoesOn, Grows, IsAdded, IsPassing};
ghost use Rattle.vet_masks.specs.Masks.{IsSearch, LeadsOn, Stands, filled, given_by, numbered_by, open_by};
ghost use Rattle.vet_masks.specs.Masks.{origin_at, paid, reached, size, spent};

use crate::index::Index;
use crate::looks::Looks;
use std::alloc::Global;
use vet_base::criteria_set::CriteriaSet;
use vet_base::limits::MOST_CRITERIA;
use vet_base::refusal::Refusal;
use vet_entries::step::Step;

// What was reached and what was passed on, by the numbers of versions; and the versions that wait to pass on the rest.
#[derive(Drop)]
pub(crate) struct Masks {
    pub(crate) held: Vec<CriteriaSet>,
    pub(crate) passed: Vec<CriteriaSet>,
    pub(crate) waiting: Vec<usize>,
}

// What a search asks of steps, by the number of the version to which they lead: for which criteria it is barred, and
// whether exempt steps to it are skipped.
#[derive(Clone, Copy)]
pub(crate) struct Terms<'t> {
    pub(crate) bars: &'t [CriteriaSet],
    pub(crate) skipped: &'t [bool],
}

// What a step adds to the version to which it leads.
#[derive(Clone, Copy)]
pub(crate) struct Added {
    pub(crate) target: usize,
    pub(crate) criteria: CriteriaSet,
}

impl Terms<'_> {
    // The criteria for which the version of a number is barred.
    fn bar(&self, number: usize) -> CriteriaSet
        requires { number < length self.now.bars.now }
        ensures { result ≡ get_or self.now.bars.now number places.empty }
    {
        self.bars[number]
    }

    // Whether the search takes a step to the version of a number.
    fn takes(&self, step: &Step, number: usize) -> bool
        requires { number < length self.now.skipped.now }
        ensures { result ≡ not (step.now.exempt && get_or self.now.skipped.now number false) }
    {
        let is_skipped = self.skipped[number];
        !(step.exempt && is_skipped)
    }
}

// What a step adds, of what its origin passes on.
fn what_adds(
    looks: &mut Looks,
    index: &Index,
    place: usize,
    given: &CriteriaSet,
    terms: &Terms<'_>,
) -> Added
    requires place { place < length looks.old.steps }
    requires index { IsIndex looks.old.steps index.now }
    requires bars { length terms.now.bars.now ≡ length index.now.after.items }
    requires skipped { length terms.now.skipped.now ≡ length index.now.after.items }
    requires count { looks.old.count < 2 ^ 128 - 1 }
    ensures count { looks.new.count ≡ looks.old.count + 1 }
    ensures steps { looks.new.steps ≡ looks.old.steps }
    ensures adds { HoldsAt (IsAdded (open_by index.now terms.now) given.now result)
        (numbered_by index.now looks.old.steps) place }
    ensures within { result.target < length index.now.after.items }
{
    let target = index.ends[place].target;
    let step = looks.look(place);
    let criteria = given.common(&step.criteria);
    let criteria = if terms.takes(step, target) {
        criteria.less(&terms.bar(target))
    } else {
        CriteriaSet::empty()
    };
    Added { target, criteria }
}

// Has a version wait, if it doesn't yet.
fn wait(masks: &mut Masks, at: usize) -> Result<(), Refusal>
    requires held { at < length masks.old.held.items }
    requires passed { length masks.old.passed.items ≡ length masks.old.held.items }
    ensures held { masks.new.held.items ≡ masks.old.held.items }
    ensures passed { masks.new.passed.items ≡ masks.old.passed.items }
    ensures kept { IfOk result (λ _. (n : ℕ)
        → Contains masks.old.waiting.items n → Contains masks.new.waiting.items n) }
    ensures waits { IfOk result (λ _. AreWaiting masks.old.held.items masks.old.passed.items masks.old.waiting.items
        → Contains masks.new.waiting.items at) }
    ensures within { IfOk result (λ _. (m : ℕ) → at < m → All (λ n. n < m) masks.old.waiting.items
        → All (λ n. n < m) masks.new.waiting.items) }
    ensures room { length masks.new.waiting.items ≤ length masks.old.waiting.items + 1 }
    ensures memory { IfErr result (λ e. e ≡ Refusal.NoMemory) }
{
    if masks.held[at].exceeds(&masks.passed[at]) {
        return Ok(());
    }
    masks.waiting.push(at)?;
    Ok(())
}

// Takes what a step adds.
fn take(masks: &mut Masks, added: Added) -> Result<(), Refusal>
    requires held { added.target < length masks.old.held.items }
    requires passed { length masks.old.passed.items ≡ length masks.old.held.items }
    ensures onward { IfOk result (λ _. GoesOn masks.old masks.new) }
    ensures held { IfOk result (λ _. masks.new.held.items ≡ set masks.old.held.items added.target
        (places.union (get_or masks.old.held.items added.target places.empty) added.criteria)) }
    ensures memory { IfErr result (λ e. e ≡ Refusal.NoMemory) }
{
    let held = masks.held[added.target];
    if !added.criteria.exceeds(&held) {
        return Ok(());
    }
    wait(masks, added.target)?;
    masks.held[added.target] = held.union(&added.criteria);
    Ok(())
}

// Passes criteria on along the step at a place.
fn pass_one(
    looks: &mut Looks,
    index: &Index,
    place: usize,
    given: &CriteriaSet,
    terms: &Terms<'_>,
    masks: &mut Masks,
) -> Result<(), Refusal>
    requires place { place < length looks.old.steps }
    requires count { looks.old.count < 2 ^ 128 - 1 }
    requires search { IsSearch looks.old.steps index.now terms.now masks.old }
    requires stands { (c : ℕ) → has c given.now ≡ true
        → Stands (reached masks.old.held.items c) (origin_at (numbered_by index.now looks.old.steps) place) }
    ensures count { looks.new.count ≡ looks.old.count + 1 }
    ensures steps { looks.new.steps ≡ looks.old.steps }
    ensures onward { IfOk result (λ _. GoesOn masks.old masks.new) }
    ensures search { IfOk result (λ _. IsSearch looks.old.steps index.now terms.now masks.new) }
    ensures leads { IfOk result (λ _. (c : ℕ) → has c given.now ≡ true
        → LeadsOn (numbered_by index.now looks.old.steps) (open_by index.now terms.now) masks.new.held.items c place) }
    ensures memory { IfErr result (λ e. e ≡ Refusal.NoMemory) }
{
    let added = what_adds(looks, index, place, given, terms);
    take(masks, added)?;
    Ok(())
}

// Passes criteria on along the steps at some places, which all start at one version.
fn pass_all(
    looks: &mut Looks,
    index: &Index,
    at_places: &[usize],
    given: &CriteriaSet,
    terms: &Terms<'_>,
    masks: &mut Masks,
) -> Result<(), Refusal>
    requires count { looks.old.count + length at_places.now < 2 ^ 128 }
    requires search { IsSearch looks.old.steps index.now terms.now masks.old }
    requires stands { AreReady (numbered_by index.now looks.old.steps) given.now masks.old.held.items at_places.now }
    ensures count { looks.new.count ≤ looks.old.count + length at_places.now }
    ensures least { looks.old.count ≤ looks.new.count }
    ensures steps { looks.new.steps ≡ looks.old.steps }
    ensures onward { IfOk result (λ _. GoesOn masks.old masks.new) }
    ensures search { IfOk result (λ _. IsSearch looks.old.steps index.now terms.now masks.new) }
    ensures leads { IfOk result (λ _. (c : ℕ) → has c given.now ≡ true
        → All (LeadsOn (numbered_by index.now looks.old.steps) (open_by index.now terms.now) masks.new.held.items c)
        at_places.now) }
    ensures memory { IfErr result (λ e. e ≡ Refusal.NoMemory) }
{
    'places: for place in at_places {
        pass_one(looks, index, *place, given, terms, masks)?;
    }
    Ok(())
}

// Passes on what a version holds and has not passed on yet.
fn pass_on(
    looks: &mut Looks,
    index: &Index,
    from: usize,
    terms: &Terms<'_>,
    masks: &mut Masks,
) -> Result<(), Refusal>
    requires from { from < length index.now.after.items }
    requires search { IsSearch looks.old.steps index.now terms.now masks.old }
    requires passing { IsPassing looks.old.steps index.now terms.now masks.old (length looks.old.steps) }
    requires count { looks.old.count + length (get_or (lists_in index.now.after.items) from []) < 2 ^ 128 }
    ensures least { looks.old.count ≤ looks.new.count }
    ensures steps { looks.new.steps ≡ looks.old.steps }
    ensures search { IfOk result (λ _. IsSearch looks.old.steps index.now terms.now masks.new) }
    ensures passing { IfOk result (λ _.
        IsPassing looks.old.steps index.now terms.now masks.new (length looks.old.steps)) }
    ensures count { IfOk result (λ _. (u : ℕ) → looks.new.count + spent u masks.old.passed.items index.now.ends.items
        ≤ looks.old.count + spent u masks.new.passed.items index.now.ends.items) }
    ensures waiting { IfOk result (λ _.
        AreWaitingBut from masks.old.held.items masks.old.passed.items masks.old.waiting.items
        → AreWaiting masks.new.held.items masks.new.passed.items masks.new.waiting.items) }
    ensures within { IfOk result (λ _. (m : ℕ) → length masks.old.held.items ≡ m
        → All (λ n. n < m) masks.old.waiting.items → All (λ n. n < m) masks.new.waiting.items) }
    ensures room { IfOk result (λ _. filled masks.old.held.items + length masks.new.waiting.items
        ≤ filled masks.new.held.items + length masks.old.waiting.items) }
    ensures grows { IfOk result (λ _. Grows masks.old.held.items masks.new.held.items) }
    ensures memory { IfErr result (λ e. e ≡ Refusal.NoMemory) }
{
    let held = masks.held[from];
    let passed = masks.passed[from];
    if !held.exceeds(&passed) {
        return Ok(());
    }
    masks.passed[from] = held;
    pass_all(
        looks,
        index,
        index.after[from].as_slice(),
        &held.less(&passed),
        terms,
        masks,
    )?;
    Ok(())
}

// Passes all on, until no version waits.
pub(crate) fn settle(
    looks: &mut Looks,
    index: &Index,
    terms: &Terms<'_>,
    masks: &mut Masks,
) -> Result<(), Refusal>
    requires search { IsSearch looks.old.steps index.now terms.now masks.old }
    requires passing { IsPassing looks.old.steps index.now terms.now masks.old (length looks.old.steps) }
    requires waiting { AreWaiting masks.old.held.items masks.old.passed.items masks.old.waiting.items }
    requires within { All (λ n. n < length index.now.after.items) masks.old.waiting.items }
    requires count { looks.old.count + (MOST_CRITERIA + 1) * length looks.old.steps < 2 ^ 128 }
    ensures least { looks.old.count ≤ looks.new.count }
    ensures steps { looks.new.steps ≡ looks.old.steps }
    ensures search { IfOk result (λ _. IsSearch looks.old.steps index.now terms.now masks.new) }
    ensures passing { IfOk result (λ _.
        IsPassing looks.old.steps index.now terms.now masks.new (length looks.old.steps)) }
    ensures grows { IfOk result (λ _. Grows masks.old.held.items masks.new.held.items) }
    ensures all { IfOk result (λ _. Grows masks.new.held.items masks.new.passed.items) }
    ensures count { IfOk result (λ _. (u : ℕ) → looks.new.count + spent u masks.old.passed.items index.now.ends.items
        ≤ looks.old.count + spent u masks.new.passed.items index.now.ends.items) }
    ensures memory { IfErr result (λ e. e ≡ Refusal.NoMemory) }
{
    'versions: while let Some(from) = masks.waiting.pop() {
        pass_on(looks, index, from, terms, masks)?;
    }
    Ok(())
}

// What is to be passed on along a step that is new: what its origin has passed on along the others; from nothing, all
// that some step has.
fn given_to(index: &Index, masks: &Masks, place: usize) -> CriteriaSet
    requires place { place < length index.now.ends.items }
    requires low { (n : ℕ) → (get_or index.now.ends.items place no_ends).origin ≡ Some n
        → n < length masks.now.passed.items }
    ensures { result ≡ given_by index.now.used masks.now.passed.items
        (get_or index.now.ends.items place no_ends).origin }
{
    match index.ends[place].origin {
        None => index.used,
        Some(from) => masks.passed[from],
    }
}

// Passes that on.
fn pass_new(
    looks: &mut Looks,
    index: &Index,
    place: usize,
    terms: &Terms<'_>,
    masks: &mut Masks,
) -> Result<(), Refusal>
    requires place { place < length looks.old.steps }
    requires count { looks.old.count < 2 ^ 128 - 1 }
    requires search { IsSearch looks.old.steps index.now terms.now masks.old }
    requires passing { IsPassing looks.old.steps index.now terms.now masks.old place }
    ensures least { looks.old.count ≤ looks.new.count }
    ensures steps { looks.new.steps ≡ looks.old.steps }
    ensures onward { IfOk result (λ _. GoesOn masks.old masks.new) }
    ensures search { IfOk result (λ _. IsSearch looks.old.steps index.now terms.now masks.new) }
    ensures passing { IfOk result (λ _. IsPassing looks.old.steps index.now terms.now masks.new (place + 1)) }
    ensures count { looks.new.count ≤ looks.old.count + paid (size MOST_CRITERIA index.now.used) masks.old.passed.items
        (origin_at (numbered_by index.now looks.old.steps) place) }
    ensures one { looks.new.count ≤ looks.old.count + 1 }
    ensures memory { IfErr result (λ e. e ≡ Refusal.NoMemory) }
{
    let given = given_to(index, masks, place);
    if !given.exceeds(&CriteriaSet::empty()) {
        return Ok(());
    }
    pass_one(looks, index, place, &given, terms, masks)?;
    Ok(())
}

// The same along each step from a place on.
pub(crate) fn pass_all_new(
    looks: &mut Looks,
    index: &Index,
    first: usize,
    terms: &Terms<'_>,
    masks: &mut Masks,
) -> Result<(), Refusal>
    requires first { first ≤ length looks.old.steps }
    requires count { looks.old.count < 2 ^ 127 + 2 ^ 65 }
    requires search { IsSearch looks.old.steps index.now terms.now masks.old }
    requires passing { IsPassing looks.old.steps index.now terms.now masks.old first }
    ensures least { looks.old.count ≤ looks.new.count }
    ensures steps { looks.new.steps ≡ looks.old.steps }
    ensures onward { IfOk result (λ _. GoesOn masks.old masks.new) }
    ensures search { IfOk result (λ _. IsSearch looks.old.steps index.now terms.now masks.new) }
    ensures passing { IfOk result (λ _.
        IsPassing looks.old.steps index.now terms.now masks.new (length looks.old.steps)) }
    ensures count { IfOk result (λ _. looks.new.count
        + spent (size MOST_CRITERIA index.now.used) masks.old.passed.items (taken first index.now.ends.items)
        ≤ looks.old.count + spent (size MOST_CRITERIA index.now.used) masks.old.passed.items index.now.ends.items) }
    ensures bound { looks.new.count + first ≤ looks.old.count + length looks.old.steps }
    ensures memory { IfErr result (λ e. e ≡ Refusal.NoMemory) }
{
    'steps: for place in first..looks.len() {
        pass_new(looks, index, place, terms, masks)?;
    }
    Ok(())
}
