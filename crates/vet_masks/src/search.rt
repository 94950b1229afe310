//! The criteria for which chains lead to each version, with a count of the looks at steps.
ghost use Rattle.std.specs.Prelude.{◌≡◌, ◌↔◌, ◌+◌, ◌*◌, ◌^◌, ◌<◌, ◌≤◌, ◌&&◌, ℕ, Bool, true, false, not, IfOk, IfErr};
ghost use Rattle.std.specs.Prelude.{List, [], Some, get_or, length, replicate, take};
ghost use Rattle.std.specs.BTreeMap.{get};
ghost use Rattle.std.specs.FinSet as set;
ghost use Rattle.vet_base.specs.CriteriaSet.{has};
ghost use Rattle.vet_base.specs.Version.{VersionValue};
ghost use Rattle.vet_base.specs.VersionOrder.{version_cmp, version_eq};
ghost use Rattle.vet_entries.specs.declared.step.Step.{Step};
ghost use Rattle.vet_graph.specs.Chain.{Condemned};
ghost use Rattle.vet_graph.specs.Search.{may_take};
ghost use Rattle.vet_masks.specs.Index.{IsNumbering};
ghost use Rattle.vet_masks.specs.Reached.{AreBarredAlike, IsAnswer, used_below};
ghost use Rattle.vet_masks.specs.Vouched.{IsVouched, barred_by};

use crate::index::Index;
use crate::looks::Looks;
use crate::masks::Terms;
use crate::reach::{filled_up, reach};
use std::alloc::Global;
use vet_base::criteria_set::CriteriaSet;
use vet_base::limits::MOST_CRITERIA;
use vet_base::refusal::Refusal;
use vet_base::version::VetVersion;
use vet_graph::skip::Skip;

/// A version, and the criteria for which no chain may lead through it.
pub struct Barred {
    pub version: VetVersion,
    pub criteria: CriteriaSet,
}

impl Drop for Barred {
    fn drop(self) {
        let Barred {
            version: _,
            criteria: _,
        } = self;
    }
}

/// What a search found. `IsAnswer` says of which steps and bars it is the answer, and which steps are taken: `search`
/// and `extend` promise it, and `extend` asks it.
#[derive(Drop)]
pub struct Reached {
    index: Index,
    held: Vec<CriteriaSet>,
    looks: u128,
}

impl Reached {
    // Of no steps.
    fn nothing(alloc: Global) -> Reached
        ensures answer { (bar : Condemned) (taken : Step → Bool) → IsAnswer [] bar taken result }
        ensures looks { result.looks ≡ 0 }
    {
        Reached {
            index: Index::nothing(alloc),
            held: Vec::new(alloc),
            looks: 0,
        }
    }

    /// The criteria for which chains lead to a version. Takes no memory.
    pub fn at(&self, version: &VetVersion) -> CriteriaSet
        ensures { (steps : List Step) (bar : Condemned) (taken : Step → Bool) → IsAnswer steps bar taken self.now
            → (c : ℕ) → (has c result ≡ true) ↔ IsVouched steps bar taken c version.now }
    {
        let Some(number) = self.index.numbers.get(version).copied() else {
            return CriteriaSet::empty();
        };
        if number < self.held.len() {
            self.held[number]
        } else {
            CriteriaSet::empty()
        }
    }

    /// How many looks at steps it took, the searches that it extends among them. Takes no memory.
    pub fn looks(&self) -> u128
        ensures value { result ≡ self.now.looks }
        ensures bound { (steps : List Step) (bar : Condemned) (taken : Step → Bool)
            → IsAnswer steps bar taken self.now
            → result ≤ length steps * (used_below MOST_CRITERIA steps + 1) }
    {
        self.looks
    }
}

/// Finds the criteria for which chains lead to each version, through no version that is barred for them, by steps that
/// aren't skipped. Looks at each step once for the index, and at most once more for each criterion that some step has.
/// The count of looks must be below 2^127. Refused: `NoMemory`.
pub fn search(
    alloc: Global,
    looks: &mut Looks,
    barred: &[Barred],
    skip: &Skip<'_>,
) -> Result<Reached, Refusal>
    requires { looks.old.count < 2 ^ 127 }
    ensures answer { IfOk result (IsAnswer looks.old.steps (barred_by barred.now) (may_take skip.now)) }
    ensures looks { IfOk result (λ r. looks.new.count ≡ looks.old.count + r.looks) }
    ensures steps { looks.new.steps ≡ looks.old.steps }
    ensures memory { IfErr result (λ e. e ≡ Refusal.NoMemory) }
{
    let nothing = Reached::nothing(alloc);
    extend(alloc, &nothing, 0, looks, barred, skip)
}

/// Finds the same from the answer for the first steps. It copies that answer, looks at the other steps, and at one of
/// the first only where more passes along it now. The answer must be that for the first steps, by bars that are the
/// same where these lead. Refused: `NoMemory`.
pub fn extend(
    alloc: Global,
    reached: &Reached,
    first: usize,
    looks: &mut Looks,
    barred: &[Barred],
    skip: &Skip<'_>,
) -> Result<Reached, Refusal>
    requires first { first ≤ length looks.old.steps }
    requires count { looks.old.count < 2 ^ 127 }
    requires answer { (bar : Condemned) × IsAnswer (take first looks.old.steps) bar (may_take skip.now) reached.now
        × AreBarredAlike (take first looks.old.steps) bar (barred_by barred.now) }
    ensures answer { IfOk result (IsAnswer looks.old.steps (barred_by barred.now) (may_take skip.now)) }
    ensures looks { IfOk result (λ r. looks.new.count + reached.now.looks ≡ looks.old.count + r.looks) }
    ensures steps { looks.new.steps ≡ looks.old.steps }
    ensures memory { IfErr result (λ e. e ≡ Refusal.NoMemory) }
{
    let before = looks.count();
    let index = reached.index.extended(alloc, looks, first)?;
    let bars = bars_of(alloc, &index, barred)?;
    let skipped = skipped_by(alloc, &index, skip)?;
    let terms = Terms {
        bars: bars.as_slice(),
        skipped: skipped.as_slice(),
    };
    let held = reach(alloc, looks, &index, first, reached.held.as_slice(), &terms)?;
    Ok(Reached {
        index,
        held,
        looks: reached.looks + (looks.count() - before),
    })
}

// The criteria for which versions are barred, by their numbers.
fn bars_of(alloc: Global, index: &Index, barred: &[Barred]) -> Result<Vec<CriteriaSet>, Refusal>
    requires { IsNumbering (get version_cmp index.now.numbers) (length index.now.after.items) }
    ensures count { IfOk result (λ bars. length bars.items ≡ length index.now.after.items) }
    ensures bars { IfOk result (λ bars. (v : VersionValue) (n c : ℕ) → get version_cmp index.now.numbers v ≡ Some n
        → has c (get_or bars.items n set.empty) ≡ barred_by barred.now c v) }
    ensures memory { IfErr result (λ e. e ≡ Refusal.NoMemory) }
{
    let mut bars = filled_up(alloc, &[], index.after.len())?;
    'barred: for one in barred {
        if let Some(number) = index.numbers.get(&one.version).copied() {
            bars[number] = bars[number].union(&one.criteria);
        }
    }
    Ok(bars)
}

// Whether the exempt steps to versions are skipped, by their numbers.
fn skipped_by(alloc: Global, index: &Index, skip: &Skip<'_>) -> Result<Vec<bool>, Refusal>
    requires { IsNumbering (get version_cmp index.now.numbers) (length index.now.after.items) }
    ensures count { IfOk result (λ flags. length flags.items ≡ length index.now.after.items) }
    ensures skips { IfOk result (λ flags. (s : Step) (n : ℕ) → get version_cmp index.now.numbers s.target ≡ Some n
        → not (s.exempt && get_or flags.items n false) ≡ may_take skip.now s) }
    ensures memory { IfErr result (λ e. e ≡ Refusal.NoMemory) }
{
    let count = index.after.len();
    match skip {
        Skip::Nothing => all_flags(alloc, false, count),
        Skip::Exempt => all_flags(alloc, true, count),
        Skip::ExemptTo(version) => flag_at(alloc, index, version),
    }
}

// The same flag for each of some versions.
pub(crate) fn all_flags(alloc: Global, flag: bool, count: usize) -> Result<Vec<bool>, Refusal>
    ensures ok { IfOk result (λ flags. flags.items ≡ replicate count flag) }
    ensures memory { IfErr result (λ e. e ≡ Refusal.NoMemory) }
{
    let mut flags = Vec::new(alloc);
    flags.resize(count, flag)?;
    Ok(flags)
}

// A flag for each version, which is true for one alone.
fn flag_at(alloc: Global, index: &Index, version: &VetVersion) -> Result<Vec<bool>, Refusal>
    requires { IsNumbering (get version_cmp index.now.numbers) (length index.now.after.items) }
    ensures count { IfOk result (λ flags. length flags.items ≡ length index.now.after.items) }
    ensures flags { IfOk result (λ flags. (v : VersionValue) (n : ℕ) → get version_cmp index.now.numbers v ≡ Some n
        → get_or flags.items n false ≡ version_eq v version.now) }
    ensures memory { IfErr result (λ e. e ≡ Refusal.NoMemory) }
{
    let mut flags = all_flags(alloc, false, index.after.len())?;
    if let Some(number) = index.numbers.get(version).copied() {
        flags[number] = true;
    }
    Ok(flags)
}
