//! What chains lead to on some terms, found from what the first steps lead to.
ghost use Rattle.std.specs.Prelude.{◌≡◌, ◌+◌, ◌-◌, ◌*◌, ◌^◌, ◌<◌, ◌≤◌, ◌++◌, IfOk, IfErr, [], length, replicate, take};
ghost use Rattle.std.specs.FinSet as set;
ghost use Rattle.vet_masks.specs.Index.{IsIndex};
ghost use Rattle.vet_masks.specs.Masks.{IsReaching, numbered_by, open_by, size, spent};

use crate::index::Index;
use crate::looks::Looks;
use crate::masks::{Masks, Terms, pass_all_new, settle};
use std::alloc::Global;
use vet_base::criteria_set::CriteriaSet;
use vet_base::limits::MOST_CRITERIA;
use vet_base::refusal::Refusal;

// What chains of the indexed steps lead to, by the numbers of versions, where this is what those of the first steps do.
// Looks at the other steps, and at one of the first only where more passes along it now.
pub(crate) fn reach(
    alloc: Global,
    looks: &mut Looks,
    index: &Index,
    first: usize,
    held: &[CriteriaSet],
    terms: &Terms<'_>,
) -> Result<Vec<CriteriaSet>, Refusal>
    requires first { first ≤ length looks.old.steps }
    requires count { looks.old.count < 2 ^ 127 + 2 ^ 65 }
    requires index { IsIndex looks.old.steps index.now }
    requires bars { length terms.now.bars.now ≡ length index.now.after.items }
    requires skipped { length terms.now.skipped.now ≡ length index.now.after.items }
    requires held { length held.now ≤ length index.now.after.items }
    requires reaches { IsReaching (numbered_by index.now looks.old.steps) (open_by index.now terms.now) first held.now }
    ensures least { looks.old.count ≤ looks.new.count }
    ensures steps { looks.new.steps ≡ looks.old.steps }
    ensures length { IfOk result (λ h. length h.items ≡ length index.now.after.items) }
    ensures reaches { IfOk result (λ h. IsReaching (numbered_by index.now looks.old.steps)
        (open_by index.now terms.now) (length looks.old.steps) h.items) }
    ensures count { IfOk result (λ h. looks.new.count
        + spent (size MOST_CRITERIA index.now.used) held.now (take first index.now.ends.items)
        ≤ looks.old.count + spent (size MOST_CRITERIA index.now.used) h.items index.now.ends.items) }
    ensures bound { IfOk result (λ _.
        looks.new.count ≤ looks.old.count + (MOST_CRITERIA + 1) * length looks.old.steps) }
    ensures memory { IfErr result (λ e. e ≡ Refusal.NoMemory) }
{
    let mut masks = masks_of(alloc, held, index.after.len())?;
    pass_all_new(looks, index, first, terms, &mut masks)?;
    settle(looks, index, terms, &mut masks)?;
    let Masks {
        held: all,
        passed: _,
        waiting: _,
    } = masks;
    Ok(all)
}

// What was reached, all of it passed on, with nothing at the versions from there on.
fn masks_of(alloc: Global, held: &[CriteriaSet], count: usize) -> Result<Masks, Refusal>
    requires { length held.now ≤ count }
    ensures held { IfOk result (λ m. m.held.items ≡ held.now ++ replicate (count - length held.now) set.empty) }
    ensures passed { IfOk result (λ m. m.passed.items ≡ held.now ++ replicate (count - length held.now) set.empty) }
    ensures waiting { IfOk result (λ m. m.waiting.items ≡ []) }
    ensures memory { IfErr result (λ e. e ≡ Refusal.NoMemory) }
{
    Ok(Masks {
        held: filled_up(alloc, held, count)?,
        passed: filled_up(alloc, held, count)?,
        waiting: Vec::new(alloc),
    })
}

// Some sets, and empty ones up to a count.
pub(crate) fn filled_up(
    alloc: Global,
    sets: &[CriteriaSet],
    count: usize,
) -> Result<Vec<CriteriaSet>, Refusal>
    requires { length sets.now ≤ count }
    ensures ok { IfOk result (λ s. s.items ≡ sets.now ++ replicate (count - length sets.now) set.empty) }
    ensures memory { IfErr result (λ e. e ≡ Refusal.NoMemory) }
{
    let mut all = Vec::new(alloc);
    all.extend_from_slice(sets)?;
    all.resize(count, CriteriaSet::empty())?;
    Ok(all)
}
