//! Lists of the same items, in whatever order.
ghost use Rattle.std.specs.Bool.{Decides};
ghost use Rattle.std.specs.List.{list_all, list_any};
ghost use Rattle.std.specs.Ordering.{eq_by_cmp};
ghost use Rattle.std.specs.Prelude.{◌≡◌, IfOk, map};
ghost use Rattle.vet_base.specs.Items.{SameItems};

use crate::by_ref::ByRef;
use std::alloc::{AllocError, Global};
use std::collections::BTreeSet;

/// Values that equal only themselves.
pub trait Exactly: Ord {
    /// Only the value itself is equal to it.
    ghost only_itself: { (a b : Self) → Decides (Self.eq a b) (a ≡ b) };
}

/// Whether two lists have the same items. Costs two searches for each item among the others, in their order, and copies
/// none. Fails only if memory runs out.
pub fn have_same_items<T: Exactly>(alloc: Global, xs: &[T], ys: &[T]) -> Result<bool, AllocError>
    ensures { IfOk result (λ same. Decides same (SameItems xs.now ys.now)) }
{
    Ok(are_among(alloc, xs, ys)? && are_among(alloc, ys, xs)?)
}

// Whether each of some items equals one of the others.
fn are_among<T: Exactly>(alloc: Global, xs: &[T], ys: &[T]) -> Result<bool, AllocError>
    ensures { IfOk result (λ all. all ≡ list_all (λ x. list_any (eq_by_cmp T.cmp x) ys.now) xs.now) }
{
    let mut seen = BTreeSet::new(alloc);
    'ys: for y in ys {
        let _ = seen.insert(ByRef::of(y))?;
    }
    'xs: for x in xs {
        if !seen.contains(&ByRef::of(x)) {
            return Ok(false);
        }
    }
    Ok(true)
}

/// Whether each of the first items is among the second. Costs a search for each item of both, in their order, and
/// nothing if there are no first items. Copies none. Fails only if memory runs out.
pub fn marks_among<T: Exactly>(alloc: Global, xs: &[T], ys: &[T]) -> Result<Vec<bool>, AllocError>
    ensures { IfOk result (λ marks. marks.items ≡ map (λ x. list_any (T.eq x) ys.now) xs.now) }
{
    // otherwise all of the second would be sorted for nothing
    if xs.is_empty() {
        return Ok(Vec::new(alloc));
    }
    let mut seen = BTreeSet::new(alloc);
    'ys: for y in ys {
        let _ = seen.insert(ByRef::of(y))?;
    }
    let mut marks = Vec::with_capacity(alloc, xs.len())?;
    'xs: for x in xs {
        marks.push(seen.contains(&ByRef::of(x)))?;
    }
    Ok(marks)
}
