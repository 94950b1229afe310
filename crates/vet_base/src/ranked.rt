//! Values in an order in which different ones may tie.
ghost use Rattle.std.specs.Prelude.{◌≡◌, ◌↔◌, IfOk, IsTrue, List};
ghost use Rattle.std.specs.Cmp.{IsTotalOrder};
ghost use Rattle.std.specs.declared.cmp.Ordering.{Ordering};
ghost use Rattle.vet_base.specs.Items.{SameItems};
ghost use Rattle.vet_base.specs.Ranked.{IsRanked};

use std::alloc::{AllocError, Global};
use std::cmp::Ordering;

/// Values in an order in which different ones may tie.
pub trait Ranked: Drop {
    /// The order of two values.
    ghost rank_cmp: { Self → Self → Ordering };

    /// This order is total.
    ghost rank_total: { IsTotalOrder rank_cmp };

    /// Compares two values in this order. Takes no memory.
    fn cmp_rank(&self, other: &Self) -> Ordering
        ensures { result ≡ rank_cmp self.now other.now };
}

/// Whether each of some values comes before all those after it. Takes no memory, and compares only neighbours.
pub fn are_ranked<T: Ranked>(values: &[T]) -> bool
    ensures { IsTrue result ↔ IsRanked T.rank_cmp values.now }
{
    'pairs: for place in 1..values.len() {
        if values[place - 1].cmp_rank(&values[place]).is_ge() {
            return false;
        }
    }
    true
}

/// Puts values in order, and keeps one of those that tie. If they are the values of a list that is in order and without
/// ties, in any order and with duplicates, the result is that list. Takes a time of n log n.
pub fn rank<T: Ranked>(values: Vec<T>) -> Result<Vec<T>, AllocError>
    ensures { IfOk result (λ ranked.
        (list : List T) → IsRanked T.rank_cmp list → SameItems values.items list → ranked.items ≡ list) }
{
    let mut values = values;
    values.sort_by(|a, b| a.cmp_rank(b))?;
    values.dedup_by(|a, b| a.cmp_rank(b).is_eq());
    Ok(values)
}
