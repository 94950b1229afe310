//! The closures of all criteria of a table, computed once for many look-ups.
//!
//! **The closures of a table give the closure of any of its names, and the criteria that lead to a set, exactly as the
//! table itself does.**
//!
//! They are computed criterion by criterion, from the last one back to the first. At each point they count only ways
//! through the criteria seen so far. One more criterion adds, to each closure that has it, all that its own implied
//! names reach. So a table of n criteria costs n looks at the names that each implies and n times n unions, however
//! many criteria a table may have.
ghost use Rattle.std.specs.Prelude.{◌≡◌, ◌↔◌, ◌<◌, ◌≤◌, ℕ, true, slice_index_or};
ghost use Rattle.std.specs.FinSet as set;
ghost use Rattle.vet_base.specs.Closures.{AreClosures, apart_at, closed_at, led_on};
ghost use Rattle.vet_base.specs.Criteria.{Criteria, closure_of, leading_to, placed};
ghost use Rattle.vet_base.specs.CriteriaSet.{has};
ghost use Rattle.vet_base.specs.Names.{NameSet};

use crate::criteria_set::CriteriaSet;
use crate::limits::MOST_CRITERIA;

/// The closure of each criterion of a table: the criterion, and all that it implies directly or through others. A
/// change of that table makes it void.
#[derive(Drop)]
pub struct Closures {
    closed: [CriteriaSet; MOST_CRITERIA],
}

impl Closures {
    /// The closure of the names whose places are in a set. Costs one look for each place up to the last in the set.
    pub fn close(&self, set: &CriteriaSet) -> CriteriaSet
        ensures closure { (table : Criteria) (names : NameSet) → AreClosures table self.now
            → set.now ≡ placed table names → result ≡ placed table (closure_of table names) }
    {
        self.joined(set)
    }

    /// The criteria that are in the set or imply one that is, directly or through others. Costs a look at each closure.
    pub fn leading_to(&self, set: &CriteriaSet) -> CriteriaSet
        ensures { (table : Criteria) → AreClosures table self.now → result ≡ leading_to table set.now }
    {
        let mut leading = CriteriaSet::empty();
        for place in 0..MOST_CRITERIA {
            if self.closed[place].meets(set) {
                leading = leading.with(place);
            }
        }
        leading
    }

    /// The closures in which each of the first `count` places has only itself, and all others are empty.
    pub(crate) fn apart(count: usize) -> Closures
        requires { count ≤ MOST_CRITERIA }
        ensures { (p : ℕ) → closed_at result p ≡ apart_at count p }
    {
        let mut closed = [CriteriaSet::empty(); MOST_CRITERIA];
        for place in 0..count {
            closed[place] = closed[place].with(place);
        }
        Closures { closed }
    }

    /// The union of the closures at the places of a set.
    pub(crate) fn joined(&self, set: &CriteriaSet) -> CriteriaSet
        ensures { (q : ℕ) → (has q result ≡ true)
            ↔ ((p : ℕ) × (has p set.now ≡ true) × (has q (closed_at self.now p) ≡ true)) }
    {
        union_at(&self.closed, set)
    }

    /// Adds these places to each of the first closures that has the given one.
    pub(crate) fn lead_on(&mut self, count: usize, place: usize, to: &CriteriaSet)
        requires { count ≤ MOST_CRITERIA }
        ensures first { (p : ℕ) → p < count → closed_at self.new p ≡ led_on place to.now (closed_at self.old p) }
        ensures rest { (p : ℕ) → count ≤ p → closed_at self.new p ≡ closed_at self.old p }
    {
        for from in 0..count {
            if self.closed[from].has(place) {
                self.closed[from] = self.closed[from].union(to);
            }
        }
    }
}

/// The union of the sets at some places.
pub fn union_at(sets: &[CriteriaSet; MOST_CRITERIA], places: &CriteriaSet) -> CriteriaSet
    ensures { (q : ℕ) → (has q result ≡ true)
        ↔ ((p : ℕ) × (has p places.now ≡ true) × (has q (slice_index_or sets.now p set.empty) ≡ true)) }
{
    let mut joined = CriteriaSet::empty();
    let mut place = 0;
    'places: while places.reaches(place) {
        if places.has(place) {
            joined = joined.union(&sets[place]);
        }
        place += 1;
    }
    joined
}
