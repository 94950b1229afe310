//! Sets of criteria of one table.
ghost use Rattle.std.specs.Prelude.{◌≡◌, ◌↔◌, ◌<◌, ◌≤◌, ℕ, true, false, IsTrue, ◌&&◌, not};
ghost use Rattle.std.specs.FinSet as set;
ghost use Rattle.vet_base.specs.CriteriaSet.{meet, MeetOfNothing, MeetOfUnions};

use crate::limits::MOST_CRITERIA;
use std::marker::Model;

// One bit for each place. The definitions have its width, and `MOST_CRITERIA` is at most that.
type Word = u128;

/// A set of criteria of one table, by their places among the table's names. A change of that table makes it
/// void.
#[derive(Clone, Copy)]
pub struct CriteriaSet {
    word: Word,
}

impl Model for CriteriaSet {
    ghost use Rattle.std.specs.Prelude.{◌<◌, ◌^◌};
    ghost use Rattle.std.specs.Ordering.{nat_cmp};
    ghost use Rattle.std.specs.Coded.{coded_ℕ};
    ghost use Rattle.std.specs.FinSet as set;
    ghost use Rattle.vet_base.specs.declared.limits.TheConstants.{MOST_CRITERIA};
    ghost use Rattle.vet_base.specs.CriteriaSet.{set_places, word_below};

    ghost Value = { set.FinSet nat_cmp };

    ghost coded = { set.code coded_ℕ };

    ghost view = { λ s. set_places MOST_CRITERIA s.word };

    ghost invariant = { λ s. s.word < 2 ^ MOST_CRITERIA };

    ghost inverse = { λ places. record { word = word_below MOST_CRITERIA places } };

    ghost use Rattle.vet_base.specs.CriteriaSetLaws.{same_word};

    ghost inverse_ok = { λ s h. λ i. record { word = same_word MOST_CRITERIA s.word h i } };
}

impl CriteriaSet {
    /// The empty set.
    pub fn empty() -> CriteriaSet
        ensures { result ≡ set.empty }
    {
        CriteriaSet { word: 0 }
    }

    /// Whether the criterion at a place is in the set.
    pub fn has(&self, place: usize) -> bool
        ensures value { result ≡ set.contains self.now place }
        ensures within { IsTrue result → place < MOST_CRITERIA }
    {
        place < MOST_CRITERIA && (self.word >> place) & 1 == 1
    }

    /// Whether a criterion at a place or at a later one is in the set.
    pub(crate) fn reaches(&self, place: usize) -> bool
        ensures within { IsTrue result → place < MOST_CRITERIA }
        ensures none { result ≡ false → (p : ℕ) → place ≤ p → set.contains self.now p ≡ false }
    {
        place < MOST_CRITERIA && self.word >> place != 0
    }

    /// The set with one more place.
    pub fn with(self, place: usize) -> CriteriaSet
        requires { place < MOST_CRITERIA }
        ensures { result ≡ set.insert self place }
    {
        CriteriaSet {
            word: self.word | (1 << place),
        }
    }

    /// The criteria that are in either set.
    pub fn union(&self, other: &CriteriaSet) -> CriteriaSet
        ensures { result ≡ set.union self.now other.now }
    {
        CriteriaSet {
            word: self.word | other.word,
        }
    }

    /// The criteria that are in both sets.
    pub fn common(&self, other: &CriteriaSet) -> CriteriaSet
        ensures { (p : ℕ) → set.contains result p ≡ (set.contains self.now p && set.contains other.now p) }
    {
        CriteriaSet {
            word: self.word & other.word,
        }
    }

    /// The criteria that are in this set and not in the other.
    pub fn less(&self, other: &CriteriaSet) -> CriteriaSet
        ensures { (p : ℕ) → set.contains result p ≡ (set.contains self.now p && not (set.contains other.now p)) }
    {
        CriteriaSet {
            word: self.word & !other.word,
        }
    }

    /// Whether some criterion is in both sets.
    pub fn meets(&self, other: &CriteriaSet) -> bool
        ensures value { result ≡ meet self.now other.now }
        ensures both { IsTrue result ↔ ((p : ℕ)
            × (set.contains self.now p ≡ true) × (set.contains other.now p ≡ true)) }
    {
        self.word & other.word != 0
    }

    /// Whether some criterion is in this set and not in the other.
    pub fn exceeds(&self, other: &CriteriaSet) -> bool
        ensures some { IsTrue result → (p : ℕ) × (p < MOST_CRITERIA)
            × (set.contains self.now p ≡ true) × (set.contains other.now p ≡ false) }
        ensures none { result ≡ false → (p : ℕ)
            → set.contains self.now p ≡ true → set.contains other.now p ≡ true }
    {
        self.word & !other.word != 0
    }

    /// Whether the set is empty.
    pub fn is_empty(&self) -> bool
        ensures { IsTrue result ↔ (self.now ≡ set.empty) }
    {
        self.word == 0
    }
}

/// A set meets the union of two sets exactly if it meets one of them.
pub fn meet_of_unions()
    ensures { MeetOfUnions }
{}

/// No set meets the empty set.
pub fn meet_of_nothing()
    ensures { MeetOfNothing }
{}
