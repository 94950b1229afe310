//! Steps that can be seen only by looks, which are counted.
ghost use Rattle.std.specs.Prelude.{◌≡◌, ◌↔◌, ◌-◌, ◌^◌, ◌<◌, IsTrue, length, Some, slice_get, take};
ghost use Rattle.std.specs.Borrow.{sem};
ghost use Rattle.vet_masks.specs.Looked.{CountsOne};

use crate::kept::is_same_set;
use std::marker::Model;
use vet_entries::step::Step;

/// The steps of a package. No other call shows the content of one.
#[derive(Drop)]
pub struct Looks {
    steps: Vec<Step>,
    count: u128,
}

impl Model for Looks {
    ghost use Rattle.vet_masks.specs.Counted.{Counted, counted_code};
    ghost use Rattle.vet_entries.specs.contracts.step.Step as step;

    ghost Value = { Counted };

    ghost coded = { counted_code step.the_row.coded };

    ghost view = { λ a. record { steps = a.steps.items; count = a.count } };
}

impl Looks {
    /// Some steps, none of which was looked at. Takes no memory.
    pub fn over(steps: Vec<Step>) -> Looks
        ensures steps { result.steps ≡ steps.items }
        ensures count { result.count ≡ 0 }
    {
        Looks { steps, count: 0 }
    }

    // Others, with the count of these.
    pub(crate) fn over_others(&self, steps: Vec<Step>) -> Looks
        ensures steps { result.steps ≡ steps.items }
        ensures count { result.count ≡ self.now.count }
    {
        Looks {
            steps,
            count: self.count,
        }
    }

    // Whether these are the first of some steps. Compares them, and shows none.
    pub(crate) fn are_first_of(&self, steps: &[Step]) -> bool
        ensures { IsTrue result ↔ (take (length self.now.steps) steps.now ≡ self.now.steps) }
    {
        if steps.len() < self.steps.len() {
            return false;
        }
        'steps: for place in 0..self.steps.len() {
            if !is_same(&self.steps[place], &steps[place]) {
                return false;
            }
        }
        true
    }

    /// How many steps there are. Takes no memory.
    pub fn len(&self) -> usize
        ensures { result ≡ length self.now.steps }
    {
        self.steps.len()
    }

    /// How many looks were made. Takes no memory.
    pub fn count(&self) -> u128
        ensures { result ≡ self.now.count }
    {
        self.count
    }

    /// The step at a place, for one look more. Asks that there is one, and that the count is below its type's end.
    /// Takes no memory.
    pub fn look(&mut self, place: usize) -> &Step
        requires place { place < length self.old.steps }
        requires count { self.old.count < 2 ^ 128 - 1 }
        ensures* counts { sem 𝓛 (CountsOne self.entry) }
        ensures step { slice_get self.old.steps place ≡ Some result.now }
    {
        self.count += 1;
        &self.steps[place]
    }
}

// Whether two steps are the same.
fn is_same(step: &Step, other: &Step) -> bool
    ensures { IsTrue result ↔ (step.now ≡ other.now) }
{
    if step.origin != other.origin {
        return false;
    }
    if step.target != other.target {
        return false;
    }
    if step.exempt != other.exempt {
        return false;
    }
    is_same_set(&step.criteria, &other.criteria)
}
