//! The versions to which exempt steps lead, numbered in the order of the first such step to each.
ghost use Rattle.std.specs.Prelude.{◌≡◌, ◌-◌, ◌^◌, ◌<◌, ◌≤◌, ◌++◌, ◌∷◌, List, IfOk, IfErr, [], None};
ghost use Rattle.std.specs.Prelude.{length, replicate, take};
ghost use Rattle.std.specs.List.{All};
ghost use Rattle.vet_masks.specs.Exempt.{AreExemptNumbers};
ghost use Rattle.vet_masks.specs.declared.index.Ends.{Ends};

use crate::index::{Ends, Index};
use std::alloc::Global;
use vet_base::refusal::Refusal;

// The number of each version among those that have an exempt step, by its number among all. Others have none.
#[derive(Drop)]
pub(crate) struct ExemptNumbers {
    pub(crate) numbers: Vec<Option<usize>>,
    // How many have one.
    pub(crate) count: usize,
}

impl ExemptNumbers {
    // Of no steps.
    pub(crate) fn nothing(alloc: Global) -> ExemptNumbers
        ensures numbers { AreExemptNumbers [] result }
        ensures none { result.numbers.items ≡ [] }
    {
        ExemptNumbers {
            numbers: Vec::new(alloc),
            count: 0,
        }
    }

    // The same, and those of the steps from a place on.
    pub(crate) fn extended(
        &self,
        alloc: Global,
        index: &Index,
        first: usize,
    ) -> Result<ExemptNumbers, Refusal>
        requires first { first ≤ length index.now.ends.items }
        requires targets { All (λ e. e.target < length index.now.after.items) index.now.ends.items }
        requires versions { length self.now.numbers.items ≤ length index.now.after.items }
        requires numbers { AreExemptNumbers (take first index.now.ends.items) self.now }
        ensures versions { IfOk result (λ e. length e.numbers.items ≡ length index.now.after.items) }
        ensures numbers { IfOk result (AreExemptNumbers index.now.ends.items) }
        ensures memory { IfErr result (λ e. e ≡ Refusal.NoMemory) }
    {
        let mut exempt = self.filled_up(alloc, index.after.len())?;
        'steps: for place in first..index.ends.len() {
            exempt.add(&index.ends[place]);
        }
        Ok(exempt)
    }

    // A copy, with room for so many versions.
    fn filled_up(&self, alloc: Global, count: usize) -> Result<ExemptNumbers, Refusal>
        requires { length self.now.numbers.items ≤ count }
        ensures numbers { IfOk result (λ e. e.numbers.items
            ≡ self.now.numbers.items ++ replicate (count - length self.now.numbers.items) None) }
        ensures count { IfOk result (λ e. e.count ≡ self.now.count) }
        ensures memory { IfErr result (λ e. e ≡ Refusal.NoMemory) }
    {
        let mut numbers = Vec::new(alloc);
        numbers.extend_from_slice(self.numbers.as_slice())?;
        numbers.resize(count, None)?;
        Ok(ExemptNumbers {
            numbers,
            count: self.count,
        })
    }

    // Gives the version to which a step leads the next number, where the step is exempt and the version has none.
    fn add(&mut self, ends: &Ends)
        requires target { ends.now.target < length self.old.numbers.items }
        requires count { self.old.count < 2 ^ 64 - 1 }
        ensures numbers { (front : List Ends) → AreExemptNumbers front self.old
            → AreExemptNumbers (front ++ ends.now ∷ []) self.new }
        ensures versions { length self.new.numbers.items ≡ length self.old.numbers.items }
    {
        if !ends.exempt {
            return;
        }
        if self.numbers[ends.target].is_some() {
            return;
        }
        self.numbers[ends.target] = Some(self.count);
        self.count += 1;
    }
}
