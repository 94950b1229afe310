//! The versions that steps name, by numbers, and where each step starts and leads.
ghost use Rattle.std.specs.Prelude.{◌≡◌, ◌+◌, ◌-◌, ◌^◌, ◌<◌, ◌≤◌, ◌++◌, ◌∷◌, ℕ, IfOk, IfErr, [], Some, cond};
ghost use Rattle.std.specs.Prelude.{length, get_or, take};
ghost use Rattle.std.specs.BTreeMap.{get};
ghost use Rattle.vet_base.specs.Version.{VersionValue};
ghost use Rattle.vet_base.specs.VersionOrder.{version_cmp};
ghost use Rattle.vet_demand.specs.Spread.{lists_in};
ghost use Rattle.vet_masks.specs.Index.{IsIndex, IsNumbering, IsOrigin, Keeps, is_from};

use crate::looks::Looks;
use std::alloc::Global;
use std::collections::BTreeMap;
use vet_base::criteria_set::CriteriaSet;
use vet_base::refusal::Refusal;
use vet_base::version::VetVersion;
use vet_demand::place_lists::push_at;

// The numbers of the versions between which a step leads, and whether it is exempt.
#[derive(Clone, Copy)]
pub(crate) struct Ends {
    pub(crate) origin: Option<usize>,
    pub(crate) target: usize,
    pub(crate) exempt: bool,
}

// Made by one look at each step.
#[derive(Drop)]
pub(crate) struct Index {
    // A number for each version that some step names.
    pub(crate) numbers: BTreeMap<VetVersion, usize>,
    // Of each step, by its place.
    pub(crate) ends: Vec<Ends>,
    // By its number, the places of the steps that start at each version.
    pub(crate) after: Vec<Vec<usize>>,
    // The criteria that some step has.
    pub(crate) used: CriteriaSet,
}

impl Index {
    // Of no steps.
    pub(crate) fn nothing(alloc: Global) -> Index
        ensures index { IsIndex [] result }
        ensures after { result.after.items ≡ [] }
    {
        Index {
            numbers: BTreeMap::new(alloc),
            ends: Vec::new(alloc),
            after: Vec::new(alloc),
            used: CriteriaSet::empty(),
        }
    }
}

impl Index {
    // The same, and the steps from a place on.
    pub(crate) fn extended(
        &self,
        alloc: Global,
        looks: &mut Looks,
        first: usize,
    ) -> Result<Index, Refusal>
        requires first { first ≤ length looks.old.steps }
        requires index { IsIndex (take first looks.old.steps) self.now }
        requires count { looks.old.count < 2 ^ 127 }
        ensures index { IfOk result (IsIndex looks.old.steps) }
        ensures keeps { IfOk result (λ i. Keeps (get version_cmp self.now.numbers) (get version_cmp i.numbers)) }
        ensures more { IfOk result (λ i. length self.now.after.items ≤ length i.after.items) }
        ensures steps { looks.new.steps ≡ looks.old.steps }
        ensures count { IfOk result (λ _. looks.new.count + first ≡ looks.old.count + length looks.old.steps) }
        ensures bound { looks.new.count + first ≤ looks.old.count + length looks.old.steps }
        ensures memory { IfErr result (λ e. e ≡ Refusal.NoMemory) }
    {
        let mut index = self.copied(alloc)?;
        'steps: for place in first..looks.len() {
            index.file(alloc, looks, place)?;
        }
        Ok(index)
    }

    // Files one more step, behind all others.
    fn file(&mut self, alloc: Global, looks: &mut Looks, place: usize) -> Result<(), Refusal>
        requires place { place < length looks.old.steps }
        requires index { IsIndex (take place looks.old.steps) self.old }
        requires count { looks.old.count < 2 ^ 128 - 1 }
        ensures index { IfOk result (λ _. IsIndex (take (place + 1) looks.old.steps) self.new) }
        ensures keeps { IfOk result (λ _. Keeps (get version_cmp self.old.numbers) (get version_cmp self.new.numbers)) }
        ensures more { IfOk result (λ _. length self.old.after.items ≤ length self.new.after.items) }
        ensures steps { looks.new.steps ≡ looks.old.steps }
        ensures count { looks.new.count ≡ looks.old.count + 1 }
        ensures memory { IfErr result (λ e. e ≡ Refusal.NoMemory) }
    {
        let step = looks.look(place);
        let origin = self.origin(alloc, &step.origin)?;
        let target = self.number(alloc, &step.target)?;
        self.ends.push(Ends {
            origin,
            target,
            exempt: step.exempt,
        })?;
        self.used = self.used.union(&step.criteria);
        self.put_after(origin, place)?;
        Ok(())
    }

    // Puts a step behind those that start at the version of the same number, where it starts at one.
    fn put_after(&mut self, origin: Option<usize>, place: usize) -> Result<(), Refusal>
        requires { (n : ℕ) → origin ≡ Some n → n < length self.old.after.items }
        ensures after { IfOk result (λ _. (n : ℕ) → get_or (lists_in self.new.after.items) n []
            ≡ get_or (lists_in self.old.after.items) n [] ++ cond (is_from n origin) (place ∷ []) []) }
        ensures count { IfOk result (λ _. length self.new.after.items ≡ length self.old.after.items) }
        ensures numbers { self.new.numbers ≡ self.old.numbers }
        ensures ends { self.new.ends ≡ self.old.ends }
        ensures used { self.new.used ≡ self.old.used }
        ensures memory { IfErr result (λ e. e ≡ Refusal.NoMemory) }
    {
        if let Some(from) = origin {
            push_at(&mut self.after, from, place)?;
        }
        Ok(())
    }

    // The number of the version at which a step starts, or nothing.
    fn origin(
        &mut self,
        alloc: Global,
        origin: &Option<VetVersion>,
    ) -> Result<Option<usize>, Refusal>
        requires { IsNumbering (get version_cmp self.old.numbers) (length self.old.after.items) }
        ensures origin { IfOk result (IsOrigin (get version_cmp self.new.numbers) origin.now) }
        ensures keeps { IfOk result (λ _. Keeps (get version_cmp self.old.numbers) (get version_cmp self.new.numbers)) }
        ensures numbering { IfOk result (λ _.
            IsNumbering (get version_cmp self.new.numbers) (length self.new.after.items)) }
        ensures more { IfOk result (λ _. length self.old.after.items ≤ length self.new.after.items) }
        ensures after { IfOk result (λ _. (n : ℕ)
            → get_or (lists_in self.new.after.items) n [] ≡ get_or (lists_in self.old.after.items) n []) }
        ensures ends { self.new.ends ≡ self.old.ends }
        ensures used { self.new.used ≡ self.old.used }
        ensures memory { IfErr result (λ e. e ≡ Refusal.NoMemory) }
    {
        let Some(version) = origin else {
            return Ok(None);
        };
        let number = self.number(alloc, version)?;
        Ok(Some(number))
    }

    // The number of a version, which is the next one where it has none.
    fn number(&mut self, alloc: Global, version: &VetVersion) -> Result<usize, Refusal>
        requires { IsNumbering (get version_cmp self.old.numbers) (length self.old.after.items) }
        ensures number { IfOk result (λ n. get version_cmp self.new.numbers version.now ≡ Some n) }
        ensures keeps { IfOk result (λ _. Keeps (get version_cmp self.old.numbers) (get version_cmp self.new.numbers)) }
        ensures numbering { IfOk result (λ _.
            IsNumbering (get version_cmp self.new.numbers) (length self.new.after.items)) }
        ensures more { IfOk result (λ _. length self.old.after.items ≤ length self.new.after.items) }
        ensures after { IfOk result (λ _. (n : ℕ)
            → get_or (lists_in self.new.after.items) n [] ≡ get_or (lists_in self.old.after.items) n []) }
        ensures ends { self.new.ends ≡ self.old.ends }
        ensures used { self.new.used ≡ self.old.used }
        ensures memory { IfErr result (λ e. e ≡ Refusal.NoMemory) }
    {
        if let Some(number) = self.numbers.get(version).copied() {
            return Ok(number);
        }
        let number = self.after.len();
        self.numbers.insert(version.clone()?, number)?;
        self.after.push(Vec::new(alloc))?;
        Ok(number)
    }

    // A copy.
    fn copied(&self, alloc: Global) -> Result<Index, Refusal>
        ensures numbers { IfOk result (λ i. (v : VersionValue)
            → get version_cmp i.numbers v ≡ get version_cmp self.now.numbers v) }
        ensures ends { IfOk result (λ i. i.ends.items ≡ self.now.ends.items) }
        ensures after { IfOk result (λ i. lists_in i.after.items ≡ lists_in self.now.after.items) }
        ensures used { IfOk result (λ i. i.used ≡ self.now.used) }
        ensures memory { IfErr result (λ e. e ≡ Refusal.NoMemory) }
    {
        Ok(Index {
            numbers: self.numbers.clone()?,
            ends: self.ends.clone()?,
            after: self.after.clone()?,
            used: self.used,
        })
    }
}
