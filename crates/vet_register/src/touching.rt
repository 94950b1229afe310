//! The packages that a command touches.
//!
//! The packages that an entry, a peer, publisher records or a day touches are known before the edit is made. Those of a
//! policy or a project are not: they are the packages at which the demand after the edit differs from that before it.
ghost use Rattle.std.specs.Prelude.{◌≡◌, ◌++◌, ◌∷◌, [], IfErr, IfOk, OnOk, filter, map, option_map};
ghost use Rattle.std.specs.FinSet as set;
ghost use Rattle.vet_base.specs.Day.{day_number};
ghost use Rattle.vet_entries.specs.ByPackage.{held_last_number};
ghost use Rattle.vet_register.specs.Touches.{entry_package, held_package, lapses_between, only_at, packages_between};
ghost use Rattle.vet_register.specs.Touches.{is_past, packages_lapsing, pair_package};
ghost use Rattle.vet_register.specs.declared.touching.Touching.TheVariants as touch;

use std::alloc::{AllocError, Global};
use std::cmp::Ordering;
use vet_base::day::Day;
use vet_base::name::PackageName;
use vet_base::package_names::PackageNames;
use vet_base::refusal::Refusal;
use vet_demand::pair::Pair;
use vet_entries::entry::Entry;
use vet_entries::facts::{EntryFacts, HeldEntry};
use vet_graph::touched::Touched;

/// The packages that a command touches, as far as they are known before its edit is made.
#[derive(Drop)]
pub enum Touching {
    /// These packages, or all.
    Known(Touched),
    /// Those at which the demand before and after the edit differ.
    ByDemand,
}

/// No package is touched. Takes no memory.
pub(crate) fn none_touched(alloc: Global) -> Touching
    ensures { result ≡ touch.Known (only_at []) }
{
    Touching::Known(Touched::Packages(PackageNames::new(alloc)))
}

/// One package is touched. Refused: `NoMemory`.
pub(crate) fn package_touched(alloc: Global, package: &PackageName) -> Result<Touching, Refusal>
    ensures ok { IfOk result (λ t. t ≡ touch.Known (only_at («package».now ∷ []))) }
    ensures memory { IfErr result (λ e. e ≡ Refusal.NoMemory) }
{
    let mut names = Vec::new(alloc);
    names.push(package.clone()?)?;
    Ok(only_at(alloc, names)?)
}

/// The packages of some held entries and of others are touched. Refused: `NoMemory`.
pub(crate) fn entries_touched(
    alloc: Global,
    held: &[HeldEntry],
    others: &[Entry],
) -> Result<Touching, Refusal>
    ensures ok { IfOk result (λ t. t
        ≡ touch.Known (only_at (map held_package held.now ++ map entry_package others.now))) }
    ensures memory { IfErr result (λ e. e ≡ Refusal.NoMemory) }
{
    let mut names = Vec::new(alloc);
    push_of_held(&mut names, held)?;
    push_of_entries(&mut names, others)?;
    Ok(only_at(alloc, names)?)
}

/// The packages of the own entries that have lapsed on only one of the register's day and another day are touched.
/// Costs a look at the last day of each own entry. Refused: `NoMemory`.
pub(crate) fn lapsing_touched(
    alloc: Global,
    facts: &EntryFacts,
    day: Day,
) -> Result<Touching, Refusal>
    ensures ok { IfOk result (λ t. t ≡ touch.Known (only_at (packages_lapsing facts.now.content day))) }
    ensures memory { IfErr result (λ e. e ≡ Refusal.NoMemory) }
{
    let mut names = Vec::new(alloc);
    push_of_lapsing(
        &mut names,
        facts.entries(),
        facts.last_days(),
        facts.today(),
        Some(day),
    )?;
    Ok(only_at(alloc, names)?)
}

// These packages, and no others, are touched.
fn only_at(alloc: Global, names: Vec<PackageName>) -> Result<Touching, AllocError>
    ensures { IfOk result (λ t. t ≡ touch.Known (only_at names.items)) }
{
    let names = PackageNames::of(alloc, names)?;
    Ok(Touching::Known(Touched::Packages(names)))
}

// Adds the packages of held entries.
fn push_of_held(names: &mut Vec<PackageName>, entries: &[HeldEntry]) -> Result<(), AllocError>
    ensures { OnOk result (names.new.items ≡ names.old.items ++ map held_package entries.now) }
{
    for held in entries {
        names.push(held.entry.package.clone()?)?;
    }
    Ok(())
}

// Adds the packages of the held entries that have lapsed on only one of two days, by the numbers of their last days.
fn push_of_lapsing(
    names: &mut Vec<PackageName>,
    entries: &[HeldEntry],
    last_days: &[Option<i32>],
    before: Option<Day>,
    after: Option<Day>,
) -> Result<(), AllocError>
    requires { last_days.now ≡ map held_last_number entries.now }
    ensures { OnOk result (names.new.items
        ≡ names.old.items ++ map held_package (filter (lapses_between before after) entries.now)) }
{
    let first = number_of(before);
    let second = number_of(after);
    for (place, last_day) in last_days.iter().enumerate() {
        let held = &entries[place];
        if is_past(*last_day, first) != is_past(*last_day, second) {
            names.push(held.entry.package.clone()?)?;
        }
    }
    Ok(())
}

// The number of a day, if there is one.
fn number_of(day: Option<Day>) -> Option<i32>
    ensures { result ≡ option_map day_number day }
{
    match day {
        Some(day) => Some(day.number()),
        None => None,
    }
}

// Whether the number of a last day is before that of a day, if there are both.
fn is_past(last: Option<i32>, day: Option<i32>) -> bool
    ensures { result ≡ is_past last day }
{
    match (last, day) {
        (None, None) => false,
        (None, Some(_)) => false,
        (Some(_), None) => false,
        (Some(last), Some(day)) => last < day,
    }
}

// Adds the packages of entries.
fn push_of_entries(names: &mut Vec<PackageName>, entries: &[Entry]) -> Result<(), AllocError>
    ensures { OnOk result (names.new.items ≡ names.old.items ++ map entry_package entries.now) }
{
    for entry in entries {
        names.push(entry.package.clone()?)?;
    }
    Ok(())
}

/// The packages at which two demands differ. Costs one walk along both. Refused: `NoMemory`.
pub(crate) fn touched_between(
    alloc: Global,
    before: &[Pair],
    after: &[Pair],
) -> Result<Touched, Refusal>
    ensures ok { IfOk result (λ t. t ≡ only_at (packages_between before.now after.now)) }
    ensures memory { IfErr result (λ e. e ≡ Refusal.NoMemory) }
{
    let mut names = Vec::new(alloc);
    let mut old = 0;
    let mut new = 0;
    while old < before.len() && new < after.len() {
        match before[old].cmp(&after[new]) {
            Ordering::Less => {
                push_of_pair(&mut names, &before[old])?;
                old += 1;
            }
            Ordering::Equal => {
                old += 1;
                new += 1;
            }
            Ordering::Greater => {
                push_of_pair(&mut names, &after[new])?;
                new += 1;
            }
        }
    }
    push_of_pairs(&mut names, &before[old..])?;
    push_of_pairs(&mut names, &after[new..])?;
    Ok(Touched::Packages(PackageNames::of(alloc, names)?))
}

// Adds the package of a pair.
fn push_of_pair(names: &mut Vec<PackageName>, pair: &Pair) -> Result<(), AllocError>
    ensures { OnOk result (names.new.items ≡ names.old.items ++ pair_package pair.now ∷ []) }
{
    names.push(pair.package.clone()?)?;
    Ok(())
}

// Adds the packages of pairs.
fn push_of_pairs(names: &mut Vec<PackageName>, pairs: &[Pair]) -> Result<(), AllocError>
    ensures { OnOk result (names.new.items ≡ names.old.items ++ map pair_package pairs.now) }
{
    for pair in pairs {
        push_of_pair(names, pair)?;
    }
    Ok(())
}
