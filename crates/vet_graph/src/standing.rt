//! The standing: the demanded pairs, and the class of each.
ghost use Rattle.std.specs.Prelude.{◌≡◌, ◌++◌, IfErr, OnOk, map};
ghost use Rattle.vet_demand.specs.Pair.{pair_cmp};
ghost use Rattle.vet_graph.specs.Standing.{class_in, count_in, count_of, counts_of, IsStanding};

use crate::class::Class;
use std::cmp::Ordering;
use vet_base::name::{Name, PackageName};
use vet_base::refusal::Refusal;
use vet_base::version::VetVersion;
use vet_demand::pair::Pair;

/// A demanded pair and its class.
pub struct Stand {
    pub pair: Pair,
    pub class: Class,
}

impl Drop for Stand {
    fn drop(self) {
        let Stand { pair: _, class: _ } = self;
    }
}

/// The number of demanded pairs in each class.
#[derive(Clone, Copy, PartialEq, Eq)]
pub struct Counts {
    pub conflicting: u64,
    pub full: u64,
    pub partial: u64,
    pub exempted: u64,
    pub unvetted: u64,
}

impl Counts {
    /// The number of pairs in a class.
    pub fn of(self, class: Class) -> u64
        ensures { result ≡ count_in class self }
    {
        match class {
            Class::Conflicting => self.conflicting,
            Class::Full => self.full,
            Class::Partial => self.partial,
            Class::Exempted => self.exempted,
            Class::Unvetted => self.unvetted,
        }
    }
}

/// The number of pairs of a standing in each class. Takes no memory, and looks at each pair five times.
pub fn counts_of(standing: &[Stand]) -> Counts
    ensures { result ≡ counts_of standing.now }
{
    Counts {
        conflicting: count(standing, Class::Conflicting),
        full: count(standing, Class::Full),
        partial: count(standing, Class::Partial),
        exempted: count(standing, Class::Exempted),
        unvetted: count(standing, Class::Unvetted),
    }
}

// The number of pairs in a class.
fn count(standing: &[Stand], class: Class) -> u64
    ensures { result ≡ count_of class standing.now }
{
    let mut count = 0;
    for stand in standing {
        if stand.class == class {
            count += 1;
        }
    }
    count
}

/// Adds stands after others. Refused: `NoMemory`.
pub fn add_stands<'s>(all: &mut Vec<&'s Stand>, stands: &'s [Stand]) -> Result<(), Refusal>
    ensures added { OnOk result (map (λ s. s.now) all.new.items ≡ map (λ s. s.now) all.old.items ++ stands.now) }
    ensures memory { IfErr result (λ e. e ≡ Refusal.NoMemory) }
{
    'stands: for stand in stands {
        all.push(stand)?;
    }
    Ok(())
}

/// The class of a pair, or `None` if the standing lacks it. The standing must be in order. Takes no memory, and costs
/// a binary search.
pub fn class_in(
    standing: &[Stand],
    package: &PackageName,
    version: &VetVersion,
    criterion: &Name,
) -> Option<Class>
    requires { IsStanding standing.now }
    ensures { result ≡ class_in standing.now
        (record { «package» = «package».now; version = version.now; criterion = criterion.now }) }
{
    let found = standing.binary_search_by(|stand| stand
        .pair
        .cmp_parts(package, version, criterion));
    match found {
        Ok(place) => Some(standing[place].class),
        Err(_) => None,
    }
}
