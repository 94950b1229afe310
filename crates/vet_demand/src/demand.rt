//! Demands: pairs in the order of reports.
ghost use Rattle.std.specs.Prelude.{◌≡◌, ◌↔◌, [], IsTrue, IfOk, IfErr, length};
ghost use Rattle.std.specs.List.{Contains};
ghost use Rattle.vet_demand.specs.Demand.{AreThePairs};
ghost use Rattle.vet_demand.specs.Pair.{IsInOrder};

use crate::pair::Pair;
use std::alloc::Global;
use std::marker::Model;
use vet_base::name::{Name, PackageName};
use vet_base::refusal::Refusal;
use vet_base::version::VetVersion;

/// Pairs that are demanded, each once, in the order of reports: by package, version and criterion.
#[derive(Drop)]
pub struct Demand {
    pairs: Vec<Pair>,
}

impl Model for Demand {
    ghost use Rattle.std.specs.Prelude.{List};
    ghost use Rattle.vet_demand.specs.declared.pair.Pair.{Pair};

    ghost Value = { List Pair };

    ghost use Rattle.vet_demand.specs.Pair.{IsInOrder};

    ghost view = { λ d. d.pairs.items };

    ghost invariant = { λ d. IsInOrder d.pairs.items };
}

impl Demand {
    /// The empty demand. Takes no memory.
    pub fn none(alloc: Global) -> Demand
        ensures { result ≡ [] }
    {
        Demand {
            pairs: Vec::new(alloc),
        }
    }

    /// The demand of some pairs, in any order and with duplicates. Takes a time of n log n. Refused: `NoMemory`.
    pub fn of_pairs(alloc: Global, pairs: Vec<Pair>) -> Result<Demand, Refusal>
        ensures pairs { IfOk result (λ d. AreThePairs pairs.items d) }
        ensures memory { IfErr result (λ e. e ≡ Refusal.NoMemory) }
    {
        let mut pairs = pairs;
        pairs.as_mut_slice().sort(alloc)?;
        pairs.dedup();
        Ok(Demand { pairs })
    }

    // The demand of pairs in order. Takes no memory.
    pub(crate) fn in_order(pairs: Vec<Pair>) -> Demand
        requires { IsInOrder pairs.items }
        ensures { result ≡ pairs.items }
    {
        Demand { pairs }
    }

    /// The pairs, in the order of reports.
    pub fn pairs(&self) -> &[Pair]
        ensures value { result.now ≡ self.now }
        ensures in_order { IsInOrder self.now }
    {
        self.pairs.as_slice()
    }

    /// The number of pairs.
    pub fn len(&self) -> usize
        ensures { result ≡ length self.now }
    {
        self.pairs.len()
    }

    /// Whether a version of a package is demanded for a criterion. Takes no memory, and a time of log n.
    pub fn contains(&self, package: &PackageName, version: &VetVersion, criterion: &Name) -> bool
        ensures { IsTrue result ↔ Contains self.now
            (record { «package» = «package».now; version = version.now; criterion = criterion.now }) }
    {
        self.pairs
            .binary_search_by(|pair| pair.cmp_parts(package, version, criterion))
            .is_ok()
    }
}
