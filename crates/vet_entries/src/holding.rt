//! The content held of a peer.
ghost use Rattle.std.specs.Prelude.{◌≡◌, ◌<◌, IfOk, IfErr, filter, length};
ghost use Rattle.std.specs.List.{All};
ghost use Rattle.vet_entries.specs.ByPackage.{gathered, is_of};
ghost use Rattle.vet_entries.specs.Holding.{no_holding};
ghost use Rattle.vet_entries.specs.Numbered.{AreByNumber};

use crate::by_package::ByPackage;
use crate::facts::HeldEntry;
use std::alloc::Global;
use std::marker::Model;
use vet_base::definitions::Definitions;
use vet_base::name::PackageName;
use vet_base::refusal::Refusal;

/// The content imported from a peer, in the peer's own words: its criteria, including the built-in ones, and its
/// entries in the order of their numbers.
pub struct Holding {
    definitions: Definitions,
    entries: ByPackage,
}

impl Model for Holding {
    ghost use Rattle.vet_base.specs.Encodings.{criterion_code};
    ghost use Rattle.std.specs.Coded.{coded_list, coded_ℕ};
    ghost use Rattle.std.specs.FinMap as map;
    ghost use Rattle.vet_entries.specs.Holding.{HoldingValue};
    ghost use Rattle.vet_entries.specs.Encodings.{holding_code};
    ghost use Rattle.vet_entries.specs.contracts.facts.HeldEntry as held;

    ghost Value = { HoldingValue };

    ghost coded = { holding_code (map.code (coded_list coded_ℕ) criterion_code) held.the_row.coded };

    ghost view = { λ h. record { table = h.definitions; entries = h.entries.entries } };
}

impl Drop for Holding {
    fn drop(self) {
        let Holding {
            definitions: _,
            entries: _,
        } = self;
    }
}

impl Holding {
    /// The built-in criteria and no entries, as for a peer from which nothing was imported. Refused: `NoMemory`.
    pub fn new(alloc: Global) -> Result<Holding, Refusal>
        ensures ok { IfOk result (λ h. h ≡ no_holding) }
        ensures memory { IfErr result (λ e. e ≡ Refusal.NoMemory) }
    {
        Ok(Holding {
            definitions: Definitions::new(alloc)?,
            entries: ByPackage::new(alloc),
        })
    }

    /// These criteria, and these entries in the order of their numbers. Takes a time of n log n. Refused:
    /// `NoMemory`.
    pub fn of(
        alloc: Global,
        definitions: Definitions,
        entries: Vec<HeldEntry>,
    ) -> Result<Holding, Refusal>
        requires { AreByNumber entries.items }
        ensures ok { IfOk result (λ h. h ≡ record { table = definitions; entries = entries.items }) }
        ensures memory { IfErr result (λ e. e ≡ Refusal.NoMemory) }
    {
        Ok(Holding {
            definitions,
            entries: ByPackage::of(alloc, entries)?,
        })
    }

    /// The peer's criteria, including the built-in ones. Takes no memory.
    pub fn definitions(&self) -> &Definitions
        ensures { result.now ≡ self.now.table }
    {
        &self.definitions
    }

    /// The peer's entries in the order of their numbers. Takes no memory.
    pub fn entries(&self) -> &[HeldEntry]
        ensures value { result.now ≡ self.now.entries }
        ensures by_number { AreByNumber self.now.entries }
    {
        self.entries.entries()
    }

    // The places of a package's entries, in rising order.
    pub(crate) fn places_of(&self, package: &PackageName) -> &[usize]
        ensures within { All (λ place. place < length self.now.entries) result.now }
        ensures entries { gathered self.now.entries result.now
            ≡ filter (is_of «package».now) self.now.entries }
    {
        self.entries.places_of(package)
    }
}
