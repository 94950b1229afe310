//! Sets of package names.
ghost use Rattle.std.specs.Prelude.{◌≡◌, ◌==◌, ◌↔◌, IsTrue, Ok, OnOk, OnErr, IfOk, true};
ghost use Rattle.std.specs.FinSet as set;
ghost use Rattle.vet_base.specs.Names.{IsRising, members};

use crate::keyed::Keyed;
use crate::name::PackageName;
use std::alloc::{AllocError, Global};
use std::marker::Model;

/// A set of package names, in the order of their bytes.
#[derive(Drop)]
pub struct PackageNames {
    names: Keyed<PackageName>,
}

impl Model for PackageNames {
    ghost use Rattle.std.specs.Coded.{coded_list, coded_ℕ};
    ghost use Rattle.std.specs.FinSet as set;
    ghost use Rattle.vet_base.specs.Names.{NameSet, IsRising};

    ghost Value = { NameSet };

    ghost coded = { set.code (coded_list coded_ℕ) };

    ghost view = { λ n. set.from_list n.names.items };

    ghost invariant = { λ n. IsRising n.names.items };
}

impl PackageNames {
    /// The empty set.
    pub fn new(alloc: Global) -> PackageNames
        ensures { result ≡ set.empty }
    {
        PackageNames {
            names: Keyed::new(alloc),
        }
    }

    /// The set of some names, given in any order. Takes a time of n log n.
    pub fn of(alloc: Global, names: Vec<PackageName>) -> Result<PackageNames, AllocError>
        ensures { IfOk result (λ s. s ≡ set.from_list names.items) }
    {
        Ok(PackageNames {
            names: Keyed::of(alloc, names)?,
        })
    }

    /// Adds a name, which takes no memory if the set has it. If memory runs out, the set is as it was.
    pub fn insert(&mut self, name: PackageName) -> Result<(), AllocError>
        ensures ok { OnOk result (self.new ≡ set.insert self.old name) }
        ensures held { set.contains self.old name ≡ true → result ≡ Ok tt }
        ensures err { OnErr result (self.new ≡ self.old) }
    {
        self.names.insert(name)?;
        Ok(())
    }

    /// Whether a name is in the set.
    pub fn contains(&self, name: &PackageName) -> bool
        ensures { result ≡ set.contains self.now name.now }
    {
        self.names.has(name)
    }

    /// The names in the order of their bytes, each once.
    pub fn as_slice(&self) -> &[PackageName]
        ensures members { result.now ≡ members self.now }
        ensures rising { IsRising result.now }
        ensures set { self.now ≡ set.from_list result.now }
    {
        self.names.items()
    }

    /// Whether the set is empty.
    pub fn is_empty(&self) -> bool
        ensures { IsTrue result ↔ (self.now ≡ set.empty) }
    {
        self.names.is_empty()
    }

    /// How many names there are.
    pub fn len(&self) -> usize
        ensures { result ≡ set.len self.now }
    {
        self.names.len()
    }
}

impl Clone for PackageNames {
    ghost use Rattle.std.specs.Prelude.{◌≡◌};

    ghost is_clone = { λ a b. b ≡ a };

    fn clone(&self) -> Result<PackageNames, AllocError> {
        Ok(PackageNames {
            names: self.names.clone()?,
        })
    }
}

impl PartialEq for PackageNames {
    ghost use Rattle.std.specs.Cmp.{partial_equiv_from_equiv};
    ghost use Rattle.std.specs.Prelude.{IsTrue, ◌↔◌, ◌≡◌};
    ghost use Rattle.vet_base.specs.Names.{same_names};
    ghost use Rattle.vet_base.specs.NamesLaws.{same_names_equiv};

    ghost eq = { same_names };

    ghost laws = { partial_equiv_from_equiv same_names_equiv };

    fn eq(&self, other: &PackageNames) -> bool
        ensures value { result ≡ same_names self.now other.now }
        ensures same { IsTrue result ↔ (self.now ≡ other.now) }
    {
        self.names == other.names
    }
}

impl Eq for PackageNames {
    ghost use Rattle.vet_base.specs.NamesLaws.{same_names_equiv};

    ghost laws = { same_names_equiv };
}
