//! Sets of free texts.
ghost use Rattle.std.specs.Prelude.{◌≡◌, ◌==◌, ◌↔◌, IsTrue, Ok, OnOk, OnErr, IfOk, true};
ghost use Rattle.std.specs.FinSet as set;
ghost use Rattle.vet_base.specs.Names.{IsRising, members};

use crate::keyed::Keyed;
use crate::text::Text;
use std::alloc::{AllocError, Global};
use std::hash::{Hash, Hasher};
use std::marker::Model;

/// A set of free texts, in the order of their bytes.
#[derive(Drop)]
pub struct Texts {
    texts: Keyed<Text>,
}

impl Model for Texts {
    ghost use Rattle.std.specs.Coded.{coded_list, coded_ℕ};
    ghost use Rattle.std.specs.FinSet as set;
    ghost use Rattle.vet_base.specs.Names.{NameSet, IsRising};

    ghost Value = { NameSet };

    ghost coded = { set.code (coded_list coded_ℕ) };

    ghost view = { λ t. set.from_list t.texts.items };

    ghost invariant = { λ t. IsRising t.texts.items };
}

impl Texts {
    /// The empty set.
    pub fn new(alloc: Global) -> Texts
        ensures { result ≡ set.empty }
    {
        Texts {
            texts: Keyed::new(alloc),
        }
    }

    /// The set of some texts, given in any order. Takes a time of n log n.
    pub fn of(alloc: Global, texts: Vec<Text>) -> Result<Texts, AllocError>
        ensures { IfOk result (λ s. s ≡ set.from_list texts.items) }
    {
        Ok(Texts {
            texts: Keyed::of(alloc, texts)?,
        })
    }

    /// Adds a text, which takes no memory if the set has it. If memory runs out, the set is as it was.
    pub fn insert(&mut self, text: Text) -> Result<(), AllocError>
        ensures ok { OnOk result (self.new ≡ set.insert self.old text) }
        ensures held { set.contains self.old text ≡ true → result ≡ Ok tt }
        ensures err { OnErr result (self.new ≡ self.old) }
    {
        self.texts.insert(text)?;
        Ok(())
    }

    /// The texts in the order of their bytes, each once.
    pub fn as_slice(&self) -> &[Text]
        ensures members { result.now ≡ members self.now }
        ensures rising { IsRising result.now }
        ensures set { self.now ≡ set.from_list result.now }
    {
        self.texts.items()
    }

    /// Whether the set is empty.
    pub fn is_empty(&self) -> bool
        ensures { IsTrue result ↔ (self.now ≡ set.empty) }
    {
        self.texts.is_empty()
    }

    /// How many texts there are.
    pub fn len(&self) -> usize
        ensures { result ≡ set.len self.now }
    {
        self.texts.len()
    }
}

impl Clone for Texts {
    ghost use Rattle.std.specs.Prelude.{◌≡◌};

    ghost is_clone = { λ a b. b ≡ a };

    fn clone(&self) -> Result<Texts, AllocError> {
        Ok(Texts {
            texts: self.texts.clone()?,
        })
    }
}

impl PartialEq for Texts {
    ghost use Rattle.std.specs.Cmp.{partial_equiv_from_equiv};
    ghost use Rattle.std.specs.Prelude.{IsTrue, ◌↔◌, ◌≡◌};
    ghost use Rattle.vet_base.specs.Names.{same_names};
    ghost use Rattle.vet_base.specs.NamesLaws.{same_names_equiv};

    ghost eq = { same_names };

    ghost laws = { partial_equiv_from_equiv same_names_equiv };

    fn eq(&self, other: &Texts) -> bool
        ensures value { result ≡ same_names self.now other.now }
        ensures same { IsTrue result ↔ (self.now ≡ other.now) }
    {
        self.texts == other.texts
    }
}

impl Eq for Texts {
    ghost use Rattle.vet_base.specs.NamesLaws.{same_names_equiv};

    ghost laws = { same_names_equiv };
}

impl Hash for Texts {
    ghost use Rattle.std.specs.Hash as fed;
    ghost use Rattle.vet_base.specs.Fed.{names_fed};
    ghost use Rattle.vet_base.specs.NamesLaws.{same_names-Decides};

    ghost hash_input = { names_fed };

    ghost respects_eq = { (fed.same_Alike names_fed same_names-Decides).fed };

    fn hash<H: Hasher>(&self, state: &mut H) {
        self.as_slice().hash(state);
    }
}
