//! The publisher records of a package.
ghost use Rattle.std.specs.Prelude.{◌≡◌, ◌↔◌, [], IfOk, IfErr, IsTrue, length};
ghost use Rattle.std.specs.Cmp.{partial_equiv_from_equiv};
ghost use Rattle.std.specs.List.{Contains};
ghost use Rattle.vet_entries.specs.declared.publisher.Publisher.{Publisher};
ghost use Rattle.vet_entries.specs.Publishers.{AreTheRecords, IsInOrder, publishers_eq};
ghost use Rattle.vet_entries.specs.PublishersLaws.{publishers_eq_equiv};

use crate::publisher::Publisher;
use std::alloc::{AllocError, Global};
use std::marker::Model;
use vet_base::refusal::Refusal;

/// The publisher records of one package, each once, in the order of version, day, user, login and name.
#[derive(Drop)]
pub struct Publishers {
    records: Vec<Publisher>,
}

impl Model for Publishers {
    ghost use Rattle.std.specs.Prelude.{List};
    ghost use Rattle.vet_entries.specs.declared.publisher.Publisher.{Publisher};
    ghost use Rattle.vet_entries.specs.Publishers.{IsInOrder};

    ghost Value = { List Publisher };

    ghost view = { λ p. p.records.items };

    ghost invariant = { λ p. IsInOrder p.records.items };
}

impl Publishers {
    /// No records. Takes no memory.
    pub fn new(alloc: Global) -> Publishers
        ensures { result ≡ [] }
    {
        Publishers {
            records: Vec::new(alloc),
        }
    }

    /// The publisher records of a list, in which they may repeat and be in any order. A record that repeats counts
    /// once. Takes a time of n log n. Refused: `NoMemory`.
    pub fn of(alloc: Global, records: Vec<Publisher>) -> Result<Publishers, Refusal>
        ensures records { IfOk result (λ p. AreTheRecords records.items p) }
        ensures memory { IfErr result (λ e. e ≡ Refusal.NoMemory) }
    {
        let mut records = records;
        records.as_mut_slice().sort(alloc)?;
        records.dedup();
        Ok(Publishers { records })
    }

    /// The records in order. Takes no memory.
    pub fn as_slice(&self) -> &[Publisher]
        ensures value { result.now ≡ self.now }
        ensures in_order { IsInOrder self.now }
    {
        self.records.as_slice()
    }

    /// The number of records.
    pub fn len(&self) -> usize
        ensures { result ≡ length self.now }
    {
        self.records.len()
    }

    /// Whether there are no records.
    pub fn is_empty(&self) -> bool
        ensures { IsTrue result ↔ (self.now ≡ []) }
    {
        self.records.is_empty()
    }
}

impl Clone for Publishers {
    ghost use Rattle.std.specs.Prelude.{◌≡◌};

    ghost is_clone = { λ a b. b ≡ a };

    fn clone(&self) -> Result<Publishers, AllocError> {
        Ok(Publishers {
            records: self.records.clone()?,
        })
    }
}

impl PartialEq for Publishers {
    ghost eq = { publishers_eq };

    ghost laws = { partial_equiv_from_equiv publishers_eq_equiv };

    fn eq(&self, other: &Publishers) -> bool
        ensures value { result ≡ publishers_eq self.now other.now }
        ensures same { IsTrue result ↔ (self.now ≡ other.now) }
    {
        self.records == other.records
    }
}

impl Eq for Publishers {
    ghost laws = { publishers_eq_equiv };
}

/// Two lists that have the same records are equal. Does nothing.
pub fn same_records_are_equal(a: &Publishers, b: &Publishers)
    ensures { ((p : Publisher) → Contains a.now p ↔ Contains b.now p) → a.now ≡ b.now }
{
    let _ = &a.records;
    let _ = &b.records;
}
