//! Criteria.
ghost use Rattle.std.specs.Prelude.{◌≡◌, ◌↔◌, IsTrue};
ghost use Rattle.std.specs.Cmp.{partial_equiv_from_equiv};
ghost use Rattle.vet_base.specs.Criterion.{criterion_eq, criterion_name};
ghost use Rattle.vet_base.specs.CriterionLaws.{criterion_eq_equiv};

use crate::keyed::HasKey;
use crate::name::Name;
use crate::names::Names;
use crate::text::Text;
use std::alloc::AllocError;

/// A criterion: a statement that an audit can make about a package.
pub struct Criterion {
    /// Its name.
    pub name: Name,
    /// A description of it.
    pub description: Option<Text>,
    /// The url of a description.
    pub url: Option<Text>,
    /// The criteria that it implies.
    pub implies: Names,
}

impl Drop for Criterion {
    fn drop(self) {
        let Criterion {
            name: _,
            description: _,
            url: _,
            implies: _,
        } = self;
    }
}

impl Clone for Criterion {
    ghost is_clone = { λ a b. b ≡ a };

    fn clone(&self) -> Result<Criterion, AllocError> {
        Ok(Criterion {
            name: self.name.clone()?,
            description: self.description.clone()?,
            url: self.url.clone()?,
            implies: self.implies.clone()?,
        })
    }
}

impl PartialEq for Criterion {
    ghost eq = { criterion_eq };

    ghost laws = { partial_equiv_from_equiv criterion_eq_equiv };

    // A criterion is equal only to itself.
    fn eq(&self, other: &Criterion) -> bool
        ensures value { result ≡ criterion_eq self.now other.now }
        ensures same { IsTrue result ↔ (self.now ≡ other.now) }
    {
        self.name == other.name
            && self.description == other.description
            && self.url == other.url
            && self.implies == other.implies
    }
}

impl Eq for Criterion {
    ghost laws = { criterion_eq_equiv };
}

impl HasKey for Criterion {
    type Key = Name;

    ghost key_of = { criterion_name };

    fn key(&self) -> &Name {
        &self.name
    }
}
