//! Policies: the criteria that are asked of a package and of its dependencies.
ghost use Rattle.std.specs.Prelude.{◌≡◌, ◌↔◌, IfOk, IsTrue};
ghost use Rattle.std.specs.Cmp.{decided, partial_equiv_from_equiv};
ghost use Rattle.vet_demand.specs.Policy.{policy_eq};
ghost use Rattle.vet_demand.specs.PolicyLaws.{policy_eq-Decides};

use crate::dependency_criteria::DependencyCriteria;
use std::alloc::AllocError;
use vet_base::names::Names;
use vet_base::text::Text;

/// The criteria that are asked of a package and of its dependencies, in place of the defaults (The Cargo Vet Book,
/// config). Criteria count with everything that they imply. An empty list asks for nothing. It differs from an absent
/// list, which keeps the default.
pub struct Policy {
    /// Whether the package, if it is first-party, is audited as the one of its name and version at crates.io. It is
    /// demanded itself only if this is `true`; `false` and `None` mean the same.
    pub audit_as_crates_io: Option<bool>,
    /// All that the package needs if it is first-party, however it is reached. If `None`, a root needs `safe-to-deploy`
    /// and what its dependants pass, and any other package needs what these pass. Ignored if the package is
    /// third-party.
    pub criteria: Option<Names>,
    /// The criteria that the package passes along dev edges if it is first-party. If `None`, `safe-to-run`.
    pub dev_criteria: Option<Names>,
    /// The criteria that the package passes along the edges to a dependency of a name, in place of everything else. A
    /// third-party package passes nothing along dev edges.
    pub dependency_criteria: DependencyCriteria,
    /// Free text about the policy.
    pub notes: Option<Text>,
}

impl Drop for Policy {
    fn drop(self) {
        let Policy {
            audit_as_crates_io: _,
            criteria: _,
            dev_criteria: _,
            dependency_criteria: _,
            notes: _,
        } = self;
    }
}

impl Clone for Policy {
    ghost is_clone = { λ a b. b ≡ a };

    fn clone(&self) -> Result<Policy, AllocError> {
        Ok(Policy {
            audit_as_crates_io: self.audit_as_crates_io,
            criteria: names_copied(&self.criteria)?,
            dev_criteria: names_copied(&self.dev_criteria)?,
            dependency_criteria: self.dependency_criteria.clone()?,
            notes: text_copied(&self.notes)?,
        })
    }
}

impl PartialEq for Policy {
    ghost eq = { policy_eq };

    ghost laws = { partial_equiv_from_equiv (decided policy_eq policy_eq-Decides) };

    // A policy is equal only to itself.
    fn eq(&self, other: &Policy) -> bool
        ensures value { result ≡ policy_eq self.now other.now }
        ensures same { IsTrue result ↔ (self.now ≡ other.now) }
    {
        are_same(self, other)
    }
}

impl Eq for Policy {
    ghost laws = { decided policy_eq policy_eq-Decides };
}

// Whether two policies agree in every field.
fn are_same(a: &Policy, b: &Policy) -> bool
    ensures { result ≡ policy_eq a.now b.now }
{
    a.audit_as_crates_io == b.audit_as_crates_io
        && a.criteria == b.criteria
        && a.dev_criteria == b.dev_criteria
        && a.dependency_criteria == b.dependency_criteria
        && a.notes == b.notes
}

// A copy of some names, if they are present.
fn names_copied(names: &Option<Names>) -> Result<Option<Names>, AllocError>
    ensures { IfOk result (λ copy. copy ≡ names.now) }
{
    match names {
        Some(names) => Ok(Some(names.clone()?)),
        None => Ok(None),
    }
}

// A copy of a text, if there is one.
fn text_copied(text: &Option<Text>) -> Result<Option<Text>, AllocError>
    ensures { IfOk result (λ copy. copy ≡ text.now) }
{
    match text {
        Some(text) => Ok(Some(text.clone()?)),
        None => Ok(None),
    }
}
