//! The policies of a project.
ghost use Rattle.std.specs.Prelude.{◌≡◌, ◌↔◌, ◌==◌, [], IfOk, IsTrue, OnErr, OnOk, Ok, length};
ghost use Rattle.std.specs.Cmp.{decided, partial_equiv_from_equiv};
ghost use Rattle.std.specs.Option.{option_copied};
ghost use Rattle.vet_demand.specs.Policies.{IsInKeyOrder, has_policy, in_key_order, key_of, keyed_policy_eq};
ghost use Rattle.vet_demand.specs.Policies.{policies_eq, policy_of, with_policy};
ghost use Rattle.vet_demand.specs.PoliciesLaws.{keyed_policy_eq-Decides, policies_eq-Decides};

use crate::policy::Policy;
use crate::policy_key::PolicyKey;
use std::alloc::{AllocError, Global};
use std::marker::Model;
use vet_base::keyed::{ExactItem, HasKey, Keyed};
use vet_base::name::PackageName;
use vet_base::version::VetVersion;

/// A policy with its key.
pub struct KeyedPolicy {
    pub key: PolicyKey,
    pub policy: Policy,
}

impl Drop for KeyedPolicy {
    fn drop(self) {
        let KeyedPolicy { key: _, policy: _ } = self;
    }
}

impl Clone for KeyedPolicy {
    ghost is_clone = { λ a b. b ≡ a };

    fn clone(&self) -> Result<KeyedPolicy, AllocError> {
        Ok(KeyedPolicy {
            key: self.key.clone()?,
            policy: self.policy.clone()?,
        })
    }
}

impl PartialEq for KeyedPolicy {
    ghost eq = { keyed_policy_eq };

    ghost laws = { partial_equiv_from_equiv (decided keyed_policy_eq keyed_policy_eq-Decides) };

    fn eq(&self, other: &KeyedPolicy) -> bool
        ensures value { result ≡ keyed_policy_eq self.now other.now }
        ensures same { IsTrue result ↔ (self.now ≡ other.now) }
    {
        self.key == other.key && self.policy == other.policy
    }
}

impl Eq for KeyedPolicy {
    ghost laws = { decided keyed_policy_eq keyed_policy_eq-Decides };
}

impl HasKey for KeyedPolicy {
    type Key = PolicyKey;

    ghost key_of = { key_of };

    fn key(&self) -> &PolicyKey {
        &self.key
    }
}

impl ExactItem for KeyedPolicy {
    ghost only_copies = { λ a b h. h };

    ghost only_itself = { keyed_policy_eq-Decides };
}

/// Policies in the order of their keys, no key twice.
#[derive(Drop)]
pub struct Policies {
    policies: Keyed<KeyedPolicy>,
}

impl Model for Policies {
    ghost use Rattle.std.specs.Coded.{coded_list};
    ghost use Rattle.std.specs.Prelude.{List};
    ghost use Rattle.vet_demand.specs.contracts.policies.KeyedPolicy as keyed;
    ghost use Rattle.vet_demand.specs.declared.policies.KeyedPolicy.{KeyedPolicy};

    ghost Value = { List KeyedPolicy };

    ghost coded = { coded_list keyed.the_row.coded };

    ghost view = { λ p. p.policies.items };
}

impl Policies {
    /// No policies. Takes no memory.
    pub fn new(alloc: Global) -> Policies
        ensures { result ≡ [] }
    {
        Policies {
            policies: Keyed::new(alloc),
        }
    }

    /// Makes it from policies in any order. The last policy of each key remains. Takes a time of n log n.
    pub fn of(alloc: Global, policies: Vec<KeyedPolicy>) -> Result<Policies, AllocError>
        ensures { IfOk result (λ p. p ≡ in_key_order policies.items) }
    {
        Ok(Policies {
            policies: Keyed::of(alloc, policies)?,
        })
    }

    /// Whether there is a policy of a key. Takes no memory, and a time of log n.
    pub fn has(&self, key: &PolicyKey) -> bool
        ensures { result ≡ has_policy self.now key.now }
    {
        self.policies.has(key)
    }

    /// The policy of a key, if there is one. Takes no memory, and a time of log n.
    pub fn get(&self, key: &PolicyKey) -> Option<&Policy>
        ensures { option_copied result ≡ policy_of self.now key.now }
    {
        policy_of(&self.policies, key)
    }

    /// Adds the policy of a key, or replaces the one of this key, which takes no memory. Costs a binary search, and
    /// moves the policies after the key. If memory runs out, nothing changes.
    pub fn insert(&mut self, key: PolicyKey, policy: Policy) -> Result<(), AllocError>
        ensures ok { OnOk result (self.new ≡ with_policy self.old key policy) }
        ensures held { IsTrue (has_policy self.old key) → result ≡ Ok tt }
        ensures err { OnErr result (self.new ≡ self.old) }
    {
        self.policies.insert(KeyedPolicy { key, policy })
    }

    /// The policies, in the order of their keys.
    pub fn as_slice(&self) -> &[KeyedPolicy]
        ensures value { result.now ≡ self.now }
        ensures in_order { IsInKeyOrder self.now }
    {
        self.policies.items()
    }

    /// The number of policies.
    pub fn len(&self) -> usize
        ensures { result ≡ length self.now }
    {
        self.policies.len()
    }

    /// Whether there are no policies.
    pub fn is_empty(&self) -> bool
        ensures { result ≡ (length self.now == 0) }
    {
        self.policies.is_empty()
    }
}

impl Clone for Policies {
    ghost is_clone = { λ a b. b ≡ a };

    fn clone(&self) -> Result<Policies, AllocError> {
        Ok(Policies {
            policies: self.policies.clone()?,
        })
    }
}

impl PartialEq for Policies {
    ghost eq = { policies_eq };

    ghost laws = { partial_equiv_from_equiv (decided policies_eq policies_eq-Decides) };

    fn eq(&self, other: &Policies) -> bool
        ensures value { result ≡ policies_eq self.now other.now }
        ensures same { IsTrue result ↔ (self.now ≡ other.now) }
    {
        self.policies == other.policies
    }
}

impl Eq for Policies {
    ghost laws = { decided policies_eq policies_eq-Decides };
}

/// The policy of a key among policies that are held by key, if there is one. Takes no memory, and a time of log n.
pub fn policy_of<'p>(policies: &'p Keyed<KeyedPolicy>, key: &PolicyKey) -> Option<&'p Policy>
    ensures { option_copied result ≡ policy_of policies.now.items key.now }
{
    match policies.get(key) {
        Some(held) => Some(&held.policy),
        None => None,
    }
}

/// The policy of a package, or of one version of it, as above.
pub(crate) fn policy_of_parts<'p>(
    policies: &'p Keyed<KeyedPolicy>,
    package: &PackageName,
    version: Option<&VetVersion>,
) -> Option<&'p Policy>
    ensures { option_copied result ≡ policy_of policies.now.items
        (record { «package» = «package».now; version = option_copied version.entry }) }
{
    let held = policies.items();
    match held.binary_search_by(|keyed| keyed.key.cmp_parts(package, version)) {
        Ok(place) => Some(&held[place].policy),
        Err(_) => None,
    }
}
