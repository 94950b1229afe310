//! Policies in the order of a file.
ghost use Rattle.std.specs.Prelude.{◌≡◌, ◌++◌, [], ◌∷◌, IfOk};
ghost use Rattle.vet_demand.specs.Policies.{has_policy, in_key_order};
ghost use Rattle.vet_demand.specs.declared.policies.KeyedPolicy.{KeyedPolicy};

use std::alloc::{AllocError, Global};
use std::collections::BTreeSet;
use std::marker::Model;
use vet_demand::policies::{KeyedPolicy, Policies};
use vet_demand::policy::Policy;
use vet_demand::policy_key::PolicyKey;

/// Policies in the order in which they were read, with their keys beside them in an order of their own. So adding one
/// moves none of those that were read before.
#[derive(Drop)]
pub(crate) struct GatheredPolicies {
    keys: BTreeSet<PolicyKey>,
    policies: Vec<KeyedPolicy>,
}

impl Model for GatheredPolicies {
    ghost use Rattle.std.specs.Coded.{coded_list};
    ghost use Rattle.std.specs.Prelude.{List};
    ghost use Rattle.vet_demand.specs.contracts.policies.KeyedPolicy as keyed;
    ghost use Rattle.vet_demand.specs.declared.policies.KeyedPolicy.{KeyedPolicy};
    ghost use Rattle.vet_files.specs.GatheredPolicies.{AreTheKeys};

    ghost Value = { List KeyedPolicy };

    ghost coded = { coded_list keyed.the_row.coded };

    ghost view = { λ g. g.policies.items };

    ghost invariant = { λ g. AreTheKeys g.keys g.policies.items };
}

impl GatheredPolicies {
    /// No policies. Takes no memory.
    pub(crate) fn new(alloc: Global) -> GatheredPolicies
        ensures { result ≡ [] }
    {
        GatheredPolicies {
            keys: BTreeSet::new(alloc),
            policies: Vec::new(alloc),
        }
    }

    /// Whether a policy with a key was read. Takes no memory, and a time of log n.
    pub(crate) fn has(&self, key: &PolicyKey) -> bool
        ensures { result ≡ has_policy (in_key_order self.now) key.now }
    {
        self.keys.contains(key)
    }

    /// These policies, and one more after them. Takes a time of log n.
    pub(crate) fn with(self, key: PolicyKey, policy: Policy) -> Result<GatheredPolicies, AllocError>
        ensures { IfOk result (λ g. g ≡ self ++ record { key = key; policy = policy } ∷ []) }
    {
        let GatheredPolicies {
            mut keys,
            mut policies,
        } = self;
        keys.insert(key.clone()?)?;
        policies.push(KeyedPolicy { key, policy })?;
        Ok(GatheredPolicies { keys, policies })
    }

    /// These policies in the order of their keys. Takes a time of n log n.
    pub(crate) fn in_key_order(self, alloc: Global) -> Result<Policies, AllocError>
        ensures { IfOk result (λ p. p ≡ in_key_order self) }
    {
        let GatheredPolicies { keys: _, policies } = self;
        Policies::of(alloc, policies)
    }
}
