//! Policies, projects and pairs can be held.
ghost use Rattle.vet_item_rows.specs.HeldValues.{IsDependency, IsKeyedPolicy, IsNamedProject, IsNode, IsPair, IsPolicy};

use crate::held_register::can_be_held::{CanBeHeld, are_held};
use vet_demand::dependency_criteria::DependencyItem;
use vet_demand::pair::Pair;
use vet_demand::policies::KeyedPolicy;
use vet_demand::policy::Policy;
use vet_demand::policy_key::key_text_reads_back;
use vet_demand::project::{NamedProject, Node};

impl CanBeHeld for DependencyItem {
    ghost can_be_held = { IsDependency };

    fn is_held(&self) {
        self.package.is_held();
        self.criteria.is_held();
    }
}

impl CanBeHeld for Policy {
    ghost can_be_held = { IsPolicy };

    fn is_held(&self) {
        self.criteria.is_held();
        self.dev_criteria.is_held();
        are_held(self.dependency_criteria.items());
        self.notes.is_held();
    }
}

impl CanBeHeld for KeyedPolicy {
    ghost can_be_held = { IsKeyedPolicy };

    fn is_held(&self) {
        key_text_reads_back(&self.key);
        self.policy.is_held();
    }
}

impl CanBeHeld for Node {
    ghost can_be_held = { IsNode };

    fn is_held(&self) {
        self.package.is_held();
        self.version.is_held();
    }
}

impl CanBeHeld for NamedProject {
    ghost can_be_held = { IsNamedProject };

    fn is_held(&self) {
        self.name.is_held();
        are_held(self.project.nodes());
    }
}

impl CanBeHeld for Pair {
    ghost can_be_held = { IsPair };

    fn is_held(&self) {
        self.package.is_held();
        self.version.is_held();
        self.criterion.is_held();
    }
}
