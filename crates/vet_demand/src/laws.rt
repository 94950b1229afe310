//! Laws about projects, policies and demands.
//!
//! **No other list of pairs is the least demand, and no numbering of nodes changes what a table states.**
ghost use Rattle.std.specs.Prelude.{◌≡◌, ◌∷◌, ℕ, List, Ok};
ghost use Rattle.vet_demand.specs.DemandOf.{DemandIsLeast, DemandedAreKnown, LeastDemandIsOnly, NothingIsDemanded};
ghost use Rattle.vet_demand.specs.DependencyCriteria.{OtherCriteriaStay, SetCriteriaAreFound};
ghost use Rattle.vet_demand.specs.DependencyTable.{project_of_bytes, project_told};
ghost use Rattle.vet_demand.specs.Needs.{NeedsAreLeast};
ghost use Rattle.vet_demand.specs.Numbering.{AreRenumbered};
ghost use Rattle.vet_demand.specs.Policies.{OtherPoliciesStay, SetPolicyIsFound};
ghost use Rattle.vet_demand.specs.PolicyNames.{KnownByFewerCriteria, KnownByMoreCriteria, KnownWithSet};
ghost use Rattle.vet_demand.specs.PolicyNames.{KnownWithoutDropped};
ghost use Rattle.vet_demand.specs.Project.{ProjectValue};
ghost use Rattle.vet_demand.specs.TableByExample.{example_project, example_table, other_table};
ghost use Rattle.vet_demand.specs.WrittenProject.{written_text};

/// `is_needed` says that a node needs a criterion exactly if the least needs have it there. Does nothing.
pub fn needs_are_least()
    ensures { NeedsAreLeast }
{}

/// `demand_of` is the least demand, in the order of reports, and no other list is. Does nothing.
pub fn demand_is_least()
    ensures least { DemandIsLeast }
    ensures only { LeastDemandIsOnly }
{}

/// Each demanded criterion is in the table. Does nothing.
pub fn demanded_are_known()
    ensures { DemandedAreKnown }
{}

/// If there are no projects, nothing is demanded. Does nothing.
pub fn nothing_is_demanded()
    ensures { NothingIsDemanded }
{}

/// A policy that is set is found at its key, and every other key keeps its policy. Does nothing.
pub fn set_policy_is_found()
    ensures own { SetPolicyIsFound }
    ensures others { OtherPoliciesStay }
{}

/// Criteria that are set are found at their name, and every other name keeps its criteria. Does nothing.
pub fn set_criteria_are_found()
    ensures own { SetCriteriaAreFound }
    ensures others { OtherCriteriaStay }
{}

/// Policies that name only criteria of a table still do if a policy that does so is set, if one is dropped, if a
/// criterion is set, and if a criterion that none of them names is removed. Does nothing.
pub fn policies_stay_known()
    ensures set { KnownWithSet }
    ensures dropped { KnownWithoutDropped }
    ensures more_criteria { KnownByMoreCriteria }
    ensures fewer_criteria { KnownByFewerCriteria }
{}

/// **Tables that differ only in the numbering of their nodes state the same project.** Suppose that two lists of
/// records have one header, and that the second states the nodes and edges of the first by other numbers, in any order.
/// If the first states a project, the second states the same one. Does nothing.
pub fn numbering_is_free()
    ensures { (rename : ℕ → ℕ) (header : List (List ℕ)) (rows others : List (List (List ℕ))) (p : ProjectValue)
        → AreRenumbered rename rows others → project_told (header ∷ rows) ≡ Ok p
        → project_told (header ∷ others) ≡ Ok p }
{}

/// A project with the text that is written for it, and with texts that are read as it, by example. Does nothing.
pub fn table_by_example()
    ensures written { written_text example_project ≡ example_table }
    ensures read { project_of_bytes example_table ≡ Ok example_project }
    ensures other { project_of_bytes other_table ≡ Ok example_project }
{}
