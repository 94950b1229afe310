//! Whether a table has each criterion that policies name.
ghost use Rattle.std.specs.Prelude.{OnOk};
ghost use Rattle.vet_demand.specs.DemandOf.{PoliciesAreKnown};

use vet_base::criteria_table::CriteriaTable;
use vet_base::refusal::Refusal;
use vet_demand::policies::KeyedPolicy;
use vet_demand::policy_names::least_unknown_of;

/// Whether each criterion that some policies name is in a table. Refused: `UnknownCriterion` with the least of the
/// first policy that names another, and `NoMemory`.
pub fn check_policies(criteria: &CriteriaTable, policies: &[KeyedPolicy]) -> Result<(), Refusal>
    ensures { OnOk result (PoliciesAreKnown criteria.now policies.now) }
{
    'policies: for held in policies {
        if let Some(name) = least_unknown_of(&held.policy, criteria) {
            return Err(Refusal::UnknownCriterion(name.clone()?));
        }
    }
    Ok(())
}
