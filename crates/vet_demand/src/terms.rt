//! The terms of a demand: policies, and the criteria of a table with those that each implies.
ghost use Rattle.std.specs.Prelude.{◌≡◌, true, IfOk, IfErr};
ghost use Rattle.vet_base.specs.Name.{is_name};
ghost use Rattle.vet_demand.specs.Passed.{only};
ghost use Rattle.vet_demand.specs.Terms.{AreTerms, closed_places};

use crate::policies::KeyedPolicy;
use std::alloc::Global;
use vet_base::closures::Closures;
use vet_base::criteria_set::CriteriaSet;
use vet_base::criteria_table::CriteriaTable;
use vet_base::keyed::Keyed;
use vet_base::name::Name;
use vet_base::names::Names;
use vet_base::refusal::Refusal;

/// Policies and a table, with values that are computed from them once and looked up many times.
#[derive(Drop)]
pub(crate) struct Terms<'t> {
    pub(crate) policies: &'t Keyed<KeyedPolicy>,
    pub(crate) criteria: &'t CriteriaTable,
    /// The names of the table.
    pub(crate) names: &'t [Name],
    closures: Closures,
    /// `safe-to-deploy` and what it implies.
    pub(crate) deploy: CriteriaSet,
    /// `safe-to-run` and what it implies.
    pub(crate) run: CriteriaSet,
}

impl<'t> Terms<'t> {
    /// The terms of these policies and this table. Refused: `NoMemory`.
    pub(crate) fn of(
        alloc: Global,
        policies: &'t Keyed<KeyedPolicy>,
        criteria: &'t CriteriaTable,
    ) -> Result<Terms<'t>, Refusal>
        ensures terms { IfOk result AreTerms }
        ensures policies { IfOk result (λ t. t.policies.now ≡ policies.now) }
        ensures criteria { IfOk result (λ t. t.criteria.now ≡ criteria.now) }
        ensures memory { IfErr result (λ e. e ≡ Refusal.NoMemory) }
    {
        let deploy = only(alloc, "safe-to-deploy")?;
        let run = only(alloc, "safe-to-run")?;
        let names = criteria.names();
        let closures = criteria.closures();
        let deploy = closures.close(&criteria.set_of(&deploy));
        let run = closures.close(&criteria.set_of(&run));
        Ok(Terms {
            policies,
            criteria,
            names,
            closures,
            deploy,
            run,
        })
    }

    /// The closure of some criteria.
    pub(crate) fn closed(&self, names: &Names) -> CriteriaSet
        requires { AreTerms self.now }
        ensures { result ≡ closed_places self.now.criteria.now names.now }
    {
        self.closures.close(&self.criteria.set_of(names))
    }
}

// The set of one name.
fn only(alloc: Global, name: &str) -> Result<Names, Refusal>
    requires { is_name name.now ≡ true }
    ensures ok { IfOk result (λ names. names ≡ only name.now) }
    ensures memory { IfErr result (λ e. e ≡ Refusal.NoMemory) }
{
    let mut names = Names::new(alloc);
    names.insert(Name::parse(alloc, name)?)?;
    Ok(names)
}
