//! A register that is made from a state.
//!
//! **A sound state gives the register of that state, and one that isn't sound is refused.**
//!
//! Everything that the types of the parts don't say is checked first, in an order in which each check may rely on those
//! before it: what is held (`sound_held`, and by source `sound_entries`, `sound_peers`, `sound_numbers`), the desk, and
//! the moves (`sound_moves`). Then the demand is found and the keeper plans the standing, as for a command that is
//! prepared. Last, the counts are compared with the standing. No entry is copied: the parts become the register's.
ghost use Rattle.std.specs.Prelude.{◌≡◌, ◌↔◌, IfErr, IfOk, IsTrue};
ghost use Rattle.vet_demand.specs.DemandOf.{HasDemanded};
ghost use Rattle.vet_entries.specs.Step.{AreKnown};
ghost use Rattle.vet_graph.specs.StandingOf.{standing_of};
ghost use Rattle.vet_register.specs.Checks.{Checks, Faults};
ghost use Rattle.vet_register.specs.RegisterView.{HasKept};
ghost use Rattle.vet_register.specs.Restored.{AreLimits, IsSoundButCounts};
ghost use Rattle.vet_register.specs.Sound.{IsSound, IsSoundHeld};
ghost use Rattle.vet_register.specs.SoundMoves.{AreBalanced};
ghost use Rattle.vet_register.specs.State.{changes_of, demanded};

use crate::register::Register;
use crate::sound_held::{check_desk, check_facts, check_policies, check_projects};
use crate::sound_moves::{are_balanced, check_moves};
use crate::state::State;
use std::alloc::Global;
use vet_base::limits::{LAST_NUMBER, LAST_STEP, MOST_MOVES};
use vet_base::refusal::Refusal;
use vet_demand::demand::Demand;
use vet_demand::demand_of::demand;
use vet_demand::laws::demanded_are_known;
use vet_entries::facts::EntryFacts;
use vet_graph::keeper::Keeper;
use vet_graph::laws::nothing_vets_nothing;
use vet_graph::standing::Counts;
use vet_graph::touched::Touched;

impl<K: Keeper> Register<K> {
    /// The register of a state. Takes its parts over, and copies no entry. Refused: `NotARegister` if the state isn't
    /// sound; `NoMemory`.
    pub fn restore(alloc: Global, state: State) -> Result<Register<K>, Refusal>
        ensures ok { IfOk result (λ r. r.state ≡ state) }
        ensures refused { IfErr result (Faults (IsSound state)) }
    {
        state.check(alloc)?;
        let demand = state.demand(alloc)?;
        let keeper: K = state.keeper(alloc, &demand)?;
        if !state.leads_to(keeper.counts()) {
            return Err(Refusal::NotARegister);
        }
        Ok(state.into_register(demand, keeper))
    }
}

impl State {
    // Whether the state is sound, except for its counts, which are not checked.
    fn check(&self, alloc: Global) -> Result<(), Refusal>
        ensures { Checks (IsSoundButCounts self.now) result }
    {
        self.check_limits()?;
        self.check_held(alloc)?;
        check_desk(self.facts.criteria(), &self.desk, self.next_entry)?;
        check_moves(self.moves.as_slice(), self.step, self.moves_limit)
    }

    // Whether all that is held is sound.
    fn check_held(&self, alloc: Global) -> Result<(), Refusal>
        ensures { Checks (IsSoundHeld self.now.held self.now.next_entry) result }
    {
        check_facts(alloc, &self.facts, self.next_entry)?;
        check_policies(self.facts.criteria(), &self.policies)?;
        check_projects(&self.projects)
    }

    // Whether numbers are within their limits.
    fn check_limits(&self) -> Result<(), Refusal>
        ensures { Checks (AreLimits self.now) result }
    {
        if self.next_entry > LAST_NUMBER + 1 {
            return Err(Refusal::NotARegister);
        }
        if self.step > LAST_STEP {
            return Err(Refusal::NotARegister);
        }
        if self.moves_limit == 0 || self.moves_limit > MOST_MOVES {
            return Err(Refusal::NotARegister);
        }
        Ok(())
    }

    // The demand of the projects.
    fn demand(&self, alloc: Global) -> Result<Demand, Refusal>
        requires { IsSoundButCounts self.now }
        ensures value { IfOk result (λ d. d ≡ demanded self.now) }
        ensures memory { IfErr result (λ e. e ≡ Refusal.NoMemory) }
    {
        demand(
            alloc,
            self.projects.items(),
            &self.policies,
            self.facts.criteria(),
        )
    }

    // A keeper of the standing.
    fn keeper<K: Keeper>(&self, alloc: Global, demand: &Demand) -> Result<K, Refusal>
        requires sound { IsSoundButCounts self.now }
        requires demand { demand.now ≡ demanded self.now }
        ensures kept { IfOk result (λ k. HasKept K.keeping k demand.now self.now.held) }
        ensures memory { IfErr result (λ e. e ≡ Refusal.NoMemory) }
    {
        demanded_are_known();
        keeper_of(alloc, &self.facts, demand)
    }

    // Whether the moves lead from the first counts to these.
    fn leads_to(&self, counts: Counts) -> bool
        ensures { IsTrue result ↔ AreBalanced self.now.first counts (changes_of self.now.moves) }
    {
        are_balanced(self.first, counts, self.moves.as_slice())
    }
}

// A keeper of the standing that some facts give a demand.
fn keeper_of<K: Keeper>(alloc: Global, facts: &EntryFacts, demand: &Demand) -> Result<K, Refusal>
    requires known { AreKnown facts.now.content }
    requires demanded { HasDemanded facts.now.content.criteria demand.now }
    ensures standing { IfOk result (λ k. K.keeping.standing k ≡ standing_of facts.now.content demand.now) }
    ensures keeps { IfOk result (λ k. K.keeping.keeps k facts.now.content demand.now) }
    ensures memory { IfErr result (λ e. e ≡ Refusal.NoMemory) }
{
    nothing_vets_nothing();
    let mut keeper = K::empty(alloc)?;
    let update = keeper.plan(alloc, &Touched::All, facts, demand)?;
    keeper.apply(update);
    Ok(keeper)
}
