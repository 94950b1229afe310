//! Keepers of the class of each demanded pair.
//!
//! **The standing of a keeper is the one that chains of steps give to the demand that was applied last, however the
//! keeper finds it.**
//!
//! A change takes two calls. `plan` finds the standing that other facts or another demand would give, and the moves to
//! it. It does everything that can fail, and the standing stays. `apply` makes the planned standing the keeper's.
//! Another way to keep the classes is another implementation of this trait, and callers stay as they are.
ghost use Rattle.std.specs.Prelude.{◌≡◌, [], List, IfOk, IfErr, map};
ghost use Rattle.vet_demand.specs.DemandOf.{HasDemanded};
ghost use Rattle.vet_demand.specs.declared.pair.Pair.{Pair};
ghost use Rattle.vet_entries.specs.Facts.{Facts};
ghost use Rattle.vet_entries.specs.Step.{AreKnown};
ghost use Rattle.vet_graph.specs.Keeping.{Keeping};
ghost use Rattle.vet_graph.specs.Moves.{moves_between};
ghost use Rattle.vet_graph.specs.Standing.{IsStanding, class_in, counts_of};
ghost use Rattle.vet_graph.specs.StandingOf.{standing_of};
ghost use Rattle.vet_graph.specs.Touched.{GiveNothing, SameOutside};

use crate::class::Class;
use crate::moves::Move;
use crate::standing::{Counts, Stand};
use crate::touched::Touched;
use std::alloc::Global;
use vet_base::name::{Name, PackageName};
use vet_base::refusal::Refusal;
use vet_base::version::VetVersion;
use vet_demand::demand::Demand;
use vet_entries::facts::EntryFacts;

/// Keeps the class of each demanded pair.
///
/// An implementer says in the ghost member what its values mean. The clauses of the calls are the contract that it
/// has to prove, and that every caller relies on.
pub trait Keeper: Drop {
    /// A planned change: its moves, and everything that `apply` needs besides the keeper.
    type Update: Drop;

    /// The meaning of the keeper's values and of its updates. A keeper that recomputes every class holds only the
    /// standing. One that remembers more says here which facts and demand this comes from.
    ghost keeping: { Keeping Self Self.Update };

    /// A keeper for an empty demand. It holds the result for any facts that give no steps and condemn no version.
    /// Refused: `NoMemory`.
    fn empty(alloc: Global) -> Result<Self, Refusal>
        ensures standing { IfOk result (λ k. keeping.standing k ≡ []) }
        ensures keeps { IfOk result (λ k. (facts : Facts) → GiveNothing facts → keeping.keeps k facts []) }
        ensures memory { IfErr result (λ e. e ≡ Refusal.NoMemory) };

    /// Plans the standing of a demand by some facts. The criteria of each entry, and each demanded criterion, must be
    /// in the facts' table. The keeper must hold the result for some facts and demand that are the same as these
    /// outside of what is touched. The standing stays, the keeper still holds the result for the same facts and demand,
    /// and updates that were planned before can still be applied, even if this call is refused. Refused: `NoMemory`.
    fn plan(
        &mut self,
        alloc: Global,
        touched: &Touched,
        facts: &EntryFacts,
        demand: &Demand,
    ) -> Result<Self::Update, Refusal>
        requires known { AreKnown facts.now.content }
        requires demanded { HasDemanded facts.now.content.criteria demand.now }
        requires outside { (old_facts : Facts) × (old_demand : List Pair) × keeping.keeps self.old old_facts old_demand
            × SameOutside touched.now old_facts old_demand facts.now.content demand.now }
        ensures plans { IfOk result (λ u. keeping.plans self.new u facts.now.content demand.now) }
        ensures moves { IfOk result (λ u. keeping.moves_of u
            ≡ moves_between (keeping.standing self.old) (standing_of facts.now.content demand.now)) }
        ensures touched { IfOk result (λ u. keeping.touched_of u ≡ touched.now) }
        ensures memory { IfErr result (λ e. e ≡ Refusal.NoMemory) }
        ensures standing { keeping.standing self.new ≡ keeping.standing self.old }
        ensures keeps { (facts : Facts) (demand : List Pair)
            → keeping.keeps self.old facts demand → keeping.keeps self.new facts demand }
        ensures stays_planned { (u : Self.Update) (facts : Facts) (demand : List Pair)
            → keeping.plans self.old u facts demand → keeping.plans self.new u facts demand };

    /// The moves of an update, from the standing on which it was planned: each pair whose class differs, once, in
    /// the order of the pairs. Takes no memory.
    fn moves(update: &Self::Update) -> &[Move]
        ensures { result.now ≡ keeping.moves_of update.now };

    /// The packages that were named as touched when an update was planned. Takes no memory.
    fn touched(update: &Self::Update) -> &Touched
        ensures { result.now ≡ keeping.touched_of update.now };

    /// Makes the standing that of the facts and the demand for which the update was planned. This keeper must have
    /// planned the update in its present state, and must still have the room for it. Takes no memory.
    fn apply(&mut self, update: Self::Update)
        requires { (facts : Facts) × (demand : List Pair) × keeping.plans self.old update facts demand }
        ensures standing { (facts : Facts) (demand : List Pair) → keeping.plans self.old update facts demand
            → keeping.standing self.new ≡ standing_of facts demand }
        ensures keeps { (facts : Facts) (demand : List Pair) → keeping.plans self.old update facts demand
            → keeping.keeps self.new facts demand };

    /// The class of a pair, or `None` if it is not demanded. Takes no memory.
    fn class(&self, package: &PackageName, version: &VetVersion, criterion: &Name) -> Option<Class>
        ensures value { result ≡ class_in (keeping.standing self.now)
            (record { «package» = «package».now; version = version.now; criterion = criterion.now }) }
        ensures in_order { IsStanding (keeping.standing self.now) };

    /// The demanded pairs in their order, each with its class. Refused: `NoMemory`.
    fn stands(&self, alloc: Global) -> Result<Vec<&Stand>, Refusal>
        ensures stands { IfOk result (λ stands. map (λ s. s.now) stands.items ≡ keeping.standing self.now) }
        ensures memory { IfErr result (λ e. e ≡ Refusal.NoMemory) };

    /// The number of demanded pairs in each class. Takes no memory.
    fn counts(&self) -> Counts
        ensures value { result ≡ counts_of (keeping.standing self.now) }
        ensures in_order { IsStanding (keeping.standing self.now) };
}
