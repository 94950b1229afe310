//! A keeper that passes every call on to a plain one. The register runs the examples with it as well: it needs nothing
//! of a keeper but what the trait says.
ghost use Rattle.std.specs.Prelude.{◌≡◌};

use std::alloc::Global;
use vet_base::name::{Name, PackageName};
use vet_base::refusal::Refusal;
use vet_base::version::VetVersion;
use vet_demand::demand::Demand;
use vet_entries::facts::EntryFacts;
use vet_graph::class::Class;
use vet_graph::keeper::Keeper;
use vet_graph::moves::Move;
use vet_graph::plain::{PlainKeeper, PlainUpdate};
use vet_graph::standing::{Counts, Stand};
use vet_graph::touched::Touched;

/// A keeper that passes every call on to a plain one.
#[derive(Drop)]
pub struct RelayKeeper {
    plain: PlainKeeper,
}

/// What the plain keeper planned.
#[derive(Drop)]
pub struct RelayUpdate {
    plain: PlainUpdate,
}

impl Keeper for RelayKeeper {
    ghost use Rattle.vet_graph.specs.StandingOf.{standing_of};

    type Update = RelayUpdate;

    ghost keeping = { record {
      standing = λ k. k.plain;
      keeps = λ k facts demand. k.plain ≡ standing_of facts demand;
      plans = λ k u facts demand. u.plain.standing ≡ standing_of facts demand;
      moves_of = λ u. u.plain.moves;
      touched_of = λ u. u.plain.touched;
    } };

    fn empty(alloc: Global) -> Result<RelayKeeper, Refusal> {
        Ok(RelayKeeper {
            plain: PlainKeeper::empty(alloc)?,
        })
    }

    fn plan(
        &mut self,
        alloc: Global,
        touched: &Touched,
        facts: &EntryFacts,
        demand: &Demand,
    ) -> Result<RelayUpdate, Refusal> {
        let plain = self.plain.plan(alloc, touched, facts, demand)?;
        Ok(RelayUpdate { plain })
    }

    fn moves(update: &RelayUpdate) -> &[Move] {
        PlainKeeper::moves(&update.plain)
    }

    fn touched(update: &RelayUpdate) -> &Touched {
        PlainKeeper::touched(&update.plain)
    }

    fn apply(&mut self, update: RelayUpdate) {
        self.plain.apply(update.plain);
    }

    fn class(
        &self,
        package: &PackageName,
        version: &VetVersion,
        criterion: &Name,
    ) -> Option<Class> {
        self.plain.class(package, version, criterion)
    }

    fn stands(&self, alloc: Global) -> Result<Vec<&Stand>, Refusal> {
        self.plain.stands(alloc)
    }

    fn counts(&self) -> Counts {
        self.plain.counts()
    }
}
