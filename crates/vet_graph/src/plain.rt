//! A keeper of the classes of demanded pairs that recomputes every class.
ghost use Rattle.std.specs.Prelude.{◌≡◌, [], IfOk, IfErr, IfSome, IsOk};
ghost use Rattle.vet_entries.specs.Facts.{Facts};
ghost use Rattle.vet_entries.specs.LocalCriteria.{AreLocal};
ghost use Rattle.vet_graph.specs.PackageSteps.{AreStepsOf};
ghost use Rattle.vet_graph.specs.StandingOf.{class_of_pair, standing_of};
ghost use Rattle.vet_graph.specs.Touched.{GiveNothing};

use crate::class::Class;
use crate::keeper::Keeper;
use crate::moves::{Move, differences};
use crate::package_steps::{PackageSteps, found_steps};
use crate::pair_class::class_by;
use crate::standing::{Counts, Stand, add_stands, class_in, counts_of};
use crate::touched::Touched;
use std::alloc::Global;
use std::marker::Model;
use vet_base::name::{Name, PackageName};
use vet_base::refusal::Refusal;
use vet_base::version::VetVersion;
use vet_demand::demand::Demand;
use vet_demand::pair::Pair;
use vet_entries::facts::EntryFacts;
use vet_entries::local_criteria::LocalCriteria;

/// The class of each demanded pair, in the order of the pairs.
#[derive(Drop)]
pub struct PlainKeeper {
    standing: Vec<Stand>,
}

impl Model for PlainKeeper {
    ghost use Rattle.std.specs.Prelude.{List};
    ghost use Rattle.vet_graph.specs.declared.standing.Stand.{Stand};
    ghost use Rattle.vet_graph.specs.Standing.{IsStanding};

    ghost Value = { List Stand };

    ghost view = { λ k. k.standing.items };

    ghost invariant = { λ k. IsStanding k.standing.items };
}

/// A planned change: the standing by other facts or another demand, the moves to it, and the packages that were
/// named as touched.
#[derive(Drop)]
pub struct PlainUpdate {
    standing: Vec<Stand>,
    moves: Vec<Move>,
    touched: Touched,
}

impl Model for PlainUpdate {
    ghost use Rattle.vet_graph.specs.Standing.{IsStanding};
    ghost use Rattle.vet_graph.specs.Encodings.{update_code};
    ghost use Rattle.vet_graph.specs.Plain.{UpdateView};
    ghost use Rattle.vet_graph.specs.contracts.moves.Move as change;
    ghost use Rattle.vet_graph.specs.contracts.standing.Stand as stand;
    ghost use Rattle.vet_graph.specs.contracts.touched.Touched as told;

    ghost Value = { UpdateView };

    ghost coded = { update_code stand.the_row.coded change.the_row.coded told.the_row.coded };

    ghost view = { λ u. record {
      standing = u.standing.items;
      moves = u.moves.items;
      touched = u.touched;
    } };

    ghost invariant = { λ u. IsStanding u.standing.items };
}

impl Keeper for PlainKeeper {
    type Update = PlainUpdate;

    ghost keeping = { record {
      standing = λ k. k;
      keeps = λ k facts demand. k ≡ standing_of facts demand;
      plans = λ k u facts demand. u.standing ≡ standing_of facts demand;
      moves_of = λ u. u.moves;
      touched_of = λ u. u.touched;
    } };

    /// A keeper for an empty demand. Never refused.
    fn empty(alloc: Global) -> Result<PlainKeeper, Refusal>
        ensures standing { IfOk result (λ k. k ≡ []) }
        ensures keeps { IfOk result (λ k. (facts : Facts) → GiveNothing facts → k ≡ standing_of facts []) }
        ensures memory { IfErr result (λ e. e ≡ Refusal.NoMemory) }
        ensures never_refused { IsOk result }
    {
        Ok(PlainKeeper {
            standing: Vec::new(alloc),
        })
    }

    /// Recomputes every class, whatever is touched. Finds the local criteria of each source at most once, and the
    /// steps and the violations of each package once. Searches the steps at most four times for each pair of the
    /// package. Refused: `NoMemory`.
    #[tactic(auto, using(crate::proofs::Standings::standing_in_order))]
    fn plan(
        &mut self,
        alloc: Global,
        touched: &Touched,
        facts: &EntryFacts,
        demand: &Demand,
    ) -> Result<PlainUpdate, Refusal> {
        let standing = stands_of(alloc, facts, demand.pairs())?;
        let moves = differences(alloc, self.standing.as_slice(), standing.as_slice())?;
        Ok(PlainUpdate {
            standing,
            moves,
            touched: touched.clone()?,
        })
    }

    fn moves(update: &PlainUpdate) -> &[Move] {
        update.moves.as_slice()
    }

    fn touched(update: &PlainUpdate) -> &Touched {
        &update.touched
    }

    fn apply(&mut self, update: PlainUpdate) {
        let PlainUpdate {
            standing,
            moves: _,
            touched: _,
        } = update;
        self.standing = standing;
    }

    fn class(
        &self,
        package: &PackageName,
        version: &VetVersion,
        criterion: &Name,
    ) -> Option<Class> {
        class_in(self.standing.as_slice(), package, version, criterion)
    }

    fn stands(&self, alloc: Global) -> Result<Vec<&Stand>, Refusal> {
        let mut stands = Vec::new(alloc);
        add_stands(&mut stands, self.standing.as_slice())?;
        Ok(stands)
    }

    fn counts(&self) -> Counts {
        counts_of(self.standing.as_slice())
    }
}

// Each pair of a demand with its class. The pairs of a package are adjacent, so its steps are found once.
fn stands_of(alloc: Global, facts: &EntryFacts, demand: &[Pair]) -> Result<Vec<Stand>, Refusal>
    ensures ok { IfOk result (λ s. s.items ≡ standing_of facts.now.content demand.now) }
    ensures memory { IfErr result (λ e. e ≡ Refusal.NoMemory) }
{
    let mut local = LocalCriteria::of(alloc, facts)?;
    let mut standing = Vec::new(alloc);
    let mut held: Option<PackageSteps> = None;
    'pairs: for pair in demand {
        let found = package_steps(alloc, held, &pair.package, facts, &mut local)?;
        standing.push(stand_of(alloc, facts, &found, pair)?)?;
        held = Some(found);
    }
    Ok(standing)
}

// The steps of a package, kept from the previous pair if that is of the same package.
fn package_steps(
    alloc: Global,
    held: Option<PackageSteps>,
    package: &PackageName,
    facts: &EntryFacts,
    local: &mut LocalCriteria,
) -> Result<PackageSteps, Refusal>
    requires local { AreLocal facts.now.content local.old }
    requires held { IfSome held (λ h. AreStepsOf facts.now.content h.«package» h) }
    ensures steps { IfOk result (AreStepsOf facts.now.content «package».now) }
    ensures memory { IfErr result (λ e. e ≡ Refusal.NoMemory) }
    ensures local { AreLocal facts.now.content local.new }
{
    if let Some(found) = held {
        if found.package == *package {
            return Ok(found);
        }
    }
    found_steps(alloc, package, facts, local)
}

// A pair with its class, by these steps and violations of its package.
fn stand_of(
    alloc: Global,
    facts: &EntryFacts,
    found: &PackageSteps,
    pair: &Pair,
) -> Result<Stand, Refusal>
    requires { AreStepsOf facts.now.content pair.now.«package» found.now }
    ensures ok { IfOk result (λ s.
        s ≡ record { pair = pair.now; class = class_of_pair facts.now.content pair.now }) }
    ensures memory { IfErr result (λ e. e ≡ Refusal.NoMemory) }
{
    let class = class_by(alloc, facts, found, pair)?;
    Ok(Stand {
        pair: pair.clone()?,
        class,
    })
}
