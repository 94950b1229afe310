//! The change that an accepted command makes: its edit, the demand and the standing after it, and its moves.
//!
//! The edit is made, the demand is recomputed if the edit may change it, the keeper plans the standing, and the edit is
//! undone, even if memory ran out.
ghost use Rattle.std.specs.Prelude.{◌≡◌, ℕ, ◌+◌, ◌++◌, ◌≤◌, false, List, None, Ok, Some, IfOk, IfErr, IsTrue, length};
ghost use Rattle.vet_base.specs.Gives.{Gives};
ghost use Rattle.vet_demand.specs.declared.pair.Pair.{Pair};
ghost use Rattle.vet_demand.specs.DemandOf.{PoliciesAreKnown};
ghost use Rattle.vet_entries.specs.Facts.{Facts};
ghost use Rattle.vet_entries.specs.Step.{AreKnown};
ghost use Rattle.vet_graph.specs.Moves.{moves_between};
ghost use Rattle.vet_graph.specs.Touched.{SameOutside};
ghost use Rattle.vet_register.specs.Changes.{FitsMoves, demand_by, first_by, moves_by};
ghost use Rattle.vet_register.specs.Held.{Fits, content_of, demand_in, edited, standing_in};
ghost use Rattle.vet_register.specs.Machine.{ends_period, first_after, moves_after, moves_of, number_after};
ghost use Rattle.vet_register.specs.Machine.{number_given, outcome_of, records_of};
ghost use Rattle.vet_register.specs.RegisterView.{KeepsReady, KeepsRoom, held_room};
ghost use Rattle.vet_register.specs.Sound.{IsSoundHeld};
ghost use Rattle.vet_register.specs.State.{demanded, standing};
ghost use Rattle.vet_register.specs.Touches.{touched_with};
ghost use Rattle.vet_register.specs.Verdict.{moves_fit, step_limit};
ghost use Rattle.vet_register.specs.declared.command.Outcome.TheVariants as outcome;

use crate::change::{Change, DeskEdit};
use crate::command::{Command, Outcome};
use crate::held::{Held, HeldEdit, held_edits_fit_with_more_room};
use crate::moves::{RecordedMove, Recording, record};
use crate::register::Register;
use crate::touching::{Touching, touched_between};
use std::alloc::Global;
use vet_base::refusal::Refusal;
use vet_demand::demand::Demand;
use vet_demand::demand_of::demand;
use vet_demand::laws::demanded_are_known;
use vet_graph::keeper::Keeper;
use vet_graph::moves::Move;
use vet_graph::touched::Touched;

// The demand, unless the edit keeps it, and the update of the standing that goes with it.
#[derive(Drop)]
struct Found<K: Keeper> {
    demand: Option<Demand>,
    update: K::Update,
}

/// An edit of what is held, the demand after it, unless the edit keeps it, and the update of the standing that goes
/// with both.
pub(crate) struct Planned<K: Keeper> {
    edit: HeldEdit,
    demand: Option<Demand>,
    update: K::Update,
}

impl<K: Keeper> Drop for Planned<K> {
    fn drop(self) {
        let Planned {
            edit: _,
            demand: _,
            update: _,
        } = self;
    }
}

impl<K: Keeper> Planned<K> {
    // The change of this step, with this next number, and with this number in its outcome.
    fn changed(
        self,
        step: u64,
        number: Option<u64>,
        next_entry: u64,
        desk: Option<DeskEdit>,
        recording: Recording,
    ) -> Change<K>
        ensures { result ≡ record {
          edit = self.edit;
          desk = desk;
          demand = self.demand;
          update = self.update;
          recording = recording;
          step = step;
          next_entry = next_entry;
          outcome = outcome.Done step number (length (K.keeping.moves_of self.update));
        } }
    {
        let moves = K::moves(&self.update).len() as u64;
        let Planned {
            edit,
            demand,
            update,
        } = self;
        Change {
            edit,
            desk,
            demand,
            update,
            recording,
            step,
            next_entry,
            outcome: Outcome::Done {
                step,
                number,
                moves,
            },
        }
    }
}

impl<K: Keeper> Register<K> {
    /// Plans the demand and the standing after an edit that touches these packages. Everything that is held stays as it
    /// is. Refused: `NoMemory`.
    pub(crate) fn plan(
        &mut self,
        alloc: Global,
        touching: Touching,
        edit: HeldEdit,
    ) -> Result<Planned<K>, Refusal>
        requires fits { Fits edit (held_room self.old) }
        requires sound { (next : ℕ) × IsSoundHeld (edited edit self.old.state.held) next }
        requires outside { SameOutside
            (touched_with touching (demanded self.old.state) (demand_in (edited edit self.old.state.held)))
            self.old.state.held.facts (demanded self.old.state)
            (edited edit self.old.state.held).facts (demand_in (edited edit self.old.state.held)) }
        ensures edit { IfOk result (λ p.
            edited p.edit self.old.state.held ≡ edited edit self.old.state.held) }
        ensures fits { IfOk result (λ p. Fits p.edit (held_room self.new)) }
        ensures demand { IfOk result (λ p. demand_by p.demand (demanded self.old.state)
            ≡ demand_in (edited edit self.old.state.held)) }
        ensures plans { IfOk result (λ p. K.keeping.plans self.new.keeper p.update
            (edited edit self.old.state.held).facts (demand_in (edited edit self.old.state.held))) }
        ensures moves { IfOk result (λ p. K.keeping.moves_of p.update
            ≡ moves_between (standing self.old.state) (standing_in (edited edit self.old.state.held))) }
        ensures touched { IfOk result (λ p. K.keeping.touched_of p.update
            ≡ touched_with touching (demanded self.old.state) (demand_in (edited edit self.old.state.held))) }
        ensures memory { IfErr result (λ e. e ≡ Refusal.NoMemory) }
        ensures state { self.new.state ≡ self.old.state }
        ensures room_stays { KeepsRoom self.old self.new }
        ensures ready_stays { KeepsReady K.keeping self.old self.new }
    {
        held_edits_fit_with_more_room();
        let keeps = edit.keeps_demand();
        let back = self.held.apply(edit);
        let found = find_standing(
            alloc,
            touching,
            &self.held,
            &self.demand,
            keeps,
            &mut self.keeper,
        );
        let edit = self.held.apply(back);
        let Found { demand, update } = found?;
        Ok(Planned {
            edit,
            demand,
            update,
        })
    }

    /// The change that an accepted command makes; takes room for its moves. Refused: `MovesFull` if the moves do not
    /// fit; `NoMemory`.
    pub(crate) fn change(
        &mut self,
        alloc: Global,
        command: &Command,
        number: Option<u64>,
        next_entry: u64,
        desk: Option<DeskEdit>,
        planned: Planned<K>,
    ) -> Result<Change<K>, Refusal>
        requires step { step_limit self.old.state ≡ Ok tt }
        requires number { number ≡ number_given self.old.state command.now.action }
        requires next_entry { next_entry ≡ number_after self.old.state command.now.action }
        requires moves { K.keeping.moves_of planned.update
            ≡ moves_of self.old.state command.now.day command.now.action }
        ensures told { Gives (λ c. tt) (moves_fit self.old.state command.now.day command.now.action) result }
        ensures edit { IfOk result (λ c. c.edit ≡ planned.edit) }
        ensures desk { IfOk result (λ c. c.desk ≡ desk) }
        ensures demand { IfOk result (λ c. c.demand ≡ planned.demand) }
        ensures update { IfOk result (λ c. c.update ≡ planned.update) }
        ensures moves { IfOk result (λ c. moves_by c.recording self.old.state.moves
            ≡ moves_after self.old.state command.now) }
        ensures first { IfOk result (λ c. first_by c.recording self.old.state.first
            ≡ first_after self.old.state command.now.action) }
        ensures room { IfOk result (λ c. FitsMoves c.recording self.new.room.moves) }
        ensures step { IfOk result (λ c. c.step ≡ self.old.state.step + 1) }
        ensures next_entry { IfOk result (λ c. c.next_entry ≡ number_after self.old.state command.now.action) }
        ensures outcome { IfOk result (λ c. c.outcome ≡ outcome_of self.old.state command.now) }
        ensures state { self.new.state ≡ self.old.state }
        ensures keeper { self.new.keeper ≡ self.old.keeper }
        ensures held_room { self.new.room.held ≡ self.old.room.held }
        ensures room_stays { KeepsRoom self.old self.new }
    {
        let recording = self.recording(alloc, command, K::moves(&planned.update))?;
        let step = self.step + 1;
        Ok(planned.changed(step, number, next_entry, desk, recording))
    }

    // The change of the recorded moves: a command's moves come after them, and there is room for these. If it ends the
    // period, none stays, and the present counts become the first counts.
    fn recording(
        &mut self,
        alloc: Global,
        command: &Command,
        moves: &[Move],
    ) -> Result<Recording, Refusal>
        requires step { step_limit self.old.state ≡ Ok tt }
        requires moves { moves.now ≡ moves_of self.old.state command.now.day command.now.action }
        ensures told { Gives (λ r. tt) (moves_fit self.old.state command.now.day command.now.action) result }
        ensures moves { IfOk result (λ r. moves_by r self.old.state.moves ≡ moves_after self.old.state command.now) }
        ensures first { IfOk result (λ r. first_by r self.old.state.first
            ≡ first_after self.old.state command.now.action) }
        ensures room { IfOk result (λ r. FitsMoves r self.new.room.moves) }
        ensures state { self.new.state ≡ self.old.state }
        ensures keeper { self.new.keeper ≡ self.old.keeper }
        ensures held_room { self.new.room.held ≡ self.old.room.held }
        ensures room_stays { KeepsRoom self.old self.new }
    {
        if command.action.ends_period() {
            return Ok(Recording::Anew(self.keeper.counts()));
        }
        let records = self.records(alloc, command, moves)?;
        Ok(Recording::Behind(records))
    }

    // The records of a command's moves, and room for them.
    fn records(
        &mut self,
        alloc: Global,
        command: &Command,
        moves: &[Move],
    ) -> Result<Vec<RecordedMove>, Refusal>
        requires step { step_limit self.old.state ≡ Ok tt }
        requires stays { ends_period command.now.action ≡ false }
        requires moves { moves.now ≡ moves_of self.old.state command.now.day command.now.action }
        ensures told { Gives (λ r. tt) (moves_fit self.old.state command.now.day command.now.action) result }
        ensures records { IfOk result (λ r. r.items ≡ records_of self.old.state command.now) }
        ensures room { IfOk result (λ r. length r.items ≤ self.new.room.moves) }
        ensures state { self.new.state ≡ self.old.state }
        ensures keeper { self.new.keeper ≡ self.old.keeper }
        ensures held_room { self.new.room.held ≡ self.old.room.held }
        ensures room_stays { KeepsRoom self.old self.new }
    {
        if self.moves.len() + moves.len() > self.moves_limit {
            return Err(Refusal::MovesFull);
        }
        let records = record(alloc, self.step + 1, command.day, moves)?;
        self.moves.reserve(records.len())?;
        Ok(records)
    }
}

// The demand of what is held, unless it is kept, and the update of the standing by both.
fn find_standing<K: Keeper>(
    alloc: Global,
    touching: Touching,
    held: &Held,
    before: &Demand,
    keeps: bool,
    keeper: &mut K,
) -> Result<Found<K>, Refusal>
    requires known { AreKnown held.now.facts.content }
    requires policies { PoliciesAreKnown held.now.facts.content.criteria held.now.policies.items }
    requires kept { IsTrue keeps → before.now ≡ demand_in (content_of held.now) }
    requires outside { (old_facts : Facts) × (old_demand : List Pair) × K.keeping.keeps keeper.old old_facts old_demand
        × SameOutside (touched_with touching before.now (demand_in (content_of held.now))) old_facts old_demand
        held.now.facts.content (demand_in (content_of held.now)) }
    ensures demand { IfOk result (λ s. demand_by s.demand before.now ≡ demand_in (content_of held.now)) }
    ensures plans { IfOk result (λ s. K.keeping.plans keeper.new s.update
        held.now.facts.content (demand_in (content_of held.now))) }
    ensures moves { IfOk result (λ s. K.keeping.moves_of s.update
        ≡ moves_between (K.keeping.standing keeper.old) (standing_in (content_of held.now))) }
    ensures touched { IfOk result (λ s. K.keeping.touched_of s.update
        ≡ touched_with touching before.now (demand_in (content_of held.now))) }
    ensures memory { IfErr result (λ e. e ≡ Refusal.NoMemory) }
    ensures standing { K.keeping.standing keeper.new ≡ K.keeping.standing keeper.old }
    ensures keeps { (facts : Facts) (demand : List Pair)
        → K.keeping.keeps keeper.old facts demand → K.keeping.keeps keeper.new facts demand }
    ensures stays_planned { (u : K.Update) (facts : Facts) (demand : List Pair)
        → K.keeping.plans keeper.old u facts demand → K.keeping.plans keeper.new u facts demand }
{
    demanded_are_known();
    if keeps {
        let touched = touched_by(alloc, touching, before, before)?;
        let update = keeper.plan(alloc, &touched, &held.facts, before)?;
        return Ok(Found {
            demand: None,
            update,
        });
    }
    let found = demand(
        alloc,
        held.projects.items(),
        &held.policies,
        held.facts.criteria(),
    )?;
    let touched = touched_by(alloc, touching, before, &found)?;
    let update = keeper.plan(alloc, &touched, &held.facts, &found)?;
    Ok(Found {
        demand: Some(found),
        update,
    })
}

// The packages that are touched, given the demand before the edit and after it.
fn touched_by(
    alloc: Global,
    touching: Touching,
    before: &Demand,
    after: &Demand,
) -> Result<Touched, Refusal>
    ensures ok { IfOk result (λ t. t ≡ touched_with touching before.now after.now) }
    ensures memory { IfErr result (λ e. e ≡ Refusal.NoMemory) }
{
    match touching {
        Touching::Known(touched) => Ok(touched),
        Touching::ByDemand => touched_between(alloc, before.pairs(), after.pairs()),
    }
}
