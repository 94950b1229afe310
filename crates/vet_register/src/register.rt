//! The machine that keeps the accepted commands.
//!
//! **A demanded pair is in the class that chains of entries give it and in no other, and each class has the pairs that
//! it had when the period began, with those that came since and without those that left.**
//!
//! A command takes two calls, so that a caller can save its changes in between. `prepare` does all that can fail: it
//! judges the command (`verdict`), makes its edit (`edits`), has the keeper plan the standing after it, and takes room
//! for all that will be added. The state stays as it is. `install` makes the change, takes no memory and can't fail. A
//! change that isn't installed is dropped. A command to the review desk takes the same two calls (`at_desk`).
//!
//! The plan (`plan`) makes the edit, finds the demand, asks the keeper, and undoes the edit, even if memory ran out. So
//! what is held is never copied, and the edit that undoing returns is the one that `install` makes. The effect of a
//! change on a state is one equation (`changed`). It is proved to be the machine's step, to a sound state, if the
//! change is prepared. `install` does what the equation says, in the same way for all commands.
//!
//! The parts of `prepare`, in their order, and where each takes memory:
//! - The verdict (`verdict`; for files `files_verdict`, for the desk `at_desk`, for SetDay `today`): held already,
//!   limits, references, rules. It takes memory for the name of an unknown criterion, and more to compare an import or
//!   files, and to make the entry of a finished review.
//! - The edit (`edits`, `at_desk`, `today`): copies of what is set or added, room for it, and the names of the packages
//!   that are touched (`touching`). Commands that drop a policy or a project take none here, nor does ClosePeriod.
//! - The plan (`plan`): the demand after the edit, the standing by it, and the moves to that. The demand is recomputed
//!   between an edit and its undo, unless the edit keeps it (`keeps_demand`).
//! - The change (`plan`): whether the moves fit, copies of the moves to record, and room for them.
//!
//! If memory runs out in any part, the refusal is `NoMemory` and the state is as it was. `install` asks that this
//! register prepared the change, on this state, and still has the room. If another command is prepared in between, that
//! changes no state, and loses no room (`KeepsRoom`) and no planned update (`KeepsReady`). So what was prepared stays
//! prepared (`KeepsPrepared`), and can be installed afterwards.
ghost use Rattle.std.specs.Prelude.{◌≡◌, ◌<◌, ◌≤◌, Ok, IfOk, IfErr, OnErr, length, map};
ghost use Rattle.vet_base.specs.Gives.{Gives};
ghost use Rattle.vet_graph.specs.Standing.{class_in, counts_of, total_of};
ghost use Rattle.vet_graph.specs.StandingOf.{StandsAt};
ghost use Rattle.vet_register.specs.Changes.{demand_by, desk_edited};
ghost use Rattle.vet_register.specs.Flow.{arrivals, departures};
ghost use Rattle.vet_register.specs.Machine.{CommandValue, next};
ghost use Rattle.vet_register.specs.RegisterView.{HoldsDesk, IsAnswer, IsExact, IsPrepared, KeepsPrepared, KeepsReady};
ghost use Rattle.vet_register.specs.RegisterView.{KeepsRoom, answer_of};
ghost use Rattle.vet_register.specs.Runs.{AreTurns, IsTurn};
ghost use Rattle.vet_register.specs.Sound.{IsSound};
ghost use Rattle.vet_register.specs.State.{changes_of, demanded, standing, start};
ghost use Rattle.vet_register.specs.Verdict.{judged, verdict, wants_memory};

use crate::change::{Change, DeskEdit, Prepared};
use crate::command::{Command, Outcome};
use crate::edits::{Asked, Effect};
use crate::flow::{arrivals, arrivals_after, departures};
use crate::held::{Held, held_edits_fit_with_more_room};
use crate::moves::{RecordedMove, make_recording};
use crate::tool_settings::ToolSettings;
use std::alloc::Global;
use std::marker::Model;
use vet_base::criteria_table::CriteriaTable;
use vet_base::limits::MOST_MOVES;
use vet_base::name::{Name, PackageName};
use vet_base::refusal::Refusal;
use vet_base::version::VetVersion;
use vet_demand::demand::Demand;
use vet_demand::laws::{demand_is_least, nothing_is_demanded};
use vet_demand::pair::Pair;
use vet_demand::policies::KeyedPolicy;
use vet_demand::project::NamedProject;
use vet_desk::desk::Desk;
use vet_entries::facts::{EntryFacts, HeldEntry};
use vet_entries::held_peer::HeldPeer;
use vet_entries::publisher_records::PackagePublishers;
use vet_graph::class::Class;
use vet_graph::keeper::Keeper;
use vet_graph::laws::{
    classes_add_up, each_pair_has_its_class, moves_are_differences, moves_balance,
    nothing_vets_nothing, runs_of_moves_add,
};
use vet_graph::standing::{Counts, Stand};

/// The facts that an organisation holds, the class of each demanded pair, and how these came about. A keeper keeps the
/// classes; the choice of the keeper changes no answer.
pub struct Register<K: Keeper> {
    pub(crate) held: Held,
    pub(crate) desk: Desk,
    pub(crate) demand: Demand,
    pub(crate) keeper: K,
    pub(crate) step: u64,
    pub(crate) next_entry: u64,
    pub(crate) moves_limit: usize,
    pub(crate) first: Counts,
    pub(crate) moves: Vec<RecordedMove>,
    // the arrivals of the recorded moves
    pub(crate) arrived: Counts,
}

impl<K: Keeper> Model for Register<K> {
    ghost use Rattle.std.specs.Prelude.{◌≡◌, ◌-◌, vec_len, vec_capacity};
    ghost use Rattle.vet_register.specs.Held.{content_of, room_of};
    ghost use Rattle.vet_register.specs.Encodings.{register_code};
    ghost use Rattle.vet_register.specs.Flow.{arrivals};
    ghost use Rattle.vet_register.specs.State.{changes_of};
    ghost use Rattle.vet_register.specs.RegisterView.{HasKept, RegisterView};
    ghost use Rattle.vet_register.specs.Sound.{IsSound};
    ghost use Rattle.vet_entries.specs.FactsEncodings.{facts_room_code};
    ghost use Rattle.vet_entries.specs.contracts.facts.HeldEntry as entry;
    ghost use Rattle.vet_entries.specs.contracts.held_peer.HeldPeer as peer;
    ghost use Rattle.vet_entries.specs.contracts.publisher_records.PackagePublishers as listed;
    ghost use Rattle.vet_demand.specs.contracts.policies.KeyedPolicy as policy;
    ghost use Rattle.vet_demand.specs.contracts.project.NamedProject as project;
    ghost use Rattle.vet_desk.specs.Encodings.{desk_code};
    ghost use Rattle.vet_desk.specs.contracts.review.Review as review;
    ghost use Rattle.vet_graph.specs.contracts.standing.Counts as counts;
    ghost use Rattle.vet_register.specs.contracts.tool_settings.ToolSettings as settings;
    ghost use Rattle.vet_register.specs.contracts.moves.RecordedMove as recorded;

    ghost Value = { RegisterView K };

    ghost coded = { register_code K.code
        (facts_room_code entry.the_row.coded peer.the_row.coded listed.the_row.coded)
        policy.the_row.coded project.the_row.coded settings.the_row.coded (desk_code review.the_row.coded)
        counts.the_row.coded recorded.the_row.coded };

    ghost view = { λ r. record {
      state = record {
        held = content_of r.held;
        desk = r.desk.content;
        step = r.step;
        next_entry = r.next_entry;
        moves_limit = r.moves_limit;
        first = r.first;
        moves = r.moves.items;
      };
      keeper = r.keeper;
      room = record {
        held = room_of r.held;
        desk = r.desk.room;
        moves = vec_capacity r.moves - vec_len r.moves;
      };
    } };

    ghost invariant = { λ r.
        (HasKept K.keeping r.keeper r.demand (content_of r.held) × (r.arrived ≡ arrivals (changes_of r.moves.items)))
        × IsSound (record {
          held = content_of r.held;
          desk = r.desk.content;
          step = r.step;
          next_entry = r.next_entry;
          moves_limit = r.moves_limit;
          first = r.first;
          moves = r.moves.items;
        }) };
}

impl<K: Keeper> Drop for Register<K> {
    fn drop(self) {
        let Register {
            held: _,
            desk: _,
            demand: _,
            keeper: _,
            step: _,
            next_entry: _,
            moves_limit: _,
            first: _,
            moves: _,
            arrived: _,
        } = self;
    }
}

impl<K: Keeper> Register<K> {
    /// A register that holds only the built-in criteria, with an empty desk. Nothing is demanded, and the first counts
    /// are zeros. Asks for a limit of 1 to 1,000,000 moves. Refused: `NoMemory`.
    pub fn new(alloc: Global, moves_limit: usize) -> Result<Register<K>, Refusal>
        requires { (0 < moves_limit) × (moves_limit ≤ MOST_MOVES) }
        ensures start { IfOk result (λ r. r.state ≡ start moves_limit) }
        ensures memory { IfErr result (λ e. e ≡ Refusal.NoMemory) }
    {
        nothing_is_demanded();
        nothing_vets_nothing();
        let held = Held::new(alloc)?;
        let keeper = K::empty(alloc)?;
        let moves = Vec::new(alloc);
        let arrived = arrivals(moves.as_slice());
        Ok(Register {
            held,
            desk: Desk::new(alloc),
            demand: Demand::none(alloc),
            keeper,
            step: 0,
            next_entry: 1,
            moves_limit,
            first: Counts {
                conflicting: 0,
                full: 0,
                partial: 0,
                exempted: 0,
                unvetted: 0,
            },
            moves,
            arrived,
        })
    }

    /// The verdict on a command, and the change that it would make. The state stays as it is, whatever the verdict.
    /// Room is taken for what `install` adds, and what was prepared on this state before can still be installed. The
    /// keeper gets the packages that are touched. Refused, the first that applies: `TooManyCriteria`, `TooLarge` of
    /// `peers`, `entries`, `publishers`, `policies`, `projects`, `members`, `reviews`, `step` or `number`;
    /// `UnknownCriterion`, `UnknownEntry`, `UnknownPeer`, `UnknownPolicy`, `UnknownProject`, `UnknownMember`,
    /// `UnknownReview`; `BuiltInCriterion`, `CriterionInUse`, `EmptyWindow`, `WindowTooLong`, `ReviewClosed`,
    /// `NotYours`, `WrongTarget`, `NotDemanded`, `DayGoesBack`; `MovesFull`. For a review that is finished, `TooLarge`
    /// comes after the rules. `NoMemory` may replace `UnknownCriterion`, or be returned if no refusal before
    /// `MovesFull` applies. A command whose content is already held is never refused so, except an import and files:
    /// these are compared with what is held, which takes memory, so `NoMemory` may replace any verdict on them. The
    /// entry of a finished review is compared too, after the rules of the desk: `NoMemory` may replace any verdict
    /// found after these rules, and none found before.
    pub fn prepare(&mut self, alloc: Global, command: &Command) -> Result<Prepared<K>, Refusal>
        ensures told { Gives answer_of (verdict self.old.state command.now) result }
        ensures exact { IsExact (wants_memory self.old.state command.now.action)
            (judged self.old.state command.now.day command.now.action) result }
        ensures prepared { IfOk result (IsAnswer K.keeping self.new command.now) }
        ensures state { self.new.state ≡ self.old.state }
        ensures room_stays { KeepsRoom self.old self.new }
        ensures ready_stays { KeepsReady K.keeping self.old self.new }
        ensures prepared_stays { KeepsPrepared K.keeping self.old self.new }
    {
        held_edits_fit_with_more_room();
        match self.asked_by(alloc, command)? {
            Asked::Already(number) => Ok(Prepared::Already(number)),
            Asked::Effect(effect) => {
                moves_are_differences();
                moves_balance();
                runs_of_moves_add();
                demand_is_least();
                self.state_is_sound();
                let Effect {
                    edit,
                    touching,
                    desk,
                    number,
                    next_entry,
                } = effect;
                let planned = self.plan(alloc, touching, edit)?;
                let change = self.change(alloc, command, number, next_entry, desk, planned)?;
                Ok(Prepared::Change(change))
            }
        }
    }

    /// Makes a change that this register prepared on this state: one step of the machine. Takes no memory.
    pub fn install(&mut self, change: Change<K>)
        requires { (command : CommandValue) × IsPrepared K.keeping self.old command change }
        ensures { (command : CommandValue)
            → IsPrepared K.keeping self.old command change
            → self.new.state ≡ next self.old.state command }
    {
        let Change {
            edit,
            desk,
            demand,
            update,
            recording,
            step,
            next_entry,
            outcome: _,
        } = change;
        let _ = self.held.apply(edit);
        change_desk(&mut self.desk, desk);
        exchange(&mut self.demand, demand);
        self.keeper.apply(update);
        self.step = step;
        self.next_entry = next_entry;
        self.arrived = arrivals_after(self.arrived, &recording);
        make_recording(&mut self.moves, &mut self.first, recording);
    }
}

impl<K: Keeper> Register<K> {
    /// Prepares a command and installs its change. After a refusal the state is as it was. Refused: everything that
    /// `prepare` refuses.
    pub fn run(&mut self, alloc: Global, command: &Command) -> Result<Outcome, Refusal>
        ensures turn { IsTurn self.old.state command.now result self.new.state }
        ensures err { OnErr result (self.new.state ≡ self.old.state) }
    {
        match self.prepare(alloc, command)? {
            Prepared::Already(number) => Ok(Outcome::Already(number)),
            Prepared::Change(change) => {
                let outcome = change.outcome();
                self.install(change);
                Ok(outcome)
            }
        }
    }

    /// Runs commands one after the other, each in the state that those before it left, and returns the outcome or the
    /// refusal of each. A refused command does not stop the others. Room for the outcomes is taken first. Refused, with
    /// nothing run: `NoMemory`.
    pub fn run_all(
        &mut self,
        alloc: Global,
        commands: &[Command],
    ) -> Result<Vec<Result<Outcome, Refusal>>, Refusal>
        ensures turns { IfOk result (λ answers.
            AreTurns self.old.state commands.now answers.items self.new.state) }
        ensures memory { IfErr result (λ e. e ≡ Refusal.NoMemory) }
        ensures err { OnErr result (self.new.state ≡ self.old.state) }
    {
        let mut answers = Vec::new(alloc);
        answers.reserve(commands.len())?;
        for command in commands {
            let answer = self.run(alloc, command);
            answers.push_reserved(answer);
        }
        Ok(answers)
    }
}

impl<K: Keeper> Register<K> {
    /// The state is sound. Does nothing.
    pub(crate) fn state_is_sound(&self)
        ensures { IsSound self.now.state }
    {
        let _ = &self.step;
    }

    /// The class of a pair, or `None` if it isn't demanded. Takes no memory.
    pub fn class(
        &self,
        package: &PackageName,
        version: &VetVersion,
        criterion: &Name,
    ) -> Option<Class>
        ensures value { result ≡ class_in (standing self.now.state)
            (record { «package» = «package».now; version = version.now; criterion = criterion.now }) }
        ensures is { StandsAt self.now.state.held.facts (demanded self.now.state)
            (record { «package» = «package».now; version = version.now; criterion = criterion.now }) result }
    {
        each_pair_has_its_class();
        self.keeper.class(package, version, criterion)
    }

    /// The keeper of the classes. Takes no memory.
    pub fn keeper(&self) -> &K
        ensures { result.now ≡ self.now.keeper }
    {
        &self.keeper
    }

    /// The demanded pairs in their order, each with its class. Refused: `NoMemory`.
    pub fn stands(&self, alloc: Global) -> Result<Vec<&Stand>, Refusal>
        ensures stands { IfOk result (λ stands. map (λ s. s.now) stands.items ≡ standing self.now.state) }
        ensures memory { IfErr result (λ e. e ≡ Refusal.NoMemory) }
    {
        self.keeper.stands(alloc)
    }

    /// The number of demanded pairs in each class. Takes no memory.
    pub fn counts(&self) -> Counts
        ensures value { result ≡ counts_of (standing self.now.state) }
        ensures total { total_of result ≡ length (demanded self.now.state) }
        ensures sound { IsSound self.now.state }
    {
        classes_add_up();
        self.keeper.counts()
    }

    /// The number of demanded pairs that were in each class when the period began. Takes no memory.
    pub fn first_counts(&self) -> Counts
        ensures { result ≡ self.now.state.first }
    {
        self.first
    }

    /// The number of recorded moves that arrive at each class. Takes no memory, and looks at no move.
    pub fn arrivals(&self) -> Counts
        ensures { result ≡ arrivals (changes_of self.now.state.moves) }
    {
        self.arrived
    }

    /// The number of recorded moves that depart from each class. Takes no memory, and looks at no move.
    pub fn departures(&self) -> Counts
        ensures { result ≡ departures (changes_of self.now.state.moves) }
    {
        departures(self.first, self.arrived, self.keeper.counts())
    }

    /// The recorded moves, in the order of their steps and, within a step, of their pairs. Takes no memory.
    pub fn moves(&self) -> &[RecordedMove]
        ensures { result.now ≡ self.now.state.moves }
    {
        self.moves.as_slice()
    }

    /// The review desk. Takes no memory.
    pub fn desk(&self) -> &Desk
        ensures { result.now.content ≡ self.now.state.desk }
    {
        &self.desk
    }

    /// The number of commands that were accepted. Takes no memory.
    pub fn step(&self) -> u64
        ensures { result ≡ self.now.state.step }
    {
        self.step
    }

    /// The number that the next entry gets. Takes no memory.
    pub fn next_entry(&self) -> u64
        ensures { result ≡ self.now.state.next_entry }
    {
        self.next_entry
    }

    /// The greatest number of moves that may be recorded. Takes no memory.
    pub fn moves_limit(&self) -> usize
        ensures { result ≡ self.now.state.moves_limit }
    {
        self.moves_limit
    }

    /// The facts of packages that are held. Takes no memory.
    pub fn facts(&self) -> &EntryFacts
        ensures value { result.now.content ≡ self.now.state.held.facts }
        ensures sound { IsSound self.now.state }
    {
        &self.held.facts
    }

    /// The criteria that are held. Takes no memory.
    pub fn criteria(&self) -> &CriteriaTable
        ensures { result.now ≡ self.now.state.held.facts.criteria }
    {
        self.held.facts.criteria()
    }

    /// The organisation's own entries, by their numbers. Takes no memory.
    pub fn entries(&self) -> &[HeldEntry]
        ensures { result.now ≡ self.now.state.held.facts.entries }
    {
        self.held.facts.entries()
    }

    /// The peers that are held, in the order of their names. Takes no memory.
    pub fn peers(&self) -> &[HeldPeer]
        ensures { result.now ≡ self.now.state.held.facts.peers }
    {
        self.held.facts.peers()
    }

    /// The packages that have publisher records, in the order of their names. Takes no memory.
    pub fn publishers(&self) -> &[PackagePublishers]
        ensures { result.now ≡ self.now.state.held.facts.publishers }
    {
        self.held.facts.publishers()
    }

    /// The policies that are held, in the order of their keys. Takes no memory.
    pub fn policies(&self) -> &[KeyedPolicy]
        ensures { result.now ≡ self.now.state.held.policies }
    {
        self.held.policies.items()
    }

    /// The projects that are held, in the order of their names. Takes no memory.
    pub fn projects(&self) -> &[NamedProject]
        ensures { result.now ≡ self.now.state.held.projects }
    {
        self.held.projects.items()
    }

    /// The settings of a config file that are for the tool only. Takes no memory.
    pub fn settings(&self) -> &ToolSettings
        ensures { result.now ≡ self.now.state.held.settings }
    {
        &self.held.settings
    }

    /// The pairs that the projects demand, in their order. Takes no memory.
    pub fn demand(&self) -> &[Pair]
        ensures { result.now ≡ demanded self.now.state }
    {
        self.demand.pairs()
    }
}

// Makes an edit that the desk prepared, if there is one.
fn change_desk(desk: &mut Desk, edit: Option<DeskEdit>)
    requires { HoldsDesk edit desk.old }
    ensures { desk.new.content ≡ desk_edited edit desk.old.content }
{
    if let Some(edit) = edit {
        edit.made_at(desk);
    }
}

// Replaces the demand by another one, if there is one.
fn exchange(demand: &mut Demand, other: Option<Demand>)
    ensures { demand.new ≡ demand_by other demand.old }
{
    if let Some(other) = other {
        *demand = other;
    }
}
