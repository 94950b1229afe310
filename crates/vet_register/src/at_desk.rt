//! Commands to the review desk: the verdict, in which parts of the desk's and of the register's own take turns, and the
//! effect.
//!
//! A review that is finished adds its entry, unless an equal own one is held. This is known only once the entry is
//! made, so the limits of a finished review come last of all.
ghost use Rattle.std.specs.Prelude.{◌≡◌, ◌+◌, ◌++◌, ◌∷◌, ◌≤◌, [], IfErr, IfOk, None, Ok, Some, false};
ghost use Rattle.vet_base.specs.Day.{DayValue};
ghost use Rattle.vet_base.specs.Gives.{Answers, Gives};
ghost use Rattle.vet_base.specs.declared.limits.TheConstants.{LAST_NUMBER};
ghost use Rattle.vet_desk.specs.Desk.{entry_of};
ghost use Rattle.vet_desk.specs.DeskVerdict.{desk_held};
ghost use Rattle.vet_desk.specs.DeskView.{IsDeskChange, entry_in};
ghost use Rattle.vet_entries.specs.Entry.{own};
ghost use Rattle.vet_register.specs.AtDesk.{finishes, number_told};
ghost use Rattle.vet_register.specs.Held.{Fits, edited};
ghost use Rattle.vet_register.specs.RegisterView.{Asks, IsDeskEffect, KeepsRoom, desk_room, held_room};
ghost use Rattle.vet_register.specs.Verdict.{asked_before, entry_limits, judged, limits_after_rules, step_before_rules};
ghost use Rattle.vet_register.specs.Verdict.{step_limit};
ghost use Rattle.vet_register.specs.Touches.{only_at, package_added};
ghost use Rattle.vet_register.specs.declared.command.Action.TheVariants as action;
ghost use Rattle.vet_register.specs.declared.held.HeldEdit.TheVariants as edit;
ghost use Rattle.vet_register.specs.declared.touching.Touching.TheVariants as touch;

use crate::change::DeskEdit;
use crate::edits::{Asked, Effect};
use crate::held::HeldEdit;
use crate::register::Register;
use crate::touching::{none_touched, package_touched};
use crate::verdict::check_entry_limit;
use std::alloc::Global;
use vet_base::day::Day;
use vet_base::refusal::Refusal;
use vet_desk::change::{DeskChange, DeskStep};
use vet_desk::command::DeskCommand;
use vet_entries::entry::Entry;
use vet_graph::keeper::Keeper;

impl<K: Keeper> Register<K> {
    /// The effect of a command to the desk, and room for it.
    pub(crate) fn ask_desk(
        &mut self,
        alloc: Global,
        day: Day,
        command: &DeskCommand,
    ) -> Result<Asked, Refusal>
        ensures asked { Asks self.old.state self.new day (action.Desk command.now)
            (judged self.old.state day (action.Desk command.now)) result }
        ensures state { self.new.state ≡ self.old.state }
        ensures keeper { self.new.keeper ≡ self.old.keeper }
        ensures room_stays { KeepsRoom self.old self.new }
    {
        if self.desk.is_held(command) {
            return Ok(Asked::Already(None));
        }
        self.check_command(command)?;
        let change = self.desk_change(alloc, day, command)?;
        let effect = self.desk_effect(alloc, command, change)?;
        Ok(Asked::Effect(effect))
    }

    // All checks of a command, except the limits that come after the rules.
    fn check_command(&self, command: &DeskCommand) -> Result<(), Refusal>
        ensures { Answers (asked_before self.now.state command.now) result }
    {
        self.desk.check_limits(command)?;
        self.check_step_before_rules(command)?;
        self.desk.check_number(command)?;
        self.desk
            .check_references(command, self.held.facts.criteria())?;
        self.desk.check_rules(command, &self.demand)
    }

    // Checks the limit of steps, unless the command finishes a review: then that check comes after the rules.
    fn check_step_before_rules(&self, command: &DeskCommand) -> Result<(), Refusal>
        ensures { result ≡ step_before_rules self.now.state command.now }
    {
        if finishes(command) {
            return Ok(());
        }
        self.check_step()
    }

    // The change at the desk, and room for it.
    fn desk_change(
        &mut self,
        alloc: Global,
        day: Day,
        command: &DeskCommand,
    ) -> Result<DeskChange, Refusal>
        requires new { desk_held self.old.state.desk command.now ≡ false }
        requires asked { asked_before self.old.state command.now ≡ Ok tt }
        ensures change { IfOk result (IsDeskChange (desk_room self.new) day command.now) }
        ensures memory { IfErr result (λ e. e ≡ Refusal.NoMemory) }
        ensures state { self.new.state ≡ self.old.state }
        ensures keeper { self.new.keeper ≡ self.old.keeper }
        ensures room_stays { KeepsRoom self.old self.new }
    {
        let criteria = self.held.facts.criteria();
        match self
            .desk
            .prepare(alloc, command, day, criteria, &self.demand)?
        {
            DeskStep::Change(change) => Ok(change),
            DeskStep::Already => unreachable!(),
        }
    }

    // The effect of a command that makes this change at the desk: the entry of a review that it finishes is added,
    // unless an equal one is held.
    fn desk_effect(
        &mut self,
        alloc: Global,
        command: &DeskCommand,
        change: DeskChange,
    ) -> Result<Effect, Refusal>
        requires asked { asked_before self.old.state command.now ≡ Ok tt }
        requires entry { entry_in change ≡ entry_of self.old.state.desk command.now }
        ensures told { Gives (λ e. tt) (limits_after_rules self.old.state command.now) result }
        ensures effect { (day : DayValue) → IfOk result (IsDeskEffect self.new day command.now change) }
        ensures state { self.new.state ≡ self.old.state }
        ensures keeper { self.new.keeper ≡ self.old.keeper }
        ensures room_stays { KeepsRoom self.old self.new }
    {
        match change.entry() {
            Some(entry) => match self.held.facts.number_of(entry) {
                Some(number) => self.finished_as(alloc, number, change),
                None => {
                    let own = self.new_entry(entry)?;
                    self.finished_by(alloc, own, change)
                }
            },
            None => Ok(Effect {
                edit: HeldEdit::Nothing,
                touching: none_touched(alloc),
                number: self.number_opened(command),
                desk: Some(DeskEdit {
                    change,
                    entry: None,
                }),
                next_entry: self.next_entry,
            }),
        }
    }

    // The number of the review that a command opens, if it opens one.
    fn number_opened(&self, command: &DeskCommand) -> Option<u64>
        requires { entry_of self.now.state.desk command.now ≡ None }
        ensures { result ≡ number_told self.now.state command.now }
    {
        match command {
            DeskCommand::OpenReview { .. } => Some(self.desk.next_review()),
            _ => None,
        }
    }

    // The effect of finishing a review if an equal entry is held under a number.
    fn finished_as(&self, alloc: Global, number: u64, change: DeskChange) -> Result<Effect, Refusal>
        ensures told { Gives (λ e. tt) (step_limit self.now.state) result }
        ensures effect { IfOk result (λ e. e ≡ record {
          edit = edit.Nothing;
          touching = touch.Known (only_at []);
          desk = Some (record { change = change; entry = Some number });
          number = Some number;
          next_entry = self.now.state.next_entry;
        }) }
    {
        self.check_step()?;
        Ok(Effect {
            edit: HeldEdit::Nothing,
            touching: none_touched(alloc),
            desk: Some(DeskEdit {
                change,
                entry: Some(number),
            }),
            number: Some(number),
            next_entry: self.next_entry,
        })
    }

    // A copy of an entry that is to be added, if it is within the limits.
    fn new_entry(&self, entry: &Entry) -> Result<Entry, Refusal>
        ensures told { Gives (λ e. tt) (entry_limits self.now.state (Some entry.now)) result }
        ensures own { IfOk result (λ e. e ≡ own entry.now) }
    {
        check_entry_limit(self.entries_total(), 1)?;
        self.check_step()?;
        self.check_number_limit(1)?;
        Ok(entry.to_own()?)
    }

    // The effect of finishing a review with an entry that is added.
    fn finished_by(
        &mut self,
        alloc: Global,
        own: Entry,
        change: DeskChange,
    ) -> Result<Effect, Refusal>
        requires { self.old.state.next_entry ≤ LAST_NUMBER }
        ensures held { IfOk result (λ e. edited e.edit self.old.state.held ≡ record self.old.state.held {
          facts = record self.old.state.held.facts {
            entries = self.old.state.held.facts.entries
                ++ (record { number = self.old.state.next_entry; entry = own }) ∷ [];
          };
        }) }
        ensures touching { IfOk result (λ e. e.touching ≡ touch.Known (only_at (package_added (Some own)))) }
        ensures desk { IfOk result
            (λ e. e.desk ≡ Some (record { change = change; entry = Some self.old.state.next_entry })) }
        ensures number { IfOk result (λ e. e.number ≡ Some self.old.state.next_entry) }
        ensures next_entry { IfOk result (λ e. e.next_entry ≡ self.old.state.next_entry + 1) }
        ensures fits { IfOk result (λ e. Fits e.edit (held_room self.new)) }
        ensures memory { IfErr result (λ e. e ≡ Refusal.NoMemory) }
        ensures state { self.new.state ≡ self.old.state }
        ensures keeper { self.new.keeper ≡ self.old.keeper }
        ensures room_stays { KeepsRoom self.old self.new }
    {
        let number = self.next_entry;
        let touching = package_touched(alloc, &own.package)?;
        Ok(Effect {
            touching,
            edit: HeldEdit::Facts(self.held.facts.edit_adding(number, own)?),
            desk: Some(DeskEdit {
                change,
                entry: Some(number),
            }),
            number: Some(number),
            next_entry: number + 1,
        })
    }
}

// Whether a command finishes a review.
fn finishes(command: &DeskCommand) -> bool
    ensures { result ≡ finishes command.now }
{
    match command {
        DeskCommand::FinishReview { .. } => true,
        _ => false,
    }
}
