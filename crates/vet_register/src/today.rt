//! The register's day, and SetDay, the command that changes it: its verdict and its effect.
//!
//! **The register's day is the day of the last accepted SetDay, and never goes back.**
//!
//! The day of any other command isn't compared with it. An exemption has lapsed if the register's day is after its last
//! day. So SetDay touches the packages of the exemptions that have lapsed on only one of the old and the new day.
ghost use Rattle.std.specs.Prelude.{◌≡◌};
ghost use Rattle.vet_base.specs.Gives.{Answers};
ghost use Rattle.vet_register.specs.RegisterView.{Asks, KeepsRoom};
ghost use Rattle.vet_register.specs.Today.{goes_back, is_today};
ghost use Rattle.vet_register.specs.Verdict.{judged};
ghost use Rattle.vet_register.specs.declared.command.Action.TheVariants as action;

use crate::edits::{Asked, Effect};
use crate::held::HeldEdit;
use crate::register::Register;
use crate::touching::lapsing_touched;
use crate::verdict::Answer;
use std::alloc::Global;
use vet_base::day::Day;
use vet_base::refusal::Refusal;
use vet_graph::keeper::Keeper;

impl<K: Keeper> Register<K> {
    /// The register's day, if it has one. Takes no memory.
    pub fn today(&self) -> Option<Day>
        ensures { result ≡ self.now.state.held.facts.today }
    {
        self.held.facts.today()
    }

    /// The effect of SetDay on a day, or `Already` if it is the register's day. Refused, the first that applies:
    /// `TooLarge` of `step`; `DayGoesBack` if the day is before the register's. `NoMemory` if no check refuses.
    pub(crate) fn set_day(&mut self, alloc: Global, day: Day) -> Result<Asked, Refusal>
        ensures asked { Asks self.old.state self.new day action.SetDay
            (judged self.old.state day action.SetDay) result }
        ensures state { self.new.state ≡ self.old.state }
        ensures keeper { self.new.keeper ≡ self.old.keeper }
        ensures room_stays { KeepsRoom self.old self.new }
    {
        if let Answer::Already(number) = self.judge_day(day)? {
            return Ok(Asked::Already(number));
        }
        let touching = lapsing_touched(alloc, &self.held.facts, day)?;
        Ok(Asked::Effect(Effect {
            edit: HeldEdit::Facts(self.held.facts.edit_of_today(day)),
            touching,
            desk: None,
            number: None,
            next_entry: self.next_entry,
        }))
    }

    // The verdict on SetDay on a day.
    fn judge_day(&self, day: Day) -> Result<Answer, Refusal>
        ensures { Answers (judged self.now.state day action.SetDay) result }
    {
        if is_today(self.today(), day) {
            return Ok(Answer::Already(None));
        }
        self.check_step()?;
        if goes_back(self.today(), day) {
            return Err(Refusal::DayGoesBack);
        }
        Ok(Answer::Accepted)
    }
}

// Whether a day is the register's day, `today`.
fn is_today(today: Option<Day>, day: Day) -> bool
    ensures { result ≡ is_today today day }
{
    match today {
        Some(today) => today == day,
        None => false,
    }
}

// Whether a day is before the register's day, `today`.
fn goes_back(today: Option<Day>, day: Day) -> bool
    ensures { result ≡ goes_back today day }
{
    match today {
        Some(today) => day < today,
        None => false,
    }
}
