//! The change of an accepted command, and room for it: one function for each command. The content of the desk stays.
//!
//! A command to the desk takes two calls, `prepare` and `install`. The verdict has a call for each of its parts
//! (`verdict`), since the register checks its step between two of them. `judge` checks all parts in order. The
//! functions here make the change, with its copies and its room, and `finished` makes the own entry that finishes a
//! review. `install` takes the number of that entry, which the register knows: that of an equal own entry, or the next.
//!
//! Reviews are in the order of their numbers. A new one is added at the end, and one that is held is found by binary
//! search and changed in place. So no command looks at all the others. Only the question whether an open review names
//! a criterion does so. It is asked if a criterion is removed or files are replaced.
ghost use Rattle.std.specs.Prelude.{◌≡◌, ◌<◌, ◌≤◌, ℕ, IfErr, IfOk, List, Ok, is_some, length, true};
ghost use Rattle.std.specs.Ordering.{nat_cmp};
ghost use Rattle.vet_base.specs.Day.{DayValue};
ghost use Rattle.vet_base.specs.Keyed.{IsPlace};
ghost use Rattle.vet_desk.specs.declared.command.DeskCommand.TheVariants as command;
ghost use Rattle.vet_desk.specs.Desk.{is_member, new_review};
ghost use Rattle.vet_desk.specs.DeskView.{HoldsDeskRoom, IsAcceptable, IsDeskChange};
ghost use Rattle.vet_desk.specs.Review.{review_number, review_of};
ghost use Rattle.vet_desk.specs.SoundDesk.{IsSoundDesk};

use crate::change::DeskChange;
use crate::command::{DeskCommand, Reviewed};
use crate::desk::Desk;
use crate::finished::entry_by;
use crate::review::{Review, ReviewState};
use std::alloc::{AllocError, Global};
use vet_base::day::Day;
use vet_base::limits::{LAST_NUMBER, MOST_MEMBERS, MOST_REVIEWS};
use vet_base::name::{Name, PackageName};
use vet_base::names::Names;
use vet_base::refusal::Refusal;
use vet_base::version::VetVersion;

impl Desk {
    /// The change of a command on a day, with room for it. Refused: `NoMemory`.
    pub(crate) fn change(
        &mut self,
        alloc: Global,
        day: Day,
        command: &DeskCommand,
    ) -> Result<DeskChange, Refusal>
        requires { IsAcceptable self.old.content command.now }
        ensures change { IfOk result (IsDeskChange self.new day command.now) }
        ensures memory { IfErr result (λ e. e ≡ Refusal.NoMemory) }
        ensures content { self.new.content ≡ self.old.content }
        ensures room_stays { HoldsDeskRoom self.old.room self.new.room }
    {
        match command {
            DeskCommand::AddMember(name) => self.join(name),
            DeskCommand::OpenReview {
                package,
                version,
                criteria,
            } => self.open(day, package, version, criteria),
            DeskCommand::AssignReview { review, member } => self.assign(*review, member),
            DeskCommand::FinishReview {
                review,
                member,
                reviewed,
            } => self.finish(alloc, *review, member, reviewed),
            DeskCommand::WithdrawReview { review, .. } => Ok(self.withdraw(*review)),
        }
    }

    fn join(&mut self, name: &Name) -> Result<DeskChange, Refusal>
        requires { length self.old.content.members < MOST_MEMBERS }
        ensures change { (day : DayValue) → IfOk result (IsDeskChange self.new day (command.AddMember name.now)) }
        ensures memory { IfErr result (λ e. e ≡ Refusal.NoMemory) }
        ensures content { self.new.content ≡ self.old.content }
        ensures room_stays { HoldsDeskRoom self.old.room self.new.room }
    {
        self.members.reserve()?;
        Ok(DeskChange::Join(self.members.edit_setting(copied(name)?)))
    }

    fn open(
        &mut self,
        day: Day,
        package: &PackageName,
        version: &VetVersion,
        criteria: &Names,
    ) -> Result<DeskChange, Refusal>
        requires few { length self.old.content.reviews < MOST_REVIEWS }
        requires number { self.old.content.next_review ≤ LAST_NUMBER }
        ensures change { IfOk result (IsDeskChange self.new day
            (command.OpenReview «package».now version.now criteria.now)) }
        ensures memory { IfErr result (λ e. e ≡ Refusal.NoMemory) }
        ensures content { self.new.content ≡ self.old.content }
        ensures room_stays { HoldsDeskRoom self.old.room self.new.room }
    {
        self.reviews.reserve(1)?;
        let review = new_review(self.next_review, day, package, version, criteria)?;
        Ok(DeskChange::Open(review))
    }

    fn assign(&self, number: u64, member: &Name) -> Result<DeskChange, Refusal>
        requires member { is_member self.now.content.members member.now ≡ true }
        requires held { is_some (review_of self.now.content.reviews number) ≡ true }
        ensures change { (day : DayValue)
            → IfOk result (IsDeskChange self.now day (command.AssignReview number member.now)) }
        ensures memory { IfErr result (λ e. e ≡ Refusal.NoMemory) }
    {
        let place = self.place_held(number);
        let state = ReviewState::Assigned(copied(member)?);
        Ok(DeskChange::Turn(place, state))
    }

    fn finish(
        &self,
        alloc: Global,
        number: u64,
        member: &Name,
        reviewed: &Reviewed,
    ) -> Result<DeskChange, Refusal>
        requires held { is_some (review_of self.now.content.reviews number) ≡ true }
        ensures change { (day : DayValue)
            → IfOk result (IsDeskChange self.now day (command.FinishReview number member.now reviewed.now)) }
        ensures memory { IfErr result (λ e. e ≡ Refusal.NoMemory) }
    {
        let place = self.place_held(number);
        let entry = entry_by(alloc, member, reviewed, &self.reviews[place])?;
        Ok(DeskChange::Finish(place, entry))
    }

    fn withdraw(&self, number: u64) -> DeskChange
        requires held { is_some (review_of self.now.content.reviews number) ≡ true }
        ensures { (day : DayValue) (member : List ℕ)
            → IsDeskChange self.now day (command.WithdrawReview number member) result }
    {
        DeskChange::Turn(self.place_held(number), ReviewState::Withdrawn)
    }

    // The place of the review of a number, which must be held.
    fn place_held(&self, number: u64) -> usize
        requires { is_some (review_of self.now.content.reviews number) ≡ true }
        ensures place { IsPlace nat_cmp review_number self.now.content.reviews number (Ok result) }
        ensures sound { IsSoundDesk self.now.content }
    {
        match self.place_of(number) {
            Ok(place) => place,
            Err(_) => unreachable!(),
        }
    }
}

// A waiting review, made of copies.
fn new_review(
    number: u64,
    day: Day,
    package: &PackageName,
    version: &VetVersion,
    criteria: &Names,
) -> Result<Review, AllocError>
    ensures { IfOk result (λ r. r ≡ new_review number day «package».now version.now criteria.now) }
{
    Ok(Review {
        number,
        package: package.clone()?,
        version: version.clone()?,
        criteria: criteria.clone()?,
        day,
        state: ReviewState::Waiting,
    })
}

// A copy of a name.
fn copied(name: &Name) -> Result<Name, AllocError>
    ensures { IfOk result (λ copy. copy ≡ name.now) }
{
    name.clone()
}
