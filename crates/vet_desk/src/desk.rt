//! The desk: its content, and the calls that read and change it.
//!
//! **A change that is prepared and then installed is one step of the desk.**
//!
//! A command takes two calls, as in the register that the desk is a part of. `prepare` judges it, copies the values to
//! be held and takes room for them. The content of the desk stays. `install` makes the change, takes no memory and
//! cannot fail. Reviews are in the order of their numbers. One that is held is found by binary search and changed in
//! place, and a new one is added at the end, so that no command looks at all the others.
ghost use Rattle.std.specs.Prelude.{◌≡◌, ◌<◌, ◌↔◌, IfErr, IfOk, IfSome, IsSome, IsTrue, is_some, length, vec_capacity};
ghost use Rattle.std.specs.Prelude.{vec_len};
ghost use Rattle.std.specs.List.{All};
ghost use Rattle.std.specs.Option.{option_copied};
ghost use Rattle.std.specs.Ordering.{nat_cmp};
ghost use Rattle.std.specs.Cmp.Lexicographic.{slice_cmp};
ghost use Rattle.vet_base.specs.Day.{DayValue};
ghost use Rattle.vet_base.specs.Keyed.{Fits, IsPlace, edited};
ghost use Rattle.vet_desk.specs.Desk.{DeskCommandValue, desk_after, empty_desk, is_member, own_name};
ghost use Rattle.vet_desk.specs.DeskVerdict.{desk_verdict};
ghost use Rattle.vet_desk.specs.DeskView.{IsDeskChange, IsStepOf, KeepsDeskChanges, TellsDesk, entry_in, with_state_at};
ghost use Rattle.vet_desk.specs.Review.{are_open_beyond, are_open_for, review_number, review_of};
ghost use Rattle.vet_desk.specs.SoundDesk.{AreMembers, AreReviews, HasMember, IsByMember, IsSoundDesk};

use crate::change::{DeskChange, DeskStep};
use crate::command::DeskCommand;
use crate::review::{Review, ReviewState};
use crate::verdict::DeskAnswer;
use std::alloc::Global;
use std::marker::Model;
use vet_base::criteria_table::CriteriaTable;
use vet_base::day::Day;
use vet_base::keyed::{Keyed, KeyedEdit};
use vet_base::limits::{LAST_NUMBER, MOST_MEMBERS, MOST_REVIEWS};
use vet_base::name::Name;
use vet_base::ranked::are_ranked;
use vet_base::refusal::Refusal;
use vet_demand::demand::Demand;

/// The members of an organisation, and its reviews.
pub struct Desk {
    pub(crate) members: Keyed<Name>,
    pub(crate) reviews: Vec<Review>,
    pub(crate) next_review: u64,
}

impl Model for Desk {
    ghost use Rattle.std.specs.Prelude.{◌-◌, vec_len, vec_capacity};
    ghost use Rattle.vet_desk.specs.DeskView.{DeskView};
    ghost use Rattle.vet_desk.specs.Encodings.{desk_code};
    ghost use Rattle.vet_desk.specs.SoundDesk.{IsSoundDesk};
    ghost use Rattle.vet_desk.specs.contracts.review.Review as review;

    ghost Value = { DeskView };

    ghost coded = { desk_code review.the_row.coded };

    ghost view = { λ d. record {
      content = record { members = d.members.items; reviews = d.reviews.items; next_review = d.next_review };
      room = record { members = d.members.room; reviews = vec_capacity d.reviews - vec_len d.reviews };
    } };

    ghost invariant = { λ d. IsSoundDesk
        (record { members = d.members.items; reviews = d.reviews.items; next_review = d.next_review }) };
}

impl Drop for Desk {
    fn drop(self) {
        let Desk {
            members: _,
            reviews: _,
            next_review: _,
        } = self;
    }
}

impl Desk {
    /// A desk without members and reviews, whose next review has number 1. Takes no memory.
    pub fn new(alloc: Global) -> Desk
        ensures { result.content ≡ empty_desk }
    {
        Desk {
            members: Keyed::new(alloc),
            reviews: Vec::new(alloc),
            next_review: 1,
        }
    }

    /// The desk with these members, reviews and next review number, which must be sound. Refused: `NoMemory`.
    pub fn restore(
        alloc: Global,
        members: Vec<Name>,
        reviews: Vec<Review>,
        next_review: u64,
    ) -> Result<Desk, Refusal>
        requires { IsSoundDesk (record {
          members = members.items;
          reviews = reviews.items;
          next_review = next_review;
        }) }
        ensures ok { IfOk result (λ d. d.content
            ≡ record { members = members.items; reviews = reviews.items; next_review = next_review }) }
        ensures memory { IfErr result (λ e. e ≡ Refusal.NoMemory) }
    {
        Ok(Desk {
            members: Keyed::of(alloc, members)?,
            reviews,
            next_review,
        })
    }

    /// The desk with these members, reviews and next review number. `None` exactly if they are not sound. Takes no
    /// memory, and a time of n log m for n reviews and m members.
    pub fn restored(members: Keyed<Name>, reviews: Vec<Review>, next_review: u64) -> Option<Desk>
        ensures sound { IsSome result ↔ IsSoundDesk (record {
          members = members.items;
          reviews = reviews.items;
          next_review = next_review;
        }) }
        ensures value { IfSome result (λ d. d.content
            ≡ record { members = members.items; reviews = reviews.items; next_review = next_review }) }
    {
        if are_members(&members)
            && are_reviews(&members, reviews.as_slice(), next_review)
            && next_review <= LAST_NUMBER + 1
        {
            Some(Desk {
                members,
                reviews,
                next_review,
            })
        } else {
            None
        }
    }

    /// Judges a command on a day, with these criteria and this demand, and prepares its change. The content of the desk
    /// stays, whatever the answer. Takes room for everything that `install` adds, and a change that was prepared before
    /// can still be installed. Refused: as `judge` does, and `NoMemory`, but never if the answer is `Already`.
    pub fn prepare(
        &mut self,
        alloc: Global,
        command: &DeskCommand,
        day: Day,
        criteria: &CriteriaTable,
        demand: &Demand,
    ) -> Result<DeskStep, Refusal>
        ensures told { TellsDesk (desk_verdict criteria.now demand.now self.old.content command.now) result }
        ensures prepared { IfOk result (IsStepOf self.new day command.now) }
        ensures content { self.new.content ≡ self.old.content }
        ensures prepared_stays { KeepsDeskChanges self.old self.new }
    {
        match self.judge(command, criteria, demand)? {
            DeskAnswer::Already => Ok(DeskStep::Already),
            DeskAnswer::Accepted => {
                let change = self.change(alloc, day, command)?;
                Ok(DeskStep::Change(change))
            }
        }
    }

    /// Makes a change that this desk prepared in this state: one step of the desk. The number is that of the entry of
    /// a finished review, and must be present exactly if the change has an entry. Takes no memory.
    pub fn install(&mut self, change: DeskChange, entry: Option<u64>)
        requires prepared { (day : DayValue) × ((command : DeskCommandValue)
            × IsDeskChange self.old day command change) }
        requires entry { is_some entry ≡ is_some (entry_in change) }
        ensures { (day : DayValue) (command : DeskCommandValue)
            → IsDeskChange self.old day command change
            → self.new.content ≡ desk_after day entry command self.old.content }
    {
        match change {
            DeskChange::Join(edit) => join(&mut self.members, edit),
            DeskChange::Open(review) => {
                self.reviews.push_reserved(review);
                self.next_review += 1;
            }
            DeskChange::Turn(place, state) => turn(&mut self.reviews, place, state),
            DeskChange::Finish(place, _) => {
                if let Some(entry) = entry {
                    turn(&mut self.reviews, place, ReviewState::Finished(entry));
                }
            }
        }
    }
}

impl Desk {
    /// The members in the order of their names. Takes no memory.
    pub fn members(&self) -> &[Name]
        ensures value { result.now ≡ self.now.content.members }
        ensures sound { IsSoundDesk self.now.content }
    {
        let _ = &self.next_review;
        self.members.items()
    }

    /// The reviews in the order of their numbers. Takes no memory.
    pub fn reviews(&self) -> &[Review]
        ensures value { result.now ≡ self.now.content.reviews }
        ensures sound { IsSoundDesk self.now.content }
    {
        self.reviews.as_slice()
    }

    /// The number of the next review. Takes no memory.
    pub fn next_review(&self) -> u64
        ensures value { result ≡ self.now.content.next_review }
        ensures sound { IsSoundDesk self.now.content }
    {
        self.next_review
    }

    /// Whether a name is a member's. Takes no memory, and a time of log n.
    pub fn has_member(&self, name: &Name) -> bool
        ensures { result ≡ is_member self.now.content.members name.now }
    {
        self.members.has(name)
    }

    /// The review of a number, if it is held. Takes no memory, and a time of log n.
    pub fn review(&self, number: u64) -> Option<&Review>
        ensures { option_copied result ≡ review_of self.now.content.reviews number }
    {
        match self.place_of(number) {
            Ok(place) => Some(&self.reviews[place]),
            Err(_) => None,
        }
    }

    /// Whether a review that is not closed names a criterion. Takes no memory. Costs a look at each review, up to the
    /// first that does.
    pub fn names_criterion(&self, name: &Name) -> bool
        ensures { result ≡ are_open_for self.now.content.reviews name.now }
    {
        self.reviews.iter().any(|review| review.is_open_for(name))
    }

    /// Whether a review that is not closed names a criterion that a table lacks. Takes no memory. Costs a look at each
    /// review, up to the first that does.
    pub fn names_beyond(&self, criteria: &CriteriaTable) -> bool
        ensures { result ≡ are_open_beyond criteria.now self.now.content.reviews }
    {
        self.reviews
            .iter()
            .any(|review| review.is_open_beyond(criteria))
    }

    // The place of the review of a number, or, as an error, the place where it would belong.
    pub(crate) fn place_of(&self, number: u64) -> Result<usize, usize>
        ensures place { IsPlace nat_cmp review_number self.now.content.reviews number result }
        ensures sound { IsSoundDesk self.now.content }
    {
        self.reviews
            .binary_search_by(|review| review.number.cmp(&number))
    }
}

// Whether the members are within their limit.
fn are_members(members: &Keyed<Name>) -> bool
    ensures { IsTrue result ↔ AreMembers members.now.items }
{
    members.items().len() <= MOST_MEMBERS
}

// Whether reviews are sound, with numbers below this one.
fn are_reviews(members: &Keyed<Name>, reviews: &[Review], next_review: u64) -> bool
    ensures { IsTrue result ↔ AreReviews members.now.items reviews.now next_review }
{
    reviews.len() <= MOST_REVIEWS
        && are_ranked(reviews)
        && reviews.iter().all(|review| review.number < next_review)
        && are_by_members(members, reviews)
}

// Whether each review that is assigned is assigned to a member.
fn are_by_members(members: &Keyed<Name>, reviews: &[Review]) -> bool
    ensures { IsTrue result ↔ All (HasMember members.now.items) reviews.now }
{
    reviews
        .iter()
        .all(|review| is_by_member(members, &review.state))
}

// Whether a review, if it is assigned, is assigned to a member.
fn is_by_member(members: &Keyed<Name>, state: &ReviewState) -> bool
    ensures { IsTrue result ↔ IsByMember members.now.items state.now }
{
    match state {
        ReviewState::Assigned(member) => members.has(member),
        _ => true,
    }
}

// Makes an edit of the members, for which there must be room.
fn join(members: &mut Keyed<Name>, edit: KeyedEdit<Name>)
    requires { Fits (slice_cmp nat_cmp) own_name edit members.old }
    ensures { members.new.items ≡ edited edit members.old.items }
{
    let _ = members.apply(edit);
}

// Puts the review at a place into a state.
fn turn(reviews: &mut Vec<Review>, place: usize, state: ReviewState)
    requires { place < length reviews.old.items }
    ensures items { reviews.new.items ≡ with_state_at place state reviews.old.items }
    ensures len { vec_len reviews.new ≡ vec_len reviews.old }
    ensures capacity { vec_capacity reviews.new ≡ vec_capacity reviews.old }
{
    reviews[place].state = state;
}
