//! The verdict on a command to the desk: a call for each part of it, and one for all parts in order.
//!
//! The register calls the parts separately, since its own checks come between them.
ghost use Rattle.std.specs.Prelude.{◌≡◌};
ghost use Rattle.std.specs.List.{list_all};
ghost use Rattle.vet_base.specs.CriteriaChanges.{known};
ghost use Rattle.vet_base.specs.Gives.{Answers};
ghost use Rattle.std.specs.Option.{option_copied};
ghost use Rattle.vet_desk.specs.DeskVerdict.{are_demanded, asked_of, both_held, desk_held, desk_limits, desk_number};
ghost use Rattle.vet_desk.specs.DeskVerdict.{desk_references, desk_rules, desk_verdict, finish_rules};
ghost use Rattle.vet_desk.specs.DeskVerdict.{is_assigned_review, is_demanded, member_limit, review_limit};
ghost use Rattle.vet_desk.specs.DeskVerdict.{review_number_limit, still_open, wanted_rules, withdraw_rules};

use crate::command::{DeskCommand, Reviewed};
use crate::desk::Desk;
use crate::review::Review;
use vet_base::criteria_table::CriteriaTable;
use vet_base::limits::{LAST_NUMBER, MOST_MEMBERS, MOST_REVIEWS};
use vet_base::name::{Name, PackageName};
use vet_base::names::Names;
use vet_base::refusal::{Limit, Refusal};
use vet_base::version::VetVersion;
use vet_demand::demand::Demand;

/// The verdict on a command that is not refused.
#[derive(Clone, Copy, PartialEq, Eq)]
pub enum DeskAnswer {
    /// The member or assignment that the command adds is held already.
    Already,
    /// The command is accepted.
    Accepted,
}

impl Desk {
    /// The verdict on a command, with these criteria and this demand. Refused, the first that applies: `TooLarge` of
    /// `members`, `reviews` or `number`; `UnknownCriterion`, `UnknownMember`, `UnknownReview`; `ReviewClosed`,
    /// `NotYours`, `WrongTarget`, `NotDemanded`. `NoMemory` comes only in place of `UnknownCriterion`.
    pub fn judge(
        &self,
        command: &DeskCommand,
        criteria: &CriteriaTable,
        demand: &Demand,
    ) -> Result<DeskAnswer, Refusal>
        ensures { Answers (desk_verdict criteria.now demand.now self.now.content command.now) result }
    {
        if self.is_held(command) {
            return Ok(DeskAnswer::Already);
        }
        self.check_limits(command)?;
        self.check_number(command)?;
        self.check_references(command, criteria)?;
        self.check_rules(command, demand)?;
        Ok(DeskAnswer::Accepted)
    }

    /// Whether the member or assignment that a command would add is held already. Takes no memory.
    pub fn is_held(&self, command: &DeskCommand) -> bool
        ensures { result ≡ desk_held self.now.content command.now }
    {
        match command {
            DeskCommand::AddMember(name) => self.has_member(name),
            DeskCommand::AssignReview { review, member } => self.is_assigned(*review, member),
            _ => false,
        }
    }

    /// Checks that one more member or review is within the limit. Refused: `TooLarge` of `members` past 1,000, or of
    /// `reviews` past 100,000.
    pub fn check_limits(&self, command: &DeskCommand) -> Result<(), Refusal>
        ensures { result ≡ desk_limits self.now.content command.now }
    {
        match command {
            DeskCommand::AddMember(_) => self.check_member_limit(),
            DeskCommand::OpenReview { .. } => self.check_review_limit(),
            _ => Ok(()),
        }
    }

    /// Checks that there is a number for a review to be opened. Refused: `TooLarge` of `number` past 2^63 - 2.
    pub fn check_number(&self, command: &DeskCommand) -> Result<(), Refusal>
        ensures { result ≡ desk_number self.now.content command.now }
    {
        match command {
            DeskCommand::OpenReview { .. } => self.check_number_limit(),
            _ => Ok(()),
        }
    }

    /// Checks that everything that a command refers to is held. Refused: `UnknownCriterion` with the least name that
    /// the table lacks, or `NoMemory` in its place; `UnknownMember`, then `UnknownReview`.
    pub fn check_references(
        &self,
        command: &DeskCommand,
        table: &CriteriaTable,
    ) -> Result<(), Refusal>
        ensures { Answers (desk_references table.now self.now.content command.now) result }
    {
        match command {
            DeskCommand::AddMember(_) => Ok(()),
            DeskCommand::OpenReview { criteria, .. } => check_known(table.least_unknown(criteria)),
            DeskCommand::AssignReview { review, member } => self.check_both(*review, member),
            DeskCommand::FinishReview { review, member, .. } => self.check_both(*review, member),
            DeskCommand::WithdrawReview { review, member } => self.check_both(*review, member),
        }
    }

    /// Checks that a review to be opened is of demanded pairs, and that one to be changed is open and this member may
    /// change it. A review that is not held is not checked. Refused, the first that applies: `ReviewClosed`,
    /// `NotYours`, `WrongTarget`; for a review to be opened, `NotDemanded`.
    pub fn check_rules(&self, command: &DeskCommand, demand: &Demand) -> Result<(), Refusal>
        ensures { result ≡ desk_rules demand.now self.now.content command.now }
    {
        match command {
            DeskCommand::AddMember(_) => Ok(()),
            DeskCommand::OpenReview {
                package,
                version,
                criteria,
            } => check_demanded(demand, package, version, criteria),
            DeskCommand::AssignReview { review, .. } => check_open(self.review(*review)),
            DeskCommand::FinishReview {
                review,
                member,
                reviewed,
            } => check_finish(self.review(*review), member, reviewed),
            DeskCommand::WithdrawReview { review, member } => {
                check_withdrawal(self.review(*review), member)
            }
        }
    }

    // Whether the review of a number is assigned to a member.
    fn is_assigned(&self, number: u64, member: &Name) -> bool
        ensures { result ≡ is_assigned_review self.now.content.reviews number member.now }
    {
        match self.review(number) {
            Some(review) => review.state.is_assigned_to(member),
            None => false,
        }
    }

    fn check_member_limit(&self) -> Result<(), Refusal>
        ensures { result ≡ member_limit self.now.content }
    {
        if self.members().len() >= MOST_MEMBERS {
            return Err(Refusal::TooLarge(Limit::Members));
        }
        Ok(())
    }

    fn check_review_limit(&self) -> Result<(), Refusal>
        ensures { result ≡ review_limit self.now.content }
    {
        if self.reviews().len() >= MOST_REVIEWS {
            return Err(Refusal::TooLarge(Limit::Reviews));
        }
        Ok(())
    }

    fn check_number_limit(&self) -> Result<(), Refusal>
        ensures { result ≡ review_number_limit self.now.content }
    {
        if self.next_review() > LAST_NUMBER {
            return Err(Refusal::TooLarge(Limit::Number));
        }
        Ok(())
    }

    // Checks that a member and a review are held.
    fn check_both(&self, number: u64, member: &Name) -> Result<(), Refusal>
        ensures { result ≡ both_held self.now.content number member.now }
    {
        if !self.has_member(member) {
            return Err(Refusal::UnknownMember);
        }
        if self.review(number).is_none() {
            return Err(Refusal::UnknownReview);
        }
        Ok(())
    }
}

// Refuses an unknown name.
fn check_known(unknown: Option<&Name>) -> Result<(), Refusal>
    ensures { Answers (known (option_copied unknown.entry)) result }
{
    match unknown {
        Some(name) => Err(Refusal::UnknownCriterion(name.clone()?)),
        None => Ok(()),
    }
}

fn check_demanded(
    demand: &Demand,
    package: &PackageName,
    version: &VetVersion,
    criteria: &Names,
) -> Result<(), Refusal>
    ensures { result ≡ wanted_rules demand.now «package».now version.now criteria.now }
{
    if !are_demanded(demand, package, version, criteria) {
        return Err(Refusal::NotDemanded);
    }
    Ok(())
}

// Whether a version of a package is demanded for each of some criteria, of which there must be at least one.
fn are_demanded(
    demand: &Demand,
    package: &PackageName,
    version: &VetVersion,
    criteria: &Names,
) -> bool
    ensures { result ≡ are_demanded demand.now «package».now version.now criteria.now }
{
    let names = criteria.as_slice();
    !names.is_empty() && all_demanded(demand, package, version, names)
}

fn all_demanded(
    demand: &Demand,
    package: &PackageName,
    version: &VetVersion,
    names: &[Name],
) -> bool
    ensures { result ≡ list_all (is_demanded demand.now «package».now version.now) names.now }
{
    names
        .iter()
        .all(|name| is_demanded(demand, package, version, name))
}

// Whether a version of a package is demanded for a criterion.
fn is_demanded(
    demand: &Demand,
    package: &PackageName,
    version: &VetVersion,
    criterion: &Name,
) -> bool
    ensures { result ≡ is_demanded demand.now «package».now version.now criterion.now }
{
    demand.contains(package, version, criterion)
}

// Checks that a review that is held is not closed.
fn check_open(review: Option<&Review>) -> Result<(), Refusal>
    ensures { result ≡ asked_of still_open (option_copied review.entry) }
{
    match review {
        Some(review) => still_open(review),
        None => Ok(()),
    }
}

fn still_open(review: &Review) -> Result<(), Refusal>
    ensures { result ≡ still_open review.now }
{
    if review.state.is_closed() {
        return Err(Refusal::ReviewClosed);
    }
    Ok(())
}

// Checks that a member who reviewed this may finish a review that is held.
fn check_finish(review: Option<&Review>, member: &Name, reviewed: &Reviewed) -> Result<(), Refusal>
    ensures { result ≡ asked_of (finish_rules member.now reviewed.now) (option_copied review.entry) }
{
    let Some(review) = review else {
        return Ok(());
    };
    still_open(review)?;
    if !review.state.is_assigned_to(member) {
        return Err(Refusal::NotYours);
    }
    if *reviewed.target() != review.version {
        return Err(Refusal::WrongTarget);
    }
    Ok(())
}

// Checks that a member may withdraw a review that is held.
fn check_withdrawal(review: Option<&Review>, member: &Name) -> Result<(), Refusal>
    ensures { result ≡ asked_of (withdraw_rules member.now) (option_copied review.entry) }
{
    let Some(review) = review else {
        return Ok(());
    };
    still_open(review)?;
    if review.state.is_anothers(member) {
        return Err(Refusal::NotYours);
    }
    Ok(())
}
