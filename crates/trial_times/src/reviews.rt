//! The commands to the review desk that are timed.

use crate::commands::{command, one_criterion};
use crate::project::{VERSION, package_name};
use std::alloc::Global;
use trial_values::fault::Fault;
use vet_base::delta::Delta;
use vet_base::name::Name;
use vet_base::version::VetVersion;
use vet_desk::command::{DeskCommand, Reviewed};
use vet_register::command::{Action, Command};

const MEMBER: &str = "ann";

// The criterion for which a project demands its packages.
const CRITERION: &str = "safe-to-run";

/// Adds the member.
pub fn add_member(alloc: Global) -> Result<Command, Fault> {
    command(Action::Desk(DeskCommand::AddMember(member(alloc)?)))
}

/// Opens a review of the demanded version.
pub fn open_review(alloc: Global) -> Result<Command, Fault> {
    command(Action::Desk(DeskCommand::OpenReview {
        package: package_name(alloc, 0)?,
        version: VetVersion::parse(alloc, VERSION)?,
        criteria: one_criterion(alloc, CRITERION)?,
    }))
}

/// Assigns a review to the member.
pub fn assign_review(alloc: Global, review: u64) -> Result<Command, Fault> {
    let member = member(alloc)?;
    command(Action::Desk(DeskCommand::AssignReview { review, member }))
}

/// Withdraws a review.
pub fn withdraw_review(alloc: Global, review: u64) -> Result<Command, Fault> {
    let member = member(alloc)?;
    command(Action::Desk(DeskCommand::WithdrawReview { review, member }))
}

/// Finishes a review by its version. The first such one adds an entry, and each later one gets the number of that
/// entry.
pub fn finish_in_full(alloc: Global, review: u64) -> Result<Command, Fault> {
    let version = VetVersion::parse(alloc, VERSION)?;
    finish_review(alloc, review, Reviewed::Version(version))
}

/// Finishes a review by a delta that no other round has, which adds an entry.
pub fn finish_by_delta(alloc: Global, review: u64, round: usize) -> Result<Command, Fault> {
    let from = format!(in alloc; "0.{round}.0")?;
    let delta = Delta {
        from: VetVersion::parse(alloc, from.as_str())?,
        to: VetVersion::parse(alloc, VERSION)?,
    };
    finish_review(alloc, review, Reviewed::Delta(delta))
}

fn finish_review(alloc: Global, review: u64, reviewed: Reviewed) -> Result<Command, Fault> {
    let member = member(alloc)?;
    command(Action::Desk(DeskCommand::FinishReview {
        review,
        member,
        reviewed,
    }))
}

fn member(alloc: Global) -> Result<Name, Fault> {
    Ok(Name::parse(alloc, MEMBER)?)
}
