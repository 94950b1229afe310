//! Commands to the desk.
ghost use Rattle.std.specs.Prelude.{◌≡◌};
ghost use Rattle.vet_desk.specs.DeskVerdict.{target_of};

use vet_base::delta::Delta;
use vet_base::name::{Name, PackageName};
use vet_base::names::Names;
use vet_base::version::VetVersion;

/// A command to the desk.
pub enum DeskCommand {
    /// Adds a member.
    AddMember(Name),
    /// Opens a review of a version of a package for some criteria. The same command again opens another.
    OpenReview {
        package: PackageName,
        version: VetVersion,
        criteria: Names,
    },
    /// Assigns the review of this number to a member, even if it is assigned to another.
    AssignReview {
        review: u64,
        member: Name,
    },
    /// Finishes the review of this number. Only the member to whom it is assigned can do so.
    FinishReview {
        review: u64,
        member: Name,
        reviewed: Reviewed,
    },
    /// Withdraws the review of this number. Any member can do so if it is waiting, otherwise only the one to whom it is
    /// assigned.
    WithdrawReview {
        review: u64,
        member: Name,
    },
}

impl Drop for DeskCommand {
    fn drop(self) {
        match self {
            DeskCommand::AddMember(_) => {}
            DeskCommand::OpenReview {
                package: _,
                version: _,
                criteria: _,
            } => {}
            DeskCommand::AssignReview {
                review: _,
                member: _,
            } => {}
            DeskCommand::FinishReview {
                review: _,
                member: _,
                reviewed: _,
            } => {}
            DeskCommand::WithdrawReview {
                review: _,
                member: _,
            } => {}
        }
    }
}

/// The version or delta that a member reviewed to finish a review.
pub enum Reviewed {
    /// This version, in full.
    Version(VetVersion),
    /// The change from one version to another.
    Delta(Delta),
}

impl Drop for Reviewed {
    fn drop(self) {
        match self {
            Reviewed::Version(_) => {}
            Reviewed::Delta(_) => {}
        }
    }
}

impl Reviewed {
    /// The version that was reviewed, or to which the change leads.
    pub fn target(&self) -> &VetVersion
        ensures { result.now ≡ target_of self.now }
    {
        match self {
            Reviewed::Version(version) => version,
            Reviewed::Delta(delta) => &delta.to,
        }
    }
}
