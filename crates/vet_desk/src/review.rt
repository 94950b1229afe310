//! Reviews and their states.
ghost use Rattle.std.specs.Prelude.{◌≡◌};
ghost use Rattle.std.specs.Cmp.{nat_cmp_total, on_total};
ghost use Rattle.std.specs.Ordering.{nat_cmp, on};
ghost use Rattle.vet_desk.specs.Review.{is_anothers, is_assigned_to, is_closed, is_open_beyond, is_open_for};
ghost use Rattle.vet_desk.specs.Review.{review_number};

use std::cmp::Ordering;
use vet_base::criteria_table::CriteriaTable;
use vet_base::day::Day;
use vet_base::name::{Name, PackageName};
use vet_base::names::Names;
use vet_base::ranked::Ranked;
use vet_base::version::VetVersion;

/// A version of a package that is to be reviewed for some criteria.
pub struct Review {
    pub number: u64,
    pub package: PackageName,
    pub version: VetVersion,
    pub criteria: Names,
    /// The day on which it was opened.
    pub day: Day,
    pub state: ReviewState,
}

impl Drop for Review {
    fn drop(self) {
        let Review {
            number: _,
            package: _,
            version: _,
            criteria: _,
            day: _,
            state: _,
        } = self;
    }
}

/// The state of a review. A finished or withdrawn review is closed: it does not change any more, and names no
/// member.
pub enum ReviewState {
    /// It is waiting, and assigned to nobody.
    Waiting,
    /// It is assigned to this member.
    Assigned(Name),
    /// It is finished, with the own entry of this number, which may have been dropped since.
    Finished(u64),
    /// It is withdrawn.
    Withdrawn,
}

impl Drop for ReviewState {
    fn drop(self) {
        match self {
            ReviewState::Waiting => {}
            ReviewState::Assigned(_) => {}
            ReviewState::Finished(_) => {}
            ReviewState::Withdrawn => {}
        }
    }
}

impl Ranked for Review {
    ghost rank_cmp = { on review_number nat_cmp };

    ghost rank_total = { on_total review_number nat_cmp_total };

    fn cmp_rank(&self, other: &Review) -> Ordering {
        self.number.cmp(&other.number)
    }
}

impl ReviewState {
    /// Whether the review is finished or withdrawn.
    pub fn is_closed(&self) -> bool
        ensures { result ≡ is_closed self.now }
    {
        match self {
            ReviewState::Waiting => false,
            ReviewState::Assigned(_) => false,
            ReviewState::Finished(_) => true,
            ReviewState::Withdrawn => true,
        }
    }

    /// Whether the review is assigned to this member.
    pub fn is_assigned_to(&self, name: &Name) -> bool
        ensures { result ≡ is_assigned_to name.now self.now }
    {
        match self {
            ReviewState::Assigned(member) => member == name,
            _ => false,
        }
    }

    /// Whether the review is assigned to a member other than this one.
    pub fn is_anothers(&self, name: &Name) -> bool
        ensures { result ≡ is_anothers name.now self.now }
    {
        match self {
            ReviewState::Assigned(member) => member != name,
            _ => false,
        }
    }
}

impl Review {
    /// Whether the review is not closed and names a criterion.
    pub fn is_open_for(&self, name: &Name) -> bool
        ensures { result ≡ is_open_for name.now self.now }
    {
        !self.state.is_closed() && self.criteria.contains(name)
    }

    /// Whether the review is not closed and names a criterion that a table lacks.
    pub fn is_open_beyond(&self, criteria: &CriteriaTable) -> bool
        ensures { result ≡ is_open_beyond criteria.now self.now }
    {
        !self.state.is_closed() && criteria.least_unknown(&self.criteria).is_some()
    }
}
