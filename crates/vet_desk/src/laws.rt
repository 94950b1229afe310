//! Laws of the desk, which follow from its definitions.
//!
//! **Only the member to whom a review is assigned finishes it, and a command leaves all other reviews as they were.**
ghost use Rattle.vet_desk.specs.DeskLaws.{DeskStaysSound, FinishedEntriesStayGiven, KnownIsNotBeyond, MemberIsAdded};
ghost use Rattle.vet_desk.specs.DeskLaws.{MembersStay, OnlyItsMemberFinishes, OpenCriteriaStayKnown};
ghost use Rattle.vet_desk.specs.DeskLaws.{OpenWaitsOrIsAssigned, OtherReviewsStay, ReviewChangesItsState};
ghost use Rattle.vet_desk.specs.DeskLaws.{UnnamedCriterionMayGo, WaitingOrOwnIsWithdrawn};

/// A name that is added is a member's, and nothing changes for any other name. Does nothing.
pub fn a_member_is_added()
    ensures added { MemberIsAdded }
    ensures others { MembersStay }
{}

/// The review of a number changes only in its state, and all other reviews stay as they are. Does nothing.
pub fn one_review_changes()
    ensures changed { ReviewChangesItsState }
    ensures others { OtherReviewsStay }
{}

/// A review is open exactly if it is waiting or assigned to a member. Only the member to whom it is assigned can finish
/// it, and only for its version. Any member can withdraw it if it is waiting, otherwise only that one. Does nothing.
pub fn a_review_is_its_members()
    ensures state { OpenWaitsOrIsAssigned }
    ensures finish { OnlyItsMemberFinishes }
    ensures withdraw { WaitingOrOwnIsWithdrawn }
{}

/// A sound desk is sound after each accepted command. Does nothing.
pub fn a_desk_stays_sound()
    ensures { DeskStaysSound }
{}

/// The criteria that open reviews name stay known after each accepted command, and after the removal of a criterion
/// that none of them names. A table knows them exactly if no open review names one that it lacks. Does nothing.
pub fn open_criteria_stay_known()
    ensures accepted { OpenCriteriaStayKnown }
    ensures unnamed { UnnamedCriterionMayGo }
    ensures beyond { KnownIsNotBeyond }
{}

/// The entries of finished reviews still have numbers below the next one after a command. Does nothing.
pub fn finished_entries_stay_given()
    ensures { FinishedEntriesStayGiven }
{}
