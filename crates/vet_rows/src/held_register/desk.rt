//! Reviews, recorded moves and the settings of the tool can be held.
ghost use Rattle.vet_item_rows.specs.HeldValues.{IsReview, IsReviewState};
ghost use Rattle.vet_rows.specs.HeldValues.{AreSettings, IsRecordedMove};

use crate::held_register::can_be_held::CanBeHeld;
use vet_desk::review::{Review, ReviewState};
use vet_register::moves::RecordedMove;
use vet_register::tool_settings::ToolSettings;

impl CanBeHeld for ReviewState {
    ghost can_be_held = { IsReviewState };

    fn is_held(&self) {
        match self {
            ReviewState::Waiting => {}
            ReviewState::Assigned(member) => member.is_held(),
            ReviewState::Finished(_) => {}
            ReviewState::Withdrawn => {}
        }
    }
}

impl CanBeHeld for Review {
    ghost can_be_held = { IsReview };

    fn is_held(&self) {
        self.package.is_held();
        self.version.is_held();
        self.criteria.is_held();
        self.day.is_held();
        self.state.is_held();
    }
}

impl CanBeHeld for RecordedMove {
    ghost can_be_held = { IsRecordedMove };

    fn is_held(&self) {
        self.day.is_held();
        self.change.pair.is_held();
    }
}

impl CanBeHeld for ToolSettings {
    ghost can_be_held = { AreSettings };

    fn is_held(&self) {
        self.vet_version.is_held();
        self.default_criteria.is_held();
    }
}
