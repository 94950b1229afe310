//! Steps, and the criteria for which their targets are condemned.

use vet_base::criteria_set::CriteriaSet;
use vet_entries::step::Step;

/// A step, and the criteria for which the version to which it leads is condemned.
pub struct GuardedStep {
    pub step: Step,
    /// These criteria, by their places in the table.
    pub condemned: CriteriaSet,
}

impl Drop for GuardedStep {
    fn drop(self) {
        let GuardedStep {
            step: _,
            condemned: _,
        } = self;
    }
}
