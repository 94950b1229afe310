//! The steps that a search for chains skips.
ghost use Rattle.std.specs.Prelude.{◌≡◌};
ghost use Rattle.vet_graph.specs.Search.{may_take};

use vet_base::version::VetVersion;
use vet_entries::step::Step;

/// The steps that a search skips.
#[derive(Clone, Copy)]
pub enum Skip<'v> {
    Nothing,
    /// The exempt steps.
    Exempt,
    /// The exempt steps to a version.
    ExemptTo(&'v VetVersion),
}

/// Whether a search that skips these takes a step.
pub fn may_take(skip: &Skip<'_>, step: &Step) -> bool
    ensures { result ≡ may_take skip.now step.now }
{
    match skip {
        Skip::Nothing => true,
        Skip::Exempt => !step.exempt,
        Skip::ExemptTo(version) => !(step.exempt && step.target == **version),
    }
}
