//! Laws on the verdicts, for callers to cite: each law is a function that does nothing.
//!
//! **The verdict on an import is that its content is held already exactly if its criteria and entries are those held of
//! the peer, in any order. So after an import the same content changes nothing. Likewise three files change nothing
//! exactly if they say what is held apart from own exemptions with a last day, each list in any order.**
//!
//! **For a review that is opened, too many reviews are found first, then the step, then its number, and then what it
//! refers to; for one that is finished, what it refers to comes first. A period that is closed is checked only for its
//! step.**
ghost use Rattle.vet_register.specs.RepeatedFiles.{HeldFilesAreAlready, RepeatedFilesAreAlready};
ghost use Rattle.vet_register.specs.Repeats.{HeldContentIsAlready, RepeatedImportIsAlready};
ghost use Rattle.vet_register.specs.ToldInOrder.{FinishedIsHeldBeforeStep, NumberBeforeCriteria, PeriodAsksForStep};
ghost use Rattle.vet_register.specs.ToldInOrder.{ReviewsBeforeStep, StepBeforeNumber};
ghost use Rattle.vet_register.specs.Untouched.{UntouchedClassesStay, UntouchedStays};

/// An import from a held peer changes nothing exactly if its criteria and its entries are those held, in any order.
pub fn held_content_is_already()
    ensures { HeldContentIsAlready }
{}

/// After an import, an import of the same criteria and the same entries, in any order, changes nothing.
pub fn repeated_import_is_already()
    ensures { RepeatedImportIsAlready }
{}

/// Files change nothing exactly if they say what is held, each list in any order, and nothing else is held except
/// projects and own exemptions with a last day.
pub fn held_files_are_already()
    ensures { HeldFilesAreAlready }
{}

/// After three files were loaded, files that say the same, each list in any order, change nothing.
pub fn repeated_files_are_already()
    ensures { RepeatedFilesAreAlready }
{}

/// Outside of the packages that a command touches, the steps, the condemned versions and the demanded pairs stay, and
/// unless it touches all of them, the criteria stay too. So the classes of their pairs stay.
pub fn untouched_stays()
    ensures depends { UntouchedStays }
    ensures classes { UntouchedClassesStay }
{}

/// The order in which the faults of a review that is opened, or finished, are found.
pub fn reviews_are_told_in_order()
    ensures reviews { ReviewsBeforeStep }
    ensures step { StepBeforeNumber }
    ensures number { NumberBeforeCriteria }
    ensures finished { FinishedIsHeldBeforeStep }
{}

/// The verdict on closing a period depends only on the limit of steps.
pub fn a_period_asks_for_its_step()
    ensures { PeriodAsksForStep }
{}
