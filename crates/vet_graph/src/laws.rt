//! Laws of classes, standings and moves, for callers to cite. Each law is a function that does nothing.
ghost use Rattle.vet_entries.specs.Facts.{no_facts};
ghost use Rattle.vet_graph.specs.ClassAt.{ClassHolds, ClassIsOnly};
ghost use Rattle.vet_graph.specs.Moves.{ArrivalsAdd, DeparturesAdd, MovesAreDifferences, MovesBalance};
ghost use Rattle.vet_graph.specs.Standing.{ClassesAddUp};
ghost use Rattle.vet_graph.specs.StandingOf.{NoneIsVetted, PairClassHolds, PairClassIsOnly, PairsStandAtTheirClass};
ghost use Rattle.vet_graph.specs.Touched.{GiveNothing};

/// The class that the definition gives is the first that applies, and no other class is.
pub fn class_is_first_that_holds()
    ensures first { ClassHolds }
    ensures only { ClassIsOnly }
{}

/// The class of each pair by any facts is the first that applies, and no other class is. The standing of a demand has
/// exactly the demanded pairs, each with its class.
pub fn each_pair_has_its_class()
    ensures holds { PairClassHolds }
    ensures only { PairClassIsOnly }
    ensures stands { PairsStandAtTheirClass }
{}

/// If there are no facts, there are no steps, no version is condemned, and each pair is Unvetted.
pub fn nothing_vets_nothing()
    ensures vets { NoneIsVetted no_facts }
    ensures gives { GiveNothing no_facts }
{}

/// The five counts of a standing add up to the number of its pairs.
pub fn classes_add_up()
    ensures { ClassesAddUp }
{}

/// The number of pairs in a class after a change, plus the departures, is the number before it, plus the arrivals.
pub fn moves_balance()
    ensures { MovesBalance }
{}

/// If both standings are in order, the moves between them are the pairs at which they differ, each once,
/// in order, with both classes.
pub fn moves_are_differences()
    ensures { MovesAreDifferences }
{}

/// The arrivals of two lists of moves add up, and so do the departures.
pub fn runs_of_moves_add()
    ensures arrivals { ArrivalsAdd }
    ensures departures { DeparturesAdd }
{}
