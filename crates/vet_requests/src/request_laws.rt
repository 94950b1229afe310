//! Laws of the definition of requests.
ghost use Rattle.vet_requests.specs.RequestLaws.{IsToldOnce};

/// The bytes of a connection have one answer: a request, or its first fault. The one exception is an input that goes on
/// after 16,384 bytes which end within a target and with which no head can begin: it is bad or too large. Does nothing.
#[tactic(auto, using(crate::proofs::ToldOnce::told_once))]
pub fn requests_are_told_once()
    ensures { IsToldOnce }
{}
