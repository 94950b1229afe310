//! Lines that compare versions and requirements.
//!
//! `order VERSION VERSION` prints how the two compare, `matches REQUIREMENT VERSION` whether the one matches the other,
//! and `equal REQUIREMENT REQUIREMENT` whether a copy of the one is the other.

use crate::fault::Fault;
use crate::line::two;
use std::alloc::Global;
use std::cmp::Ordering;
use vet_base::req::Req;
use vet_base::version::VetVersion;

/// How two versions compare.
pub fn order(alloc: Global, texts: &[String]) -> Result<String, Fault> {
    let (first, second) = two(texts)?;
    let first = VetVersion::parse(alloc, first)?;
    let second = VetVersion::parse(alloc, second)?;
    let word = order_word(first.cmp(&second), first == second);
    Ok(String::from_str(alloc, word)?)
}

/// Whether a requirement matches a version.
pub fn matches(alloc: Global, texts: &[String]) -> Result<String, Fault> {
    let (req, version) = two(texts)?;
    let req = Req::parse(alloc, req)?;
    let matched = req.matches(&VetVersion::parse(alloc, version)?);
    Ok(matched.to_string(alloc)?)
}

/// Whether a copy of a requirement is another one.
pub fn equal(alloc: Global, texts: &[String]) -> Result<String, Fault> {
    let (first, second) = two(texts)?;
    let first = Req::parse(alloc, first)?.clone()?;
    let second = Req::parse(alloc, second)?;
    Ok((first == second).to_string(alloc)?)
}

/// The word for how two values compare, of which is said whether they are equal.
pub fn order_word(order: Ordering, is_equal: bool) -> &'static str {
    match (order, is_equal) {
        (Ordering::Less, false) => "less",
        (Ordering::Equal, true) => "equal",
        (Ordering::Greater, false) => "greater",
        _ => "in no order",
    }
}
