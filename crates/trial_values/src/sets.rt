//! Lines that ask for sets of criteria by their places.
//!
//! `sets PLACES OTHERS` prints what two sets hold, each given as a list of places with commas between them, or as `-`:
//! the first, the second, what is in either, in both, and in the first alone, each in brackets. After these come
//! `meets` if some place is in both, `exceeds` if some is in the first alone, and `empty` if the first has none.
ghost use Rattle.std.specs.Prelude.{◌<◌, IfOk};

use crate::fault::Fault;
use crate::line::two;
use crate::lists::push_in_brackets;
use crate::steps::push_behind;
use std::alloc::Global;
use vet_base::criteria_set::CriteriaSet;
use vet_base::limits::MOST_CRITERIA;

/// What two sets hold. Refused: `NotUnderstood` unless each text is `-` or a list of places below `MOST_CRITERIA`, and
/// `NoMemory`.
pub fn sets(alloc: Global, texts: &[String]) -> Result<String, Fault> {
    let (places, others) = two(texts)?;
    sets_text(alloc, &set_of(places)?, &set_of(others)?)
}

fn sets_text(alloc: Global, set: &CriteriaSet, other: &CriteriaSet) -> Result<String, Fault> {
    let mut told = String::new(alloc);
    push_places(alloc, &mut told, set)?;
    push_places(alloc, &mut told, other)?;
    push_places(alloc, &mut told, &set.union(other))?;
    push_places(alloc, &mut told, &set.common(other))?;
    push_places(alloc, &mut told, &set.less(other))?;
    push_if(&mut told, set.meets(other), "meets")?;
    push_if(&mut told, set.exceeds(other), "exceeds")?;
    push_if(&mut told, set.is_empty(), "empty")?;
    Ok(told)
}

// The set of the places that a text lists.
fn set_of(text: &str) -> Result<CriteriaSet, Fault> {
    let mut set = CriteriaSet::empty();
    if text == "-" {
        return Ok(set);
    }
    for word in text.split(',') {
        set = set.with(place_of(word)?);
    }
    Ok(set)
}

// The place that a text states, below `MOST_CRITERIA`.
fn place_of(text: &str) -> Result<usize, Fault>
    ensures { IfOk result (λ place. place < MOST_CRITERIA) }
{
    let Ok(place) = text.parse::<usize>() else {
        return Err(Fault::NotUnderstood);
    };
    if place >= MOST_CRITERIA {
        return Err(Fault::NotUnderstood);
    }
    Ok(place)
}

fn push_places(alloc: Global, told: &mut String, set: &CriteriaSet) -> Result<(), Fault> {
    let mut places = String::new(alloc);
    for place in 0..MOST_CRITERIA {
        if set.has(place) {
            push_behind(&mut places, ",", place.to_string(alloc)?.as_str())?;
        }
    }
    push_in_brackets(told, places.as_str())
}

fn push_if(told: &mut String, is_so: bool, word: &str) -> Result<(), Fault> {
    if !is_so {
        return Ok(());
    }
    push_behind(told, " ", word)
}
