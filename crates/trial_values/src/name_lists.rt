//! Sets of names in words, or in a list with commas between them.

use std::alloc::Global;
use vet_base::name::Name;
use vet_base::names::Names;
use vet_base::refusal::Refusal;

/// The set of these names. Refused: `BadName`, and `NoMemory`.
pub fn names(alloc: Global, texts: &[String]) -> Result<Names, Refusal> {
    let mut names = Names::new(alloc);
    for text in texts {
        add_name(alloc, &mut names, text.as_str())?;
    }
    Ok(names)
}

/// The set of the names in a list with commas between them; an empty list has none. Refused: `BadName`, and `NoMemory`.
pub fn names_between_commas(alloc: Global, list: &str) -> Result<Names, Refusal> {
    let mut names = Names::new(alloc);
    for name in list.split(',') {
        if !name.is_empty() {
            add_name(alloc, &mut names, name)?;
        }
    }
    Ok(names)
}

fn add_name(alloc: Global, names: &mut Names, text: &str) -> Result<(), Refusal> {
    let name = Name::parse(alloc, text)?;
    Ok(names.insert(name)?)
}
