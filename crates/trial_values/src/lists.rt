//! Lines that ask for lists of names and texts that are made at once, or by edits.
//!
//! `names-of [NAME ..]`, `packages-of [NAME ..]` and `texts-of [TEXT ..]` make the set of these, in any order, and
//! print its members, each in brackets. `pairs-of [PACKAGE,VERSION,CRITERION ..]` prints the demand of such
//! pairs in the same way. `edited [+NAME ..] [-NAME ..]` sets and drops names one by one, each by an edit that is made,
//! undone and made again, and prints the names that are left. `touched [NAME ..]` prints the packages of a copy of
//! those touched.

ghost use Rattle.vet_base.specs.Keyed.{Fits};

use crate::fault::Fault;
use std::alloc::Global;
use std::fmt::Display;
use vet_base::keyed::{HasKey, Keyed, KeyedEdit};
use vet_base::name::{Name, PackageName};
use vet_base::names::Names;
use vet_base::package_names::PackageNames;
use vet_base::text::Text;
use vet_base::texts::Texts;
use vet_base::version::VetVersion;
use vet_demand::demand::Demand;
use vet_demand::pair::Pair;
use vet_graph::touched::Touched;

/// The set of some names. Refused: `BadName`, and `NoMemory`.
pub fn names_of(alloc: Global, texts: &[String]) -> Result<String, Fault> {
    let mut names = Vec::new(alloc);
    for text in texts {
        names.push(Name::parse(alloc, text.as_str())?)?;
    }
    in_brackets(alloc, Names::of(alloc, names)?.as_slice())
}

/// The set of some packages' names. Refused: `BadName`, and `NoMemory`.
pub fn packages_of(alloc: Global, texts: &[String]) -> Result<String, Fault> {
    let names = packages(alloc, texts)?;
    in_brackets(alloc, PackageNames::of(alloc, names)?.as_slice())
}

/// The set of some texts. Refused: `TooLarge`, and `NoMemory`.
pub fn texts_of(alloc: Global, texts: &[String]) -> Result<String, Fault> {
    let mut items = Vec::new(alloc);
    for text in texts {
        items.push(Text::parse(alloc, text.as_str())?)?;
    }
    in_brackets(alloc, Texts::of(alloc, items)?.as_slice())
}

/// The demand of some pairs. Refused: what their texts are refused for, and `NoMemory`.
pub fn pairs_of(alloc: Global, texts: &[String]) -> Result<String, Fault> {
    let mut pairs = Vec::new(alloc);
    for text in texts {
        pairs.push(pair(alloc, text.as_str())?)?;
    }
    pairs_text(alloc, Demand::of_pairs(alloc, pairs)?.pairs())
}

/// The pair that a text `PACKAGE,VERSION,CRITERION` is. Refused: what its parts are refused for, and `NoMemory`.
pub fn pair(alloc: Global, text: &str) -> Result<Pair, Fault> {
    let Some((package, rest)) = text.split_once(',') else {
        return Err(Fault::NotUnderstood);
    };
    let Some((version, criterion)) = rest.split_once(',') else {
        return Err(Fault::NotUnderstood);
    };
    Ok(Pair {
        package: PackageName::parse(alloc, package)?,
        version: VetVersion::parse(alloc, version)?,
        criterion: Name::parse(alloc, criterion)?,
    })
}

/// What edits leave of a list of names. Refused: `BadName`, and `NoMemory`.
pub fn edited(alloc: Global, texts: &[String]) -> Result<String, Fault> {
    let mut names = Keyed::new(alloc);
    for text in texts {
        edit(alloc, &mut names, text.as_str())?;
    }
    in_brackets(alloc, names.items())
}

/// The packages of a copy of those touched. Refused: `BadName`, and `NoMemory`.
pub fn touched(alloc: Global, texts: &[String]) -> Result<String, Fault> {
    let touched = Touched::Packages(inserted(alloc, texts)?);
    match &touched.clone()? {
        Touched::All => Err(Fault::NotUnderstood),
        Touched::Packages(names) => in_brackets(alloc, names.as_slice()),
    }
}

// The set of some packages' names, each added by itself.
fn inserted(alloc: Global, texts: &[String]) -> Result<PackageNames, Fault> {
    let mut names = PackageNames::new(alloc);
    for text in texts {
        names.insert(PackageName::parse(alloc, text.as_str())?)?;
    }
    Ok(names)
}

/// Some packages' names, in their order. Refused: `BadName`, and `NoMemory`.
pub fn packages(alloc: Global, texts: &[String]) -> Result<Vec<PackageName>, Fault> {
    let mut names = Vec::new(alloc);
    for text in texts {
        names.push(PackageName::parse(alloc, text.as_str())?)?;
    }
    Ok(names)
}

fn pairs_text(alloc: Global, pairs: &[Pair]) -> Result<String, Fault> {
    let mut told = String::new(alloc);
    for pair in pairs {
        let text = format!(in alloc; "{} {} {}", pair.package, pair.version, pair.criterion)?;
        push_in_brackets(&mut told, text.as_str())?;
    }
    Ok(told)
}

// Sets or drops a name.
fn edit(alloc: Global, names: &mut Keyed<Name>, text: &str) -> Result<(), Fault> {
    if let Some(name) = text.strip_prefix("+") {
        let name = Name::parse(alloc, name)?;
        names.reserve()?;
        let edit = names.edit_setting(name);
        make_twice(names, edit);
        return Ok(());
    }
    let Some(name) = text.strip_prefix("-") else {
        return Err(Fault::NotUnderstood);
    };
    let name = Name::parse(alloc, name)?;
    if let Some(edit) = names.edit_dropping(&name) {
        make_twice(names, edit);
    }
    Ok(())
}

// Makes an edit, undoes it, and makes it again.
fn make_twice<T: HasKey>(items: &mut Keyed<T>, edit: KeyedEdit<T>)
    requires { Fits T.Key.cmp T.key_of edit items.old }
{
    let undo = items.apply(edit);
    let again = items.apply(undo);
    let _ = items.apply(again);
}

/// Some values as they are printed, each in brackets. Refused: `NoMemory`.
pub fn in_brackets<T: Display + Drop>(alloc: Global, items: &[T]) -> Result<String, Fault> {
    let mut told = String::new(alloc);
    for item in items {
        push_printed(alloc, &mut told, item)?;
    }
    Ok(told)
}

fn push_printed<T: Display>(alloc: Global, told: &mut String, item: &T) -> Result<(), Fault> {
    let text = item.to_string(alloc)?;
    push_in_brackets(told, text.as_str())
}

/// Adds a text in brackets. Refused: `NoMemory`.
pub fn push_in_brackets(told: &mut String, text: &str) -> Result<(), Fault> {
    told.push_str("[")?;
    told.push_str(text)?;
    told.push_str("]")?;
    Ok(())
}
