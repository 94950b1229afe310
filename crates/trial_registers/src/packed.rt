//! Lines that ask for packed lists: `packed [TEXT ..]` prints the packed list of these texts, and `unpacked TEXT` the
//! items of a packed list, each in brackets, or that the text is not one. `packed-names`, `packed-packages`,
//! `unpacked-names` and `unpacked-packages` do the same with sets of names.

use std::alloc::Global;
use trial_values::fault::Fault;
use trial_values::line::one;
use trial_values::lists::{in_brackets, packages, push_in_brackets};
use trial_values::name_lists::names;
use vet_base::package_names::PackageNames;
use vet_item_rows::packed::{push_item, read_items};
use vet_item_rows::packed_names::{pack_names, pack_packages, unpack_names, unpack_packages};

/// Whether a line asks for a packed list.
pub fn is_packed(line: &str) -> bool {
    line.starts_with("packed") || line.starts_with("unpacked")
}

/// The answer to a line of these words. Refused: what its texts are refused for, and `NoMemory`.
pub fn packed_value(alloc: Global, words: &[String]) -> Result<String, Fault> {
    let [word, texts @ ..] = words else {
        return Err(Fault::NotUnderstood);
    };
    match word.as_str() {
        "packed" | "packed-names" | "packed-packages" => packed(alloc, word.as_str(), texts),
        "unpacked" => unpacked(alloc, one(texts)?),
        "unpacked-names" => unpacked_names(alloc, one(texts)?),
        "unpacked-packages" => unpacked_packages(alloc, one(texts)?),
        _ => Err(Fault::NotUnderstood),
    }
}

// The packed list of some texts, or of a set of names. Refused: `BadName`, and `NoMemory`.
fn packed(alloc: Global, word: &str, texts: &[String]) -> Result<String, Fault> {
    match String::from_utf8(bytes_packed(alloc, word, texts)?) {
        Ok(text) => Ok(text),
        Err(_) => Err(Fault::NotUnderstood),
    }
}

fn bytes_packed(alloc: Global, word: &str, texts: &[String]) -> Result<Vec<u8>, Fault> {
    match word {
        "packed-names" => packed_names(alloc, texts),
        "packed-packages" => packed_packages(alloc, texts),
        _ => packed_texts(alloc, texts),
    }
}

fn packed_names(alloc: Global, texts: &[String]) -> Result<Vec<u8>, Fault> {
    let names = names(alloc, texts)?;
    Ok(pack_names(alloc, &names)?)
}

fn packed_packages(alloc: Global, texts: &[String]) -> Result<Vec<u8>, Fault> {
    let packages = PackageNames::of(alloc, packages(alloc, texts)?)?;
    Ok(pack_packages(alloc, &packages)?)
}

fn packed_texts(alloc: Global, texts: &[String]) -> Result<Vec<u8>, Fault> {
    let mut bytes = Vec::new(alloc);
    for text in texts {
        push_item(alloc, &mut bytes, text.as_str().as_bytes())?;
    }
    Ok(bytes)
}

// The items of a packed list, each in brackets, or `none`. Refused: `NoMemory`.
fn unpacked(alloc: Global, text: &str) -> Result<String, Fault> {
    match read_items(alloc, text.as_bytes())? {
        Some(items) => items_in_brackets(alloc, items.as_slice()),
        None => Ok("none".to_string(alloc)?),
    }
}

fn items_in_brackets(alloc: Global, items: &[&[u8]]) -> Result<String, Fault> {
    let mut told = String::new(alloc);
    for item in items {
        match str::from_utf8(*item) {
            Ok(text) => push_in_brackets(&mut told, text)?,
            Err(_) => return Err(Fault::NotUnderstood),
        }
    }
    Ok(told)
}

// The set of the names in a packed list, or `none`. Refused: `NoMemory`.
fn unpacked_names(alloc: Global, text: &str) -> Result<String, Fault> {
    match unpack_names(alloc, text.as_bytes())? {
        Some(names) => in_brackets(alloc, names.as_slice()),
        None => Ok("none".to_string(alloc)?),
    }
}

// The set of the packages in a packed list, or `none`. Refused: `NoMemory`.
fn unpacked_packages(alloc: Global, text: &str) -> Result<String, Fault> {
    match unpack_packages(alloc, text.as_bytes())? {
        Some(packages) => in_brackets(alloc, packages.as_slice()),
        None => Ok("none".to_string(alloc)?),
    }
}
