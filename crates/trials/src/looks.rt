//! How many looks at steps the keeper of `vetd` makes.
//!
//! The word `looks` takes a package. A register in memory that has this keeper is given what is on standard input, as
//! for the word `masks`. After each answer it prints a line `looks ALL OF`: how many looks were made by then, and how
//! many at the steps of the package since its searches last began again.

use std::alloc::Global;
use std::io;
use trial_registers::items::{NumberedItem, items_of};
use trial_registers::run::{How, give_all};
use trial_registers::setting::{behind_setting, limit_of};
use trial_values::ending::{Ending, refused};
use trial_values::fault::Fault;
use vet_base::name::PackageName;
use vet_masks::keeper::MaskKeeper;
use vet_register::register::Register;

/// Gives the items of a text to a register, and prints the answers with the looks until each.
pub fn run_looks(rt: &impl Print, alloc: Global, text: &str, package: &str) -> io::Result<Ending> {
    match items_of(alloc, text) {
        Ok(items) => give_items(rt, alloc, items.as_slice(), package),
        Err(fault) => refused(rt, &fault),
    }
}

fn give_items(
    rt: &impl Print,
    alloc: Global,
    items: &[NumberedItem<'_>],
    package: &str,
) -> io::Result<Ending> {
    match PackageName::parse(alloc, package) {
        Ok(package) => give_register(rt, alloc, items, &package),
        Err(refusal) => refused(rt, &Fault::Refused(refusal)),
    }
}

fn give_register(
    rt: &impl Print,
    alloc: Global,
    items: &[NumberedItem<'_>],
    package: &PackageName,
) -> io::Result<Ending> {
    match Register::<MaskKeeper>::new(alloc, limit_of(items)) {
        Ok(mut register) => give_each(rt, alloc, &mut register, items, package),
        Err(refusal) => refused(rt, &Fault::Refused(refusal)),
    }
}

fn give_each(
    rt: &impl Print,
    alloc: Global,
    register: &mut Register<MaskKeeper>,
    items: &[NumberedItem<'_>],
    package: &PackageName,
) -> io::Result<Ending> {
    let items = behind_setting(items);
    for place in 0..items.len() {
        let given = &items[place..place + 1];
        match give_all::<MaskKeeper, _>(rt, alloc, register, given, How::Singly)? {
            Ending::Whole => print_looks(rt, register.keeper(), package)?,
            ending => return Ok(ending),
        }
    }
    Ok(Ending::Whole)
}

fn print_looks(rt: &impl Print, keeper: &MaskKeeper, package: &PackageName) -> io::Result<()> {
    println!(rt;
        "looks {} {}",
        keeper.looks(),
        keeper.package_looks(package)
    )
}
