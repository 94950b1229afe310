//! The project that demands one pair of each of some packages, and those that tables state.

use std::alloc::Global;
use trial_values::fault::Fault;
use vet_base::name::PackageName;
use vet_base::refusal::Refusal;
use vet_demand::project::NamedProject;
use vet_demand::table_reader::read_project;

/// The version that is demanded of each package, and that its own entry vouches for.
pub const VERSION: &str = "1.0.0";

const PROJECT: &str = "app";

const FIRST_RECORDS: &str = "what,n,p,q,r\nnode,0,app,0.1.0,root\n";

/// A project whose tests depend on so many packages: each is demanded for `safe-to-run`. Refused: `TooLarge` with as
/// many packages as a project may have nodes, and `NoMemory`.
pub fn project_of(alloc: Global, count: usize) -> Result<NamedProject, Fault> {
    let table = table_of(alloc, count)?;
    Ok(NamedProject {
        name: PackageName::parse(alloc, PROJECT)?,
        project: read_project(alloc, table.as_bytes())?,
    })
}

/// The project that a dependency table states, named by its place.
pub fn stated_project(alloc: Global, place: usize, table: &str) -> Result<NamedProject, Fault> {
    let name = format!(in alloc; "project-{place}")?;
    Ok(NamedProject {
        name: PackageName::parse(alloc, name.as_str())?,
        project: read_project(alloc, table.as_bytes())?,
    })
}

/// The name of the package at a place.
pub fn package_name(alloc: Global, place: usize) -> Result<PackageName, Refusal> {
    let name = format!(in alloc; "package-{place}")?;
    PackageName::parse(alloc, name.as_str())
}

// Its dependency table, in which the root has the number 0.
fn table_of(alloc: Global, count: usize) -> Result<String, Fault> {
    let mut table = String::from_str(alloc, FIRST_RECORDS)?;
    for place in 0..count {
        let number = place + 1;
        let records = format!(in alloc;
            "node,{number},package-{place},{VERSION},third\nedge,0,{number},dev,\n"
        )?;
        table.push_str(records.as_str())?;
    }
    Ok(table)
}
