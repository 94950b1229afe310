//! The commands that are timed.

use crate::project::{VERSION, package_name, project_of, stated_project};
use std::alloc::Global;
use trial_values::fault::Fault;
use vet_base::criterion::Criterion;
use vet_base::day::Day;
use vet_base::name::Name;
use vet_base::names::Names;
use vet_base::package_names::PackageNames;
use vet_base::text::Text;
use vet_base::texts::Texts;
use vet_base::version::VetVersion;
use vet_entries::criteria_map::CriteriaMap;
use vet_entries::entry::{Entry, Source};
use vet_entries::kind::{Audit, Kind};
use vet_entries::peer_content::PeerContent;
use vet_entries::peer_settings::PeerSettings;
use vet_files::files_content::FilesContent;
use vet_register::command::{Action, Command};

// The day of each command except SetDay.
const DAY: &str = "2024-05-01";

const PEER: &str = "harbour";

const OTHER_PEER: &str = "unused";

// The criterion of the own entries.
const CRITERION: &str = "safe-to-deploy";

const OTHER_CRITERION: &str = "unused";

/// Sets another peer, from which nothing is imported, with a url of its own: everything is planned again by the same
/// demand, and nothing else is done.
pub fn set_other_peer(alloc: Global, round: usize, place: usize) -> Result<Command, Fault> {
    let url = Text::parse(alloc, format!(in alloc; "{round} {place}")?.as_str())?;
    let mut settings = settings_of(alloc, OTHER_PEER)?;
    settings.url.insert(url)?;
    command(Action::SetPeer(settings))
}

/// Sets the peer, without a map.
pub fn set_peer(alloc: Global) -> Result<Command, Fault> {
    command(Action::SetPeer(settings_of(alloc, PEER)?))
}

// The settings of a peer that say nothing.
fn settings_of(alloc: Global, name: &str) -> Result<PeerSettings, Fault> {
    Ok(PeerSettings {
        name: Name::parse(alloc, name)?,
        url: Texts::new(alloc),
        exclude: PackageNames::new(alloc),
        map: CriteriaMap::new(alloc),
    })
}

/// Drops the peer.
pub fn drop_peer(alloc: Global) -> Result<Command, Fault> {
    command(Action::DropPeer(Name::parse(alloc, PEER)?))
}

/// Imports a content from the peer.
pub fn import_peer(alloc: Global, content: PeerContent) -> Result<Command, Fault> {
    command(Action::ImportPeer(Name::parse(alloc, PEER)?, content))
}

/// Loads the project that demands a version of each of so many packages.
pub fn load_project(alloc: Global, count: usize) -> Result<Command, Fault> {
    command(Action::LoadProject(project_of(alloc, count)?))
}

/// Loads the project that a dependency table states.
pub fn load_table(alloc: Global, place: usize, table: &str) -> Result<Command, Fault> {
    command(Action::LoadProject(stated_project(alloc, place, table)?))
}

/// Replaces what is held by what files hold.
pub fn replace_files(files: FilesContent) -> Result<Command, Fault> {
    command(Action::ReplaceFiles(files))
}

/// Sets another criterion, which nothing names: the demand is computed and everything is planned again, and nothing
/// else is done.
pub fn set_criterion(alloc: Global) -> Result<Command, Fault> {
    command(Action::SetCriterion(Criterion {
        name: Name::parse(alloc, OTHER_CRITERION)?,
        description: None,
        url: None,
        implies: Names::new(alloc),
    }))
}

/// Removes that criterion.
pub fn remove_criterion(alloc: Global) -> Result<Command, Fault> {
    command(Action::RemoveCriterion(Name::parse(alloc, OTHER_CRITERION)?))
}

/// Drops the own entry of a number.
pub fn drop_entry(number: u64) -> Result<Command, Fault> {
    command(Action::DropEntry(number))
}

/// Adds the own entry that vouches for the demanded version of a package.
pub fn add_demanded(alloc: Global, place: usize) -> Result<Command, Fault> {
    add_entry(alloc, place, VetVersion::parse(alloc, VERSION)?)
}

/// Adds an own entry for a version of a package that is not demanded.
pub fn add_undemanded(alloc: Global, place: usize) -> Result<Command, Fault> {
    add_entry(alloc, place, VetVersion::parse(alloc, "2.0.0")?)
}

/// Adds an own exemption of the demanded version of the package at a place. Its last day is that many days after `DAY`.
pub fn add_exemption(alloc: Global, place: usize) -> Result<Command, Fault> {
    command(Action::AddEntry(Entry {
        source: Source::Own,
        package: package_name(alloc, place)?,
        kind: Kind::Exemption {
            version: VetVersion::parse(alloc, VERSION)?,
            suggest: None,
            last_day: Some(day_after(place)?),
        },
        criteria: one_criterion(alloc, CRITERION)?,
        notes: None,
    }))
}

/// Sets the register's day to the day after the last day of the exemption at a place.
pub fn set_day_after(place: usize) -> Result<Command, Fault> {
    Ok(Command {
        day: day_after(place.saturating_add(1))?,
        action: Action::SetDay,
    })
}

// The day that many days after `DAY`.
fn day_after(days: usize) -> Result<Day, Fault> {
    let Ok(days) = u32::try_from(days) else {
        return Err(Fault::NotUnderstood);
    };
    match Day::parse(DAY)?.plus(days) {
        Some(day) => Ok(day),
        None => Err(Fault::NotUnderstood),
    }
}

/// Adds an entry for a version that no file and no demand has.
pub fn add_other(alloc: Global, round: usize) -> Result<Command, Fault> {
    let version = format!(in alloc; "3.{round}.0")?;
    add_entry(alloc, 0, VetVersion::parse(alloc, version.as_str())?)
}

fn add_entry(alloc: Global, place: usize, version: VetVersion) -> Result<Command, Fault> {
    command(Action::AddEntry(Entry {
        source: Source::Own,
        package: package_name(alloc, place)?,
        kind: Kind::Full(version, Audit::anonymous(alloc)),
        criteria: one_criterion(alloc, CRITERION)?,
        notes: None,
    }))
}

/// The set of one criterion.
pub fn one_criterion(alloc: Global, name: &str) -> Result<Names, Fault> {
    let name = Name::parse(alloc, name)?;
    let mut names = Names::new(alloc);
    names.insert(name)?;
    Ok(names)
}

/// A command of the day.
pub fn command(action: Action) -> Result<Command, Fault> {
    Ok(Command {
        day: Day::parse(DAY)?,
        action,
    })
}
