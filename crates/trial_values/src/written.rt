//! Lines that ask for a file to be read and written again.
//!
//! `written-audits TEXT` and `written-config TEXT` have the text of a file, and `written-imports CONFIG TEXT` that of a
//! config file, whose peers give the settings, and of an imports file. Each prints the text that is written for what
//! the file holds, as the word that writes it; how much that text holds and what is ignored in it; and `same` if what
//! it holds is written as the same text again, or else `other`.
//!
//! `written-project TABLE` has the text of a dependency table. It prints the table that is written for the project that
//! this states, as the word that writes it, and `same` if that is read as the same project, or else `other`.

use crate::fault::Fault;
use crate::line::{two, word_of};
use std::alloc::Global;
use vet_base::refusal::Refusal;
use vet_demand::policies::Policies;
use vet_demand::project::Project;
use vet_demand::table_reader::read_project;
use vet_demand::table_writer::write_project;
use vet_entries::peer_settings::PeerSettings;
use vet_files::audits_file::{AuditsContent, read_audits, write_audits};
use vet_files::config_file::{ConfigContent, read_config, write_config};
use vet_files::imports_file::{ImportsContent, read_imports, write_imports};
use vet_files::listed::Listed;
use vet_files::notices::Notices;

// A file that was read and written.
struct WrittenFile {
    // The text that was written.
    text: String,
    // How much the file held that was read, in words.
    held: String,
    // What was ignored when it was read.
    notices: Notices,
}

impl Drop for WrittenFile {
    fn drop(self) {
        let WrittenFile {
            text: _,
            held: _,
            notices: _,
        } = self;
    }
}

/// What is written of an audits file. Refused: what the file is refused for, and `NoMemory`.
pub fn written_audits(alloc: Global, text: &str) -> Result<String, Fault> {
    let first = write_audits_of(alloc, text.as_bytes())?;
    let second = write_audits_of(alloc, first.text.as_bytes())?;
    file_line(alloc, &first, &second)
}

/// What is written of a config file. Refused: what the file is refused for, and `NoMemory`.
pub fn written_config(alloc: Global, text: &str) -> Result<String, Fault> {
    let first = write_config_of(alloc, text.as_bytes())?;
    let second = write_config_of(alloc, first.text.as_bytes())?;
    file_line(alloc, &first, &second)
}

/// What is written of an imports file by the settings of a config file. Refused: what the files are refused for,
/// the config file first, and `NoMemory`.
pub fn written_imports(alloc: Global, texts: &[String]) -> Result<String, Fault> {
    let (config, imports) = two(texts)?;
    let config = read_config(alloc, config.as_bytes())?;
    imports_line(alloc, config.content.peers.as_slice(), imports)
}

/// What is written of the project of a dependency table. Refused: what the table is refused for, and `NoMemory`.
pub fn written_project(alloc: Global, text: &str) -> Result<String, Fault> {
    let project = read_project(alloc, text.as_bytes())?;
    let text = write_project(alloc, &project)?;
    project_line(alloc, &project, text.as_str())
}

// The line for a project that was written as a text.
fn project_line(alloc: Global, project: &Project, text: &str) -> Result<String, Fault> {
    let compared = if read_project(alloc, text.as_bytes())? == *project {
        "same"
    } else {
        "other"
    };
    let word = word_of(alloc, text)?;
    Ok(format!(in alloc; "{word} {compared}")?)
}

fn imports_line(alloc: Global, settings: &[PeerSettings], imports: &str) -> Result<String, Fault> {
    let first = write_imports_of(alloc, settings, imports.as_bytes())?;
    let second = write_imports_of(alloc, settings, first.text.as_bytes())?;
    file_line(alloc, &first, &second)
}

fn write_audits_of(alloc: Global, bytes: &[u8]) -> Result<WrittenFile, Fault> {
    let found = read_audits(alloc, bytes)?;
    audits_written(alloc, &found.content, found.notices)
}

fn audits_written(
    alloc: Global,
    content: &AuditsContent,
    notices: Notices,
) -> Result<WrittenFile, Fault> {
    let criteria = content.criteria.len();
    let entries = content.entries.len();
    Ok(WrittenFile {
        held: format!(in alloc; "criteria {criteria} entries {entries}")?,
        text: write_audits(alloc, content)?,
        notices,
    })
}

fn write_config_of(alloc: Global, bytes: &[u8]) -> Result<WrittenFile, Fault> {
    let mut found = read_config(alloc, bytes)?;
    copied_config_written(alloc, &mut found.content, found.notices)
}

// Writes a content with copies in place of its lists, so that the text shows the copies too. The policies are added one
// by one.
fn copied_config_written(
    alloc: Global,
    content: &mut ConfigContent,
    notices: Notices,
) -> Result<WrittenFile, Fault> {
    let policies = content.policies.clone()?;
    content.policies = inserted(alloc, &policies)?;
    content.peers = copy_of(alloc, &content.peers)?;
    content.exemptions = copy_of(alloc, &content.exemptions)?;
    config_written(alloc, content, notices)
}

fn inserted(alloc: Global, policies: &Policies) -> Result<Policies, Fault> {
    let mut found = Policies::new(alloc);
    for held in policies.as_slice() {
        found.insert(held.key.clone()?, held.policy.clone()?)?;
    }
    Ok(found)
}

fn copy_of<T: Clone + Drop>(alloc: Global, items: &Listed<T>) -> Result<Listed<T>, Refusal> {
    Ok(Listed::of(items.as_slice().to_vec(alloc)?))
}

fn config_written(
    alloc: Global,
    content: &ConfigContent,
    notices: Notices,
) -> Result<WrittenFile, Fault> {
    let entries = content.exemptions.len();
    let policies = content.policies.len();
    let peers = content.peers.len();
    Ok(WrittenFile {
        held: format!(in alloc; "entries {entries} policies {policies} peers {peers}")?,
        text: write_config(alloc, content)?,
        notices,
    })
}

fn write_imports_of(
    alloc: Global,
    settings: &[PeerSettings],
    bytes: &[u8],
) -> Result<WrittenFile, Fault> {
    let mut found = read_imports(alloc, bytes)?;
    copied_imports_written(alloc, settings, &mut found.content, found.notices)
}

// Writes a content with a copy in place of the publisher records.
fn copied_imports_written(
    alloc: Global,
    settings: &[PeerSettings],
    content: &mut ImportsContent,
    notices: Notices,
) -> Result<WrittenFile, Fault> {
    content.publishers = copy_of(alloc, &content.publishers)?;
    Ok(WrittenFile {
        notices,
        held: held_of_imports(alloc, content)?,
        text: write_imports(alloc, settings, content)?,
    })
}

// How much an imports file holds, of all packages and all peers together.
fn held_of_imports(alloc: Global, content: &ImportsContent) -> Result<String, Fault> {
    let mut publishers = 0usize;
    for package in content.publishers.as_slice() {
        publishers = publishers.saturating_add(package.publishers.len());
    }
    let mut criteria = 0usize;
    let mut entries = 0usize;
    for peer in content.peers.as_slice() {
        criteria = criteria.saturating_add(peer.content.criteria().len());
        entries = entries.saturating_add(peer.content.entries().len());
    }
    let peers = content.peers.len();
    let held = format!(in alloc;
        "criteria {criteria} entries {entries} publishers {publishers} peers {peers}"
    )?;
    Ok(held)
}

// The line for a file that was written, read and written again.
fn file_line(alloc: Global, first: &WrittenFile, second: &WrittenFile) -> Result<String, Fault> {
    let word = word_of(alloc, first.text.as_str())?;
    let held = second.held.as_str();
    let keys = second.notices.keys;
    let skipped = second.notices.skipped;
    let doubles = second.notices.doubles;
    let same = if first.text == second.text {
        "same"
    } else {
        "other"
    };
    let line = format!(in alloc;
        "{word} {held} keys {keys} skipped {skipped} doubles {doubles} {same}"
    )?;
    Ok(line)
}
