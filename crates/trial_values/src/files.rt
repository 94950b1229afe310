//! Lines that ask what a peer's file holds: `peer-file TEXT` prints how much the audits file of a peer holds.

use crate::fault::Fault;
use std::alloc::Global;
use vet_entries::peer_content::PeerContent;
use vet_files::imports_file::read_peer;
use vet_files::notices::Notices;

/// How many criteria and entries the audits file of a peer holds, and what was ignored. Refused: what the file is
/// refused for, and `NoMemory`.
pub fn peer_file(alloc: Global, text: &str) -> Result<String, Fault> {
    let found = read_peer(alloc, text.as_bytes())?;
    peer_text(alloc, &found.content, found.notices)
}

fn peer_text(alloc: Global, content: &PeerContent, notices: Notices) -> Result<String, Fault> {
    let criteria = content.criteria().len();
    let entries = content.entries().len();
    let keys = notices.keys;
    let skipped = notices.skipped;
    let doubles = notices.doubles;
    let told = format!(in alloc;
        "criteria {criteria} entries {entries} keys {keys} skipped {skipped} doubles {doubles}"
    )?;
    Ok(told)
}
