//! The files of a peer in a text.

use std::alloc::Global;
use trial_values::fault::Fault;
use vet_entries::peer_content::PeerContent;
use vet_files::imports_file::read_peer;

/// The separator between two files.
pub const BETWEEN_FILES: &str = "\n---\n";

/// What the files of a text hold, in their order.
pub fn contents_of(alloc: Global, text: &str) -> Result<Vec<PeerContent>, Fault> {
    let mut contents = Vec::new(alloc);
    for file in text.split(BETWEEN_FILES) {
        contents.push(content_of(alloc, file)?)?;
    }
    Ok(contents)
}

fn content_of(alloc: Global, file: &str) -> Result<PeerContent, Fault> {
    Ok(read_peer(alloc, file.as_bytes())?.content)
}
