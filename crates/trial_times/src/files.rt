//! The files that replace what is held.

use crate::contents::BETWEEN_FILES;
use std::alloc::Global;
use std::io;
use std::time::{Clock, Duration, Instant};
use trial_values::fault::Fault;
use vet_files::audits_file::read_audits;
use vet_files::config_file::read_config;
use vet_files::files_content::FilesContent;
use vet_files::imports_file::read_imports;

/// The separator between the dependency tables and three files, and between three files and the next three.
const BETWEEN_PARTS: &str = "\n===\n";

/// The texts of an audits file, a config file and an imports file.
#[derive(Clone, Copy)]
pub struct FileTexts<'t> {
    pub audits: &'t str,
    pub config: &'t str,
    pub imports: &'t str,
}

/// The dependency tables of a text, as one text, and then the text with the files after them.
pub fn tables_before(text: &str) -> Result<(&str, &str), Fault> {
    match text.split_once(BETWEEN_PARTS) {
        Some(parts) => Ok(parts),
        None => Err(Fault::NotUnderstood),
    }
}

/// The files of a text, three by three.
pub fn files_of(alloc: Global, text: &str) -> Result<Vec<FileTexts<'_>>, Fault> {
    let mut all = Vec::new(alloc);
    for part in text.split(BETWEEN_PARTS) {
        all.push(three_of(part)?)?;
    }
    Ok(all)
}

fn three_of(part: &str) -> Result<FileTexts<'_>, Fault> {
    let Some((audits, rest)) = part.split_once(BETWEEN_FILES) else {
        return Err(Fault::NotUnderstood);
    };
    let Some((config, imports)) = rest.split_once(BETWEEN_FILES) else {
        return Err(Fault::NotUnderstood);
    };
    Ok(FileTexts {
        audits,
        config,
        imports,
    })
}

/// What three files hold. Prints how many entries they have, how long it took to read them, and how long until they
/// were one value.
pub fn read_timed(
    rt: &(impl Clock + AllocGlobal + Print),
    texts: FileTexts<'_>,
) -> Result<FilesContent, Fault> {
    let alloc = rt.alloc();
    let begun = Instant::now(rt)?;
    // the largest value comes last, since each that was read is dropped if the next one is refused
    let audits = read_audits(alloc, texts.audits.as_bytes())?;
    let imports = read_imports(alloc, texts.imports.as_bytes())?;
    let config = read_config(alloc, texts.config.as_bytes())?;
    let read = begun.elapsed(rt)?.as_nanos();
    let files = FilesContent::of(alloc, audits.content, config.content, imports.content)?;
    print_read(rt, &files, read, begun.elapsed(rt))?;
    Ok(files)
}

fn print_read(
    rt: &(impl Clock + AllocGlobal + Print),
    files: &FilesContent,
    read: u128,
    whole: io::Result<Duration>,
) -> Result<(), Fault> {
    let whole = whole?.as_nanos();
    let count = entries_of(files);
    println!(rt; "read {count} {read} {whole}")?;
    Ok(())
}

// How many entries files hold, those of all peers together.
fn entries_of(files: &FilesContent) -> usize {
    let mut count = files.entries().len();
    for peer in files.contents() {
        count = count.saturating_add(peer.content.entries().len());
    }
    count
}
