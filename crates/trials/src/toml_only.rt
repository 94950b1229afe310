//! Reads a TOML document from standard input and does nothing more: this is the least that reading a file costs. The
//! bench measures `vetd` beside it. The status is 0 if `toml` accepts the document, and otherwise 1.

use std::io::Read;
use std::process::ExitCode;

/// Reads the document.
pub fn read_toml(rt: &HostRuntime) -> ExitCode {
    let mut bytes = Vec::new(rt.alloc());
    if rt.reader().read_to_end(&mut bytes).is_err() {
        return ExitCode::FAILURE;
    }
    match toml::table_from_slice(rt.alloc(), bytes.as_slice()) {
        Ok(_) => ExitCode::SUCCESS,
        Err(_) => ExitCode::FAILURE,
    }
}
