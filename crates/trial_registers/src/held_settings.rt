//! Prints what a config file says only to the tool, if it says anything. Printing takes no memory.

use crate::held::print_optional_text;
use crate::held_projects::print_list;
use std::io;
use vet_register::tool_settings::ToolSettings;

/// Prints the version of cargo-vet and the criteria for a new audit, in one line, if there are any.
pub fn print_tool_settings(rt: &impl Print, settings: &ToolSettings) -> io::Result<()> {
    if settings.vet_version.is_none() && settings.default_criteria.is_none() {
        return Ok(());
    }
    print!(rt; "settings")?;
    print_optional_text(rt, "version", &settings.vet_version)?;
    print_list(rt, "default-criteria", &settings.default_criteria)?;
    println!(rt; "")
}
