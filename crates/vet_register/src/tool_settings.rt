//! The settings of a config file that are for the tool only.
ghost use Rattle.std.specs.Prelude.{◌≡◌, IfOk};
ghost use Rattle.vet_register.specs.ToolSettings.{no_settings, tool_eq};

use std::alloc::AllocError;
use vet_base::names::Names;
use vet_base::text::Text;

/// The settings of a config file that are for the tool only (The Cargo Vet Book, config file). They change no class and
/// no demand.
pub struct ToolSettings {
    /// The version of cargo-vet that the file names.
    pub vet_version: Option<Text>,
    /// The criteria of a new audit if nothing else is said. None of them is looked up.
    pub default_criteria: Option<Names>,
}

impl Drop for ToolSettings {
    fn drop(self) {
        let ToolSettings {
            vet_version: _,
            default_criteria: _,
        } = self;
    }
}

impl ToolSettings {
    /// No version, and no criteria for a new audit. Takes no memory.
    pub(crate) fn new() -> ToolSettings
        ensures { result ≡ no_settings }
    {
        ToolSettings {
            vet_version: None,
            default_criteria: None,
        }
    }
}
