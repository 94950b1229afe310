//! The texts of a register that commands print.
ghost use Rattle.std.specs.Prelude.{◌≡◌, IfErr, IfOk, string_bytes};
ghost use Rattle.vetd_words.specs.View.{Shows};

use std::alloc::Global;
use vet_base::refusal::Refusal;
use vet_documents::register_file::{RegisterFile, file_text};
use vet_graph::keeper::Keeper;
use vet_register::register::Register;
use vet_reports::report::Report;

/// A text of a register that a command prints. A new one needs a row here, a row in `text`, and the function that makes
/// its text.
#[derive(Clone, Copy)]
pub enum View {
    Export(RegisterFile),
    Report(Report),
}

impl View {
    /// The text that is printed. Refused: `NoMemory`.
    pub fn text<K: Keeper>(self, alloc: Global, register: &Register<K>) -> Result<String, Refusal>
        ensures shows { IfOk result (λ text. Shows self register.now.state (string_bytes text)) }
        ensures memory { IfErr result (λ e. e ≡ Refusal.NoMemory) }
    {
        match self {
            View::Export(file) => file_text(alloc, file, register),
            View::Report(report) => report.text(alloc, register),
        }
    }
}
