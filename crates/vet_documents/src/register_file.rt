//! The three files of a register, by their names.
//!
//! **`toml` reads the text of a file as what the register holds of it, and so does the reader of that file.**
ghost use Rattle.std.specs.Prelude.{◌≡◌, IfErr, IfOk, string_bytes};
ghost use Rattle.vet_documents.specs.RegisterFile.{IsFileOf, file_named};

use std::alloc::Global;
use vet_base::refusal::Refusal;
use vet_files::audits_file::write_audits;
use vet_files::config_file::write_config;
use vet_files::imports_file::write_imports;
use vet_graph::keeper::Keeper;
use vet_register::register::Register;

/// A file of cargo-vet (The Cargo Vet Book, audits.toml, config.toml and imports.lock).
#[derive(Clone, Copy)]
pub enum RegisterFile {
    Audits,
    Config,
    Imports,
}

impl RegisterFile {
    /// The file of a name: `audits.toml`, `config.toml` or `imports.lock`. `None` for any other name.
    pub fn named(name: &str) -> Option<RegisterFile>
        ensures { result ≡ file_named name.now }
    {
        match name {
            "audits.toml" => Some(RegisterFile::Audits),
            "config.toml" => Some(RegisterFile::Config),
            "imports.lock" => Some(RegisterFile::Imports),
            _ => None,
        }
    }
}

/// The text of a file of a register, in the layout of `toml`. Refused: `NoMemory`.
pub fn file_text<K: Keeper>(
    alloc: Global,
    file: RegisterFile,
    register: &Register<K>,
) -> Result<String, Refusal>
    ensures file { IfOk result (λ text. IsFileOf file register.now.state (string_bytes text)) }
    ensures memory { IfErr result (λ e. e ≡ Refusal.NoMemory) }
{
    match file {
        RegisterFile::Audits => audits_text(alloc, register),
        RegisterFile::Config => config_text(alloc, register),
        RegisterFile::Imports => imports_text(alloc, register),
    }
}

fn audits_text<K: Keeper>(alloc: Global, register: &Register<K>) -> Result<String, Refusal>
    ensures file { IfOk result (λ text.
        IsFileOf RegisterFile.Audits register.now.state (string_bytes text)) }
    ensures memory { IfErr result (λ e. e ≡ Refusal.NoMemory) }
{
    let content = register.held_audits(alloc)?;
    write_audits(alloc, &content)
}

fn config_text<K: Keeper>(alloc: Global, register: &Register<K>) -> Result<String, Refusal>
    ensures file { IfOk result (λ text.
        IsFileOf RegisterFile.Config register.now.state (string_bytes text)) }
    ensures memory { IfErr result (λ e. e ≡ Refusal.NoMemory) }
{
    let content = register.held_config(alloc)?;
    write_config(alloc, &content)
}

fn imports_text<K: Keeper>(alloc: Global, register: &Register<K>) -> Result<String, Refusal>
    ensures file { IfOk result (λ text.
        IsFileOf RegisterFile.Imports register.now.state (string_bytes text)) }
    ensures memory { IfErr result (λ e. e ≡ Refusal.NoMemory) }
{
    let held = register.held_imports(alloc)?;
    write_imports(alloc, held.settings.as_slice(), &held.content)
}
