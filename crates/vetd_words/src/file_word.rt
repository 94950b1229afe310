//! The words for the files of cargo-vet.
ghost use Rattle.std.specs.Prelude.{◌≡◌};
ghost use Rattle.vetd_words.specs.FileWord.{file_of_word};

use vet_documents::register_file::RegisterFile;

/// The words for the files, as an error lists them.
pub(crate) const FILE_WORDS: &str = "audits, config, imports";

/// The file that a word names: `audits`, `config` or `imports`.
pub fn file_of_word(word: &str) -> Option<RegisterFile>
    ensures { result ≡ file_of_word word.now }
{
    if word == "audits" {
        Some(RegisterFile::Audits)
    } else if word == "config" {
        Some(RegisterFile::Config)
    } else if word == "imports" {
        Some(RegisterFile::Imports)
    } else {
        None
    }
}
