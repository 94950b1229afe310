//! Queries about a file, as the words of a command line ask for them.
ghost use Rattle.std.specs.Prelude.{◌≡◌, ◌≢◌, [], IfOk, IfErr, map, string_bytes};
ghost use Rattle.clap.specs.Words.{kind_of};
ghost use Rattle.vet_base.specs.Gives.{Gives};
ghost use Rattle.vetd_words.specs.Asked.{asked_by, class_asked, line_told, read_asked};
ghost use Rattle.vetd_words.specs.Words.{IsErrorOf, faults_of};

use crate::class_line::class_line;
use crate::read_line::read_line;
use crate::words::{ClassWords, class_words, read_words};
use clap::Error;
use clap::error::ErrorKind;
use std::alloc::Global;
use std::convert::AsStr;
use vet_base::refusal::Refusal;
use vet_documents::register_file::RegisterFile;

/// A query about a file. A new one needs a row here, a row in `line`, and the function that makes its line.
#[derive(Clone, Copy)]
pub enum FileQuery<'a> {
    Class(ClassWords<'a>),
    Read(RegisterFile),
}

impl FileQuery<'_> {
    /// The line that answers the query. Refused: everything that `class_line` or `read_line` refuses.
    pub fn line(self, alloc: Global, file: &[u8]) -> Result<String, Refusal>
        ensures { Gives string_bytes (line_told self.entry file.now) result }
    {
        match self {
            FileQuery::Class(words) => class_line(alloc, words, file),
            FileQuery::Read(kind) => read_line(alloc, kind, file),
        }
    }
}

/// A command of the program that the words of a whole command line are to be. A new one needs a row here, and a row in
/// `asked`.
#[derive(Clone, Copy)]
pub enum CommandKind {
    Class,
    Read,
}

impl CommandKind {
    /// Parses words that are to be this command. Refused: everything that `class_words` or `read_words` refuses.
    pub fn asked<'a, S: AsStr>(self, alloc: Global, words: &'a [S]) -> Result<FileQuery<'a>, Error>
        ensures found { IfOk result (λ asked.
            asked_by self (map S.text words.entry.now) ≡ Some (line_told asked)) }
        ensures refused { IfErr result (λ error. kind_of error ≢ ErrorKind.OutOfMemory
            → asked_by self (map S.text words.entry.now) ≡ None) }
        ensures clean { IfOk result (λ _. faults_of (map S.text words.entry.now) ≡ []) }
        ensures kinds { IfErr result (λ error. IsErrorOf (map S.text words.entry.now) (kind_of error)) }
    {
        match self {
            CommandKind::Class => asked_class(alloc, words),
            CommandKind::Read => asked_read(alloc, words),
        }
    }
}

/// Parses the words of a class command. Refused: everything that `class_words` refuses.
fn asked_class<'a, S: AsStr>(alloc: Global, words: &'a [S]) -> Result<FileQuery<'a>, Error>
    ensures found { IfOk result (λ asked.
        class_asked (map S.text words.entry.now) ≡ Some (line_told asked)) }
    ensures refused { IfErr result (λ error. kind_of error ≢ ErrorKind.OutOfMemory
        → class_asked (map S.text words.entry.now) ≡ None) }
    ensures clean { IfOk result (λ _. faults_of (map S.text words.entry.now) ≡ []) }
    ensures kinds { IfErr result (λ error. IsErrorOf (map S.text words.entry.now) (kind_of error)) }
{
    Ok(FileQuery::Class(class_words(alloc, words)?))
}

/// Parses the words of a read command. Refused: everything that `read_words` refuses.
fn asked_read<S: AsStr>(alloc: Global, words: &[S]) -> Result<FileQuery<'static>, Error>
    ensures found { IfOk result (λ asked. read_asked (map S.text words.now) ≡ Some (line_told asked)) }
    ensures refused { IfErr result (λ error. kind_of error ≢ ErrorKind.OutOfMemory
        → read_asked (map S.text words.now) ≡ None) }
    ensures clean { IfOk result (λ _. faults_of (map S.text words.now) ≡ []) }
    ensures kinds { IfErr result (λ error. IsErrorOf (map S.text words.now) (kind_of error)) }
{
    Ok(FileQuery::Read(read_words(alloc, words)?))
}
