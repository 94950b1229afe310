//! The line that is printed for a class.
ghost use Rattle.std.specs.Prelude.{string_bytes};
ghost use Rattle.vet_base.specs.Gives.{Gives};
ghost use Rattle.vetd_words.specs.ClassLine.{class_line_told};
ghost use Rattle.vetd_words.specs.Words.{asked_of};

use crate::words::ClassWords;
use std::alloc::Global;
use vet_base::refusal::Refusal;
use vet_register::class_of_file::class_of_file;

/// The line of the class that is asked for. Refused: everything that `class_of_file` refuses.
pub fn class_line(alloc: Global, asked: ClassWords<'_>, file: &[u8]) -> Result<String, Refusal>
    ensures { Gives string_bytes (class_line_told (asked_of asked.entry) file.now) result }
{
    let class = class_of_file(
        alloc,
        file,
        asked.package_name,
        asked.version,
        asked.criterion,
    )?;
    let mut line = class.word().to_string(alloc)?;
    line.push_str("\n")?;
    Ok(line)
}
