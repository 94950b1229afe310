//! Columns of reports.
ghost use Rattle.std.specs.Prelude.{◌≡◌, ◌++◌, OnOk, string_bytes};
ghost use Rattle.std.specs.Fmt.{decimal};
ghost use Rattle.vet_reports.specs.Columns.{begun, comma_list, left_in, others_text, pair_columns, right_in};
ghost use Rattle.vet_reports.specs.Columns.{version_columns};

use std::alloc::{AllocError, Global};
use vet_base::name::{Name, PackageName};
use vet_base::version::VetVersion;
use vet_demand::pair::Pair;

/// Adds a text, aligned left in a width.
pub(crate) fn push_left(text: &mut String, width: usize, column: &str) -> Result<(), AllocError>
    ensures { OnOk result (string_bytes text.new ≡ string_bytes text.old ++ left_in width column.now) }
{
    write!(text, "{column:<width$}")
}

/// Adds a text, aligned right in a width.
pub(crate) fn push_right(text: &mut String, width: usize, column: &str) -> Result<(), AllocError>
    ensures { OnOk result (string_bytes text.new ≡ string_bytes text.old ++ right_in width column.now) }
{
    write!(text, "{column:>width$}")
}

/// Adds a number, aligned right in a width.
pub(crate) fn push_number(text: &mut String, width: usize, number: u64) -> Result<(), AllocError>
    ensures { OnOk result (string_bytes text.new ≡ string_bytes text.old ++ right_in width (decimal number)) }
{
    write!(text, "{number:>width$}")
}

/// Adds the columns of a version of a package, with a space after each.
pub(crate) fn push_version(
    alloc: Global,
    text: &mut String,
    package: &PackageName,
    version: &VetVersion,
) -> Result<(), AllocError>
    ensures { OnOk result (string_bytes text.new
        ≡ string_bytes text.old ++ begun (version_columns «package».now version.now)) }
{
    let version = version.to_string(alloc)?;
    push_left(text, 24, package.as_str())?;
    text.push(' ')?;
    push_left(text, 20, version.as_str())?;
    text.push(' ')
}

/// Adds the columns of a pair, with a space after each.
pub(crate) fn push_pair(alloc: Global, text: &mut String, pair: &Pair) -> Result<(), AllocError>
    ensures { OnOk result (string_bytes text.new ≡ string_bytes text.old ++ begun (pair_columns pair.now)) }
{
    push_version(alloc, text, &pair.package, &pair.version)?;
    push_left(text, 20, pair.criterion.as_str())?;
    text.push(' ')
}

/// Adds names, with a comma between two of them.
pub(crate) fn push_names(text: &mut String, names: &[Name]) -> Result<(), AllocError>
    ensures { OnOk result (string_bytes text.new ≡ string_bytes text.old ++ comma_list names.now) }
{
    let Some((first, others)) = names.split_first() else {
        return Ok(());
    };
    text.push_str(first.as_str())?;
    push_others(text, others)
}

// Adds names, each after a comma.
fn push_others(text: &mut String, names: &[Name]) -> Result<(), AllocError>
    ensures { OnOk result (string_bytes text.new ≡ string_bytes text.old ++ others_text names.now) }
{
    'names: for name in names {
        text.push(',')?;
        text.push_str(name.as_str())?;
    }
    Ok(())
}
