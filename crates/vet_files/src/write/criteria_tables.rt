//! The tables in which criteria are written.
ghost use Rattle.std.specs.Prelude.{◌≡◌, IfOk};
ghost use Rattle.toml.specs.View.{table_view};
ghost use Rattle.vet_files.specs.AuditsTable.{criterion_table};
ghost use Rattle.vet_files.specs.ReadAgain.{ReadsCriterion};

use crate::keys::{DESCRIPTION, DESCRIPTION_URL, IMPLIES};
use crate::write::put::put_some;
use crate::write::put_sets::put_names;
use std::alloc::{AllocError, Global};
use toml::Table;
use vet_base::criterion::Criterion;

/// The table of a criterion.
pub(crate) fn criterion_table(alloc: Global, criterion: &Criterion) -> Result<Table, AllocError>
    ensures table { IfOk result (λ t. table_view t ≡ criterion_table criterion.now) }
    ensures read { IfOk result (λ t. ReadsCriterion criterion.now) }
{
    // Called for its clause that this is a name, since nothing else would be read back.
    let _ = criterion.name.as_str();
    let mut table = Table::new(alloc);
    put_some(
        alloc,
        &mut table,
        DESCRIPTION,
        criterion.description.as_ref(),
    )?;
    put_some(alloc, &mut table, DESCRIPTION_URL, criterion.url.as_ref())?;
    put_names(alloc, &mut table, IMPLIES, &criterion.implies)?;
    Ok(table)
}
