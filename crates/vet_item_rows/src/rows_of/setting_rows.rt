//! The rows of criteria.
ghost use Rattle.std.specs.Prelude.{◌≡◌, ◌++◌, IfOk, OnOk, filter, map};
ghost use Rattle.vet_base.specs.FurtherCriteria.{is_further};
ghost use Rattle.vet_item_rows.specs.SettingRows.{criterion_row};

use crate::rows_of::columns::{names_column, text_or_none};
use std::alloc::{AllocError, Global};
use vet_base::criteria_table::is_built_in;
use vet_base::criterion::Criterion;
use vet_tables::cell::Cell;
use vet_tables::sequence::{Row, Sequence};

/// The row of a criterion of a peer; the name of the peer is empty for one's own. Fails only if memory runs out.
pub fn criterion_row(alloc: Global, peer: &str, criterion: &Criterion) -> Result<Row, AllocError>
    ensures { IfOk result (λ row. row ≡ criterion_row peer.now criterion.now) }
{
    let cells = vec![in alloc;
        Cell::text(alloc, peer)?,
        Cell::text(alloc, criterion.name.as_str())?,
        Cell::Blob(text_or_none(alloc, &criterion.description)?),
        Cell::Blob(text_or_none(alloc, &criterion.url)?),
        Cell::Blob(names_column(alloc, &criterion.implies)?),
    ]?;
    Ok(Sequence::of(cells))
}

/// Whether a criterion is not built in, and so has a row. Takes no memory.
pub fn is_further(criterion: &Criterion) -> bool
    ensures { result ≡ is_further criterion.now }
{
    !is_built_in(&criterion.name)
}

/// Adds the rows of those of a peer's criteria that aren't built in, after those of others. Fails only if memory runs
/// out.
pub fn push_criteria(
    alloc: Global,
    rows: &mut Vec<Row>,
    peer: &str,
    criteria: &[Criterion],
) -> Result<(), AllocError>
    ensures { OnOk result (rows.new.items
        ≡ rows.old.items ++ map (criterion_row peer.now) (filter is_further criteria.now)) }
{
    'criteria: for criterion in criteria {
        if is_further(criterion) {
            rows.push(criterion_row(alloc, peer, criterion)?)?;
        }
    }
    Ok(())
}
