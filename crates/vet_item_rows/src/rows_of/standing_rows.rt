//! The row of a pair that has a class.
ghost use Rattle.std.specs.Prelude.{◌≡◌, IfOk};
ghost use Rattle.vet_item_rows.specs.StandingRows.{standing_row};

use crate::rows_of::columns::{class_number, version_column};
use std::alloc::{AllocError, Global};
use vet_demand::pair::Pair;
use vet_graph::class::Class;
use vet_tables::cell::Cell;
use vet_tables::sequence::{Row, Sequence};

/// The row of a pair that has a class. Fails only if memory runs out.
pub fn standing_row(alloc: Global, pair: &Pair, class: Class) -> Result<Row, AllocError>
    ensures { IfOk result (λ row. row ≡ standing_row (record { pair = pair.now; class = class })) }
{
    let cells = vec![in alloc;
        Cell::text(alloc, pair.package.as_str())?,
        Cell::Text(version_column(alloc, &pair.version)?),
        Cell::text(alloc, pair.criterion.as_str())?,
        Cell::Int(class_number(class)),
    ]?;
    Ok(Sequence::of(cells))
}
