//! The rows of the standing and of recorded moves.
ghost use Rattle.std.specs.Prelude.{◌≡◌, IfOk, map};
ghost use Rattle.vet_item_rows.specs.StandingRows.{standing_row};
ghost use Rattle.vet_register.specs.State.{standing};
ghost use Rattle.vet_rows.specs.Numbers.{MoveFits};
ghost use Rattle.vet_rows.specs.StandingRows.{move_row};

use crate::rows_of::to_row::ToRow;
use std::alloc::{AllocError, Global};
use vet_graph::keeper::Keeper;
use vet_graph::laws::each_pair_has_its_class;
use vet_item_rows::rows_of::columns::{class_or_none, version_column};
use vet_item_rows::rows_of::standing_rows::standing_row;
use vet_register::moves::RecordedMove;
use vet_register::register::Register;
use vet_tables::cell::Cell;
use vet_tables::sequence::{Row, Sequence};

impl ToRow for RecordedMove {
    ghost row_of = { move_row };

    ghost fits = { MoveFits };

    fn to_row(&self, alloc: Global) -> Result<Row, AllocError> {
        let change = &self.change;
        let cells = vec![in alloc;
            Cell::Int(self.step as i64),
            Cell::text(alloc, change.pair.package.as_str())?,
            Cell::Text(version_column(alloc, &change.pair.version)?),
            Cell::text(alloc, change.pair.criterion.as_str())?,
            Cell::Int(i64::from(self.day.number())),
            Cell::Int(class_or_none(change.before)),
            Cell::Int(class_or_none(change.after)),
        ]?;
        Ok(Sequence::of(cells))
    }
}

/// The rows of a register's standing. Costs a binary search for each demanded pair. Fails only if memory runs out.
pub fn all_standing<K: Keeper>(
    alloc: Global,
    register: &Register<K>,
) -> Result<Vec<Row>, AllocError>
    ensures { IfOk result (λ rows. rows.items ≡ map standing_row (standing register.now.state)) }
{
    each_pair_has_its_class();
    let mut rows = Vec::new(alloc);
    'pairs: for pair in register.demand() {
        if let Some(class) = register.class(&pair.package, &pair.version, &pair.criterion) {
            rows.push(standing_row(alloc, pair, class)?)?;
        }
    }
    Ok(rows)
}
