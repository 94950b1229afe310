//! The rows of the review desk, in each of its tables.
ghost use Rattle.std.specs.List.{All};
ghost use Rattle.std.specs.Prelude.{◌≡◌, IfOk, ⊤};
ghost use Rattle.vet_item_rows.specs.Numbers.{ReviewFits};
ghost use Rattle.vet_item_rows.specs.DeskRows.{member_row, review_row};
ghost use Rattle.vet_rows.specs.DeskRows.{rows_of_desk};

use crate::rows_of::to_row::{ToRow, rows_each};
use std::alloc::{AllocError, Global};
use vet_base::name::Name;
use vet_desk::desk::Desk;
use vet_desk::review::Review;
use vet_item_rows::rows_of::desk_rows::turned_row;
use vet_tables::cell::Cell;
use vet_tables::sequence::{Row, Sequence};
use vet_tables::table_name::DeskTable;

/// The rows of a table of the desk. Asks that the numbers of reviews are below 2^63. Fails only if memory runs out.
pub(crate) fn rows_of_desk(
    alloc: Global,
    desk: &Desk,
    table: DeskTable,
) -> Result<Vec<Row>, AllocError>
    requires { All ReviewFits desk.now.content.reviews }
    ensures { IfOk result (λ rows. rows.items ≡ rows_of_desk desk.now.content table) }
{
    match table {
        DeskTable::Members => rows_each(alloc, desk.members()),
        DeskTable::Reviews => rows_each(alloc, desk.reviews()),
    }
}

impl ToRow for Name {
    ghost row_of = { member_row };

    ghost fits = { λ _. ⊤ };

    fn to_row(&self, alloc: Global) -> Result<Row, AllocError> {
        let cells = vec![in alloc; Cell::text(alloc, self.as_str())?]?;
        Ok(Sequence::of(cells))
    }
}

impl ToRow for Review {
    ghost row_of = { review_row };

    ghost fits = { ReviewFits };

    fn to_row(&self, alloc: Global) -> Result<Row, AllocError> {
        turned_row(alloc, self, &self.state)
    }
}
