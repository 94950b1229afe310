//! The row of a review.
ghost use Rattle.std.specs.Prelude.{◌≡◌, ◌^◌, IfOk};
ghost use Rattle.vet_desk.specs.Review.{in_state};
ghost use Rattle.vet_desk.specs.SoundDesk.{IsEntryGiven};
ghost use Rattle.vet_item_rows.specs.Numbers.{ReviewFits};
ghost use Rattle.vet_item_rows.specs.DeskRows.{assigned_member, finishing_entry, review_row, state_number};

use crate::rows_of::columns::{names_column, version_column};
use std::alloc::{AllocError, Global};
use vet_desk::review::{Review, ReviewState};
use vet_tables::cell::Cell;
use vet_tables::sequence::{Row, Sequence};

/// The row of a review in a state. Asks that its number, and that of the entry that finished it, are below 2^63. Fails
/// only if memory runs out.
pub fn turned_row(alloc: Global, review: &Review, state: &ReviewState) -> Result<Row, AllocError>
    requires { ReviewFits (in_state state.now review.now) }
    ensures { IfOk result (λ row. row ≡ review_row (in_state state.now review.now)) }
{
    let cells = vec![in alloc;
        Cell::Int(review.number as i64),
        Cell::text(alloc, review.package.as_str())?,
        Cell::Text(version_column(alloc, &review.version)?),
        Cell::Blob(names_column(alloc, &review.criteria)?),
        Cell::Int(i64::from(review.day.number())),
        Cell::Int(state_number(state)),
        member_cell(alloc, state)?,
        Cell::Int(finishing_entry(state)),
    ]?;
    Ok(Sequence::of(cells))
}

// The number of a state, 0 to 3.
fn state_number(state: &ReviewState) -> i64
    ensures { result ≡ state_number state.now }
{
    match state {
        ReviewState::Waiting => 0,
        ReviewState::Assigned(_) => 1,
        ReviewState::Finished(_) => 2,
        ReviewState::Withdrawn => 3,
    }
}

// The member to whom a review is assigned, otherwise empty.
fn member_cell(alloc: Global, state: &ReviewState) -> Result<Cell, AllocError>
    ensures { IfOk result (λ cell. cell ≡ Cell.Text (assigned_member state.now)) }
{
    match state {
        ReviewState::Assigned(member) => Cell::text(alloc, member.as_str()),
        _ => Cell::text(alloc, ""),
    }
}

// The number of the entry that finished a review, otherwise 0.
fn finishing_entry(state: &ReviewState) -> i64
    requires { IsEntryGiven (2 ^ 63) state.now }
    ensures { result ≡ finishing_entry state.now }
{
    match state {
        ReviewState::Finished(entry) => *entry as i64,
        _ => 0,
    }
}
