//! Reading the rows of the review desk.
ghost use Rattle.std.specs.Prelude.{◌≡◌, pos};
ghost use Rattle.vet_desk.specs.declared.review.Review.{Review as ReviewValue};
ghost use Rattle.vet_item_rows.specs.DeskRows.{member_row, review_row, state_number};
ghost use Rattle.vet_item_rows.specs.HeldValues.{IsReview};
ghost use Rattle.vet_item_rows.specs.ReadBack.{IsWritten, Reads};
ghost use Rattle.vet_item_rows.specs.Values.{IsName};

use crate::read::cells::{int_at, text_at};
use crate::read::columns::{day, name, names, number, package_name, version};
use crate::read::from_row::FromRow;
use crate::read::read_error::ReadError;
use std::alloc::Global;
use vet_base::name::Name;
use vet_desk::review::{Review, ReviewState};
use vet_tables::cell::Cell;
use vet_tables::sequence::Row;

impl FromRow for Name {
    ghost stands_for = { IsWritten IsName member_row };

    fn from_row(alloc: Global, row: &Row) -> Result<Name, ReadError> {
        let [Cell::Text(member)] = row.as_slice() else {
            return Err(ReadError::NotARegister);
        };
        name(alloc, member.as_str())
    }
}

impl FromRow for Review {
    ghost stands_for = { IsWritten IsReview review_row };

    fn from_row(alloc: Global, row: &Row) -> Result<Review, ReadError> {
        let [
            Cell::Int(of_number),
            Cell::Text(package),
            Cell::Text(of_version),
            Cell::Blob(criteria),
            Cell::Int(on_day),
            ..
        ] = row.as_slice()
        else {
            return Err(ReadError::NotARegister);
        };
        let number = number(*of_number)?;
        let day = day(*on_day)?;
        Ok(Review {
            number,
            package: package_name(alloc, package.as_str())?,
            version: version(alloc, of_version.as_str())?,
            criteria: names(alloc, criteria.as_slice())?,
            day,
            state: review_state(alloc, row)?,
        })
    }
}

// The state of the review of a row.
fn review_state(alloc: Global, row: &Row) -> Result<ReviewState, ReadError>
    ensures { (r : ReviewValue) → IsWritten IsReview review_row row.now r → Reads result r.state }
{
    let state = number(int_at(row, 5)?)?;
    if state == 0 {
        return Ok(ReviewState::Waiting);
    }
    if state == 1 {
        return assigned(alloc, row);
    }
    if state == 2 {
        return finished(row);
    }
    if state == 3 {
        return Ok(ReviewState::Withdrawn);
    }
    Err(ReadError::NotARegister)
}

// The state of a review that is assigned to a member.
fn assigned(alloc: Global, row: &Row) -> Result<ReviewState, ReadError>
    ensures { (r : ReviewValue) → IsWritten IsReview review_row row.now r → state_number r.state ≡ pos 1
        → Reads result r.state }
{
    Ok(ReviewState::Assigned(name(alloc, text_at(row, 6)?)?))
}

// The state of a review that an entry finished. Takes no memory.
fn finished(row: &Row) -> Result<ReviewState, ReadError>
    ensures { (r : ReviewValue) → row.now ≡ review_row r → state_number r.state ≡ pos 2 → Reads result r.state }
{
    Ok(ReviewState::Finished(number(int_at(row, 7)?)?))
}
