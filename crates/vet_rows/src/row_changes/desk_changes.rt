//! The rows of the review desk that an edit of it removes and adds.
ghost use Rattle.std.specs.List.{All};
ghost use Rattle.std.specs.Option.{option_copied};
ghost use Rattle.std.specs.Prelude.{◌≡◌, ◌∷◌, [], IfOk, Some, option_map};
ghost use Rattle.vet_desk.specs.Review.{in_state};
ghost use Rattle.vet_desk.specs.declared.review.Review.{Review};
ghost use Rattle.vet_item_rows.specs.Numbers.{ReviewFits};
ghost use Rattle.vet_rows.specs.AddedNumbers.{AddedReviewsFit, ReviewsFit};
ghost use Rattle.vet_rows.specs.DeskChanges.{desk_change_exchanges, desk_exchanges, the_review, turned_exchange};
ghost use Rattle.vet_rows.specs.KeyedItems.{rows_if};

use crate::row_changes::exchange::{Exchange, only_row_exchange};
use crate::row_changes::keyed_items::{added_item, removed_item};
use crate::rows_of::to_row::row_if;
use std::alloc::{AllocError, Global};
use vet_desk::change::DeskChange;
use vet_desk::desk::Desk;
use vet_desk::review::{Review, ReviewState};
use vet_item_rows::rows_of::desk_rows::turned_row;
use vet_register::change::DeskEdit;
use vet_tables::sequence::Row;
use vet_tables::table_name::{DeskTable, TableName};

/// The rows that an edit of the desk removes and adds, if there is one. Asks that the numbers of reviews, before and
/// after it, are below 2^63. Fails only if memory runs out.
pub fn desk_exchanges(
    alloc: Global,
    edit: Option<&DeskEdit>,
    desk: &Desk,
) -> Result<Vec<Exchange>, AllocError>
    requires held { All ReviewFits desk.now.content.reviews }
    requires added { ReviewsFit (option_copied edit) desk.now.content }
    ensures { IfOk result (λ exchanges. exchanges.items
        ≡ desk_exchanges (option_copied edit.entry) desk.now.content) }
{
    match edit {
        Some(edit) => desk_change_exchanges(alloc, &edit.change, edit.entry, desk),
        None => Ok(Vec::new(alloc)),
    }
}

// The rows that a change of the desk removes and adds. A review that it finishes gets the entry of this number.
fn desk_change_exchanges(
    alloc: Global,
    change: &DeskChange,
    entry: Option<u64>,
    desk: &Desk,
) -> Result<Vec<Exchange>, AllocError>
    requires held { All ReviewFits desk.now.content.reviews }
    requires added { AddedReviewsFit change.now entry desk.now.content }
    ensures { IfOk result (λ exchanges. exchanges.items
        ≡ desk_change_exchanges change.now entry desk.now.content) }
{
    match change {
        DeskChange::Join(edit) => {
            let removed = removed_item(edit, desk.members());
            let members = TableName::Desk(DeskTable::Members);
            only_row_exchange(alloc, members, removed, added_item(edit))
        }
        DeskChange::Open(review) => {
            let reviews = TableName::Desk(DeskTable::Reviews);
            only_row_exchange(alloc, reviews, None, Some(review))
        }
        DeskChange::Turn(place, state) => review_turned(alloc, desk.reviews().get(*place), state),
        DeskChange::Finish(place, _) => match entry {
            Some(number) => {
                let state = ReviewState::Finished(number);
                review_turned(alloc, desk.reviews().get(*place), &state)
            }
            None => Ok(Vec::new(alloc)),
        },
    }
}

// The exchange of the row of a review, if there is one, for its row in another state.
fn review_turned(
    alloc: Global,
    review: Option<&Review>,
    state: &ReviewState,
) -> Result<Vec<Exchange>, AllocError>
    requires held { (r : Review) → option_copied review ≡ Some r → ReviewFits r }
    requires added { (r : Review) → option_copied review ≡ Some r → ReviewFits (in_state state.now r) }
    ensures { IfOk result (λ exchanges. exchanges.items
        ≡ turned_exchange state.now (option_copied review.entry) ∷ []) }
{
    let removed = row_if(alloc, review)?;
    let added = turned(alloc, review, state)?;
    let reviews = Exchange::of(TableName::Desk(DeskTable::Reviews), removed, added);
    Ok(vec![in alloc; reviews]?)
}

// The row of a review in another state, if there is one.
fn turned(
    alloc: Global,
    review: Option<&Review>,
    state: &ReviewState,
) -> Result<Vec<Row>, AllocError>
    requires { (r : Review) → option_copied review ≡ Some r → ReviewFits (in_state state.now r) }
    ensures { IfOk result (λ rows. rows.items
        ≡ rows_if the_review (option_map (in_state state.now) (option_copied review.entry))) }
{
    let mut rows = Vec::new(alloc);
    if let Some(review) = review {
        rows.push(turned_row(alloc, review, state)?)?;
    }
    Ok(rows)
}
