//! The rows of the standing and of moves that are removed and added for the moves that a change records.
//!
//! **These are the standing's rows of the pairs that move, and no others.**
ghost use Rattle.std.specs.List.{All};
ghost use Rattle.std.specs.Prelude.{◌≡◌, IfOk, filter, map};
ghost use Rattle.vet_rows.specs.Numbers.{MoveFits};
ghost use Rattle.vet_rows.specs.StandingChanges.{clear_moves, leaves, move_exchanges, moved_row, recorded_moves};
ghost use Rattle.vet_rows.specs.StandingChanges.{stands};

use crate::row_change::RowChange;
use crate::row_changes::exchange::Exchange;
use crate::rows_of::to_row::rows_each;
use std::alloc::{AllocError, Global};
use vet_item_rows::rows_of::columns::{class_or_none, version_column};
use vet_register::moves::{RecordedMove, Recording};
use vet_tables::cell::Cell;
use vet_tables::sequence::{Row, Sequence};
use vet_tables::table_name::TableName;

/// The moves that are recorded. Takes no memory.
pub fn recorded_moves(recording: &Recording) -> &[RecordedMove]
    ensures { result.now ≡ recorded_moves recording.now }
{
    match recording {
        Recording::Behind(more) => more.as_slice(),
        Recording::Anew(_) => &[],
    }
}

/// The rows of the standing and of moves that are removed and added for what is recorded. Asks that the steps of moves
/// are below 2^63. Fails only if memory runs out.
pub fn move_exchanges(alloc: Global, recording: &Recording) -> Result<Vec<Exchange>, AllocError>
    requires { All MoveFits (recorded_moves recording.now) }
    ensures { IfOk result (λ exchanges. exchanges.items ≡ move_exchanges recording.now) }
{
    let more = recorded_moves(recording);
    let removed = standing_removed(alloc, more)?;
    let added = standing_added(alloc, more)?;
    let standing = Exchange::of(TableName::Standing, removed, added);
    let rows = rows_each(alloc, more)?;
    let moves = Exchange::of(TableName::Moves, Vec::new(alloc), rows);
    Ok(vec![in alloc; standing, moves]?)
}

// The rows of the pairs that aren't demanded any more.
fn standing_removed(alloc: Global, moves: &[RecordedMove]) -> Result<Vec<Row>, AllocError>
    ensures { IfOk result (λ rows. rows.items ≡ map moved_row (filter leaves moves.now)) }
{
    let mut rows = Vec::new(alloc);
    'moves: for recorded in moves {
        if recorded.change.after.is_none() {
            rows.push(moved_row(alloc, recorded)?)?;
        }
    }
    Ok(rows)
}

// The rows of the pairs that get a class.
fn standing_added(alloc: Global, moves: &[RecordedMove]) -> Result<Vec<Row>, AllocError>
    ensures { IfOk result (λ rows. rows.items ≡ map moved_row (filter stands moves.now)) }
{
    let mut rows = Vec::new(alloc);
    'moves: for recorded in moves {
        if recorded.change.after.is_some() {
            rows.push(moved_row(alloc, recorded)?)?;
        }
    }
    Ok(rows)
}

// The row of the pair of a move.
fn moved_row(alloc: Global, recorded: &RecordedMove) -> Result<Row, AllocError>
    ensures { IfOk result (λ row. row ≡ moved_row recorded.now) }
{
    let change = &recorded.change;
    let cells = vec![in alloc;
        Cell::text(alloc, change.pair.package.as_str())?,
        Cell::Text(version_column(alloc, &change.pair.version)?),
        Cell::text(alloc, change.pair.criterion.as_str())?,
        Cell::Int(class_or_none(change.after)),
    ]?;
    Ok(Sequence::of(cells))
}

/// If a period begins, the change that removes all moves. Fails only if memory runs out.
pub fn clear_moves(alloc: Global, recording: &Recording) -> Result<Vec<RowChange>, AllocError>
    ensures { IfOk result (λ changes. changes.items ≡ clear_moves recording.now) }
{
    match recording {
        Recording::Behind(_) => Ok(Vec::new(alloc)),
        Recording::Anew(_) => Ok(vec![in alloc; RowChange::Clear(TableName::Moves)]?),
    }
}
