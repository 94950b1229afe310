//! Reading the rows of moves.
ghost use Rattle.std.specs.Prelude.{◌≡◌, IfErr, IfOk, List, MatchResult, Ok, Option, map};
ghost use Rattle.std.specs.List.{All, AllPairs};
ghost use Rattle.vet_base.specs.Items.{SameItems};
ghost use Rattle.vet_graph.specs.declared.class.Class.{Class as ClassValue};
ghost use Rattle.vet_item_rows.specs.Columns.{class_or_none};
ghost use Rattle.vet_item_rows.specs.ReadBack.{IsWritten, Reads};
ghost use Rattle.vet_register.specs.Sound.{ComesBefore};
ghost use Rattle.vet_register.specs.declared.moves.RecordedMove.{RecordedMove as RecordedValue};
ghost use Rattle.vet_rows.specs.HeldValues.{IsRecordedMove};
ghost use Rattle.vet_rows.specs.MoveOrder.{recorded_cmp, recorded_total};
ghost use Rattle.vet_rows.specs.StandingRows.{move_row};

use std::alloc::{AllocError, Global};
use std::cmp::Ordering;
use std::marker::Model;
use vet_base::ranked::{Ranked, rank};
use vet_demand::pair::Pair;
use vet_graph::class::Class;
use vet_graph::moves::Move;
use vet_item_rows::read::columns::{day, name, number, package_name, version};
use vet_item_rows::read::from_row::{FromRow, read_rows};
use vet_item_rows::read::read_error::ReadError;
use vet_register::moves::RecordedMove;
use vet_tables::cell::Cell;
use vet_tables::sequence::Row;

/// A move, ordered by its step and then by its pair.
pub(crate) struct OrderedMove {
    recorded: RecordedMove,
}

impl Drop for OrderedMove {
    fn drop(self) {
        let OrderedMove { recorded: _ } = self;
    }
}

impl Model for OrderedMove {
    ghost use Rattle.vet_register.specs.contracts.moves.RecordedMove as kept;
    ghost use Rattle.vet_register.specs.declared.moves.RecordedMove.{RecordedMove};

    ghost Value = { RecordedMove };

    ghost coded = { kept.the_row.coded };

    ghost view = { λ m. m.recorded };
}

impl OrderedMove {
    // The move itself. Takes no memory.
    fn into_recorded(self) -> RecordedMove
        ensures { result ≡ self }
    {
        let OrderedMove { recorded } = self;
        recorded
    }
}

impl Ranked for OrderedMove {
    ghost rank_cmp = { recorded_cmp };

    ghost rank_total = { recorded_total };

    fn cmp_rank(&self, other: &OrderedMove) -> Ordering {
        self.recorded
            .step
            .cmp(&other.recorded.step)
            .then(self.recorded.change.pair.cmp(&other.recorded.change.pair))
    }
}

/// The moves of these rows, in the order in which they were recorded.
pub(crate) fn moves(alloc: Global, rows: &[Row]) -> Result<Vec<RecordedMove>, ReadError>
    ensures { (list : List RecordedValue) → AllPairs ComesBefore list → All IsRecordedMove list
        → SameItems rows.now (map move_row list)
        → MatchResult result (λ v. v.items ≡ list) (λ e. e ≡ ReadError.NoMemory) }
{
    let moves = read_rows::<OrderedMove>(alloc, rows)?;
    Ok(recorded_moves(alloc, rank(moves)?)?)
}

// The recorded moves, in this order.
fn recorded_moves(alloc: Global, ordered: Vec<OrderedMove>) -> Result<Vec<RecordedMove>, AllocError>
    ensures { IfOk result (λ moves. moves.items ≡ ordered.items) }
{
    let mut moves = Vec::new(alloc);
    'ordered: for one in ordered {
        moves.push(one.into_recorded())?;
    }
    Ok(moves)
}

impl FromRow for OrderedMove {
    ghost stands_for = { IsWritten IsRecordedMove move_row };

    fn from_row(alloc: Global, row: &Row) -> Result<OrderedMove, ReadError> {
        let [Cell::Int(step), _, _, _, Cell::Int(on_day), ..] = row.as_slice() else {
            return Err(ReadError::NotARegister);
        };
        let recorded = RecordedMove {
            step: number(*step)?,
            day: day(*on_day)?,
            change: change(alloc, row)?,
        };
        Ok(OrderedMove { recorded })
    }
}

// The move of a row.
fn change(alloc: Global, row: &Row) -> Result<Move, ReadError>
    ensures { (m : RecordedValue) → IsWritten IsRecordedMove move_row row.now m → Reads result m.change }
{
    let [_, _, _, _, _, Cell::Int(before), Cell::Int(after)] = row.as_slice() else {
        return Err(ReadError::NotARegister);
    };
    let before = class_or_none(*before)?;
    let after = class_or_none(*after)?;
    Ok(Move {
        pair: pair(alloc, row)?,
        before,
        after,
    })
}

// The pair of a row.
fn pair(alloc: Global, row: &Row) -> Result<Pair, ReadError>
    ensures { (m : RecordedValue) → IsWritten IsRecordedMove move_row row.now m → Reads result m.change.pair }
{
    let [
        _,
        Cell::Text(package),
        Cell::Text(of_version),
        Cell::Text(criterion),
        ..
    ] = row.as_slice()
    else {
        return Err(ReadError::NotARegister);
    };
    Ok(Pair {
        package: package_name(alloc, package.as_str())?,
        version: version(alloc, of_version.as_str())?,
        criterion: name(alloc, criterion.as_str())?,
    })
}

// A class by its number, or no class for 5. Takes no memory.
fn class_or_none(column: i64) -> Result<Option<Class>, ReadError>
    ensures read { (class : Option ClassValue) → column ≡ class_or_none class → result ≡ Ok class }
    ensures only { IfOk result (λ class. column ≡ class_or_none class) }
    ensures refused { IfErr result (λ e. e ≡ ReadError.NotARegister) }
{
    match column {
        0 => Ok(Some(Class::Conflicting)),
        1 => Ok(Some(Class::Full)),
        2 => Ok(Some(Class::Partial)),
        3 => Ok(Some(Class::Exempted)),
        4 => Ok(Some(Class::Unvetted)),
        5 => Ok(None),
        _ => Err(ReadError::NotARegister),
    }
}
