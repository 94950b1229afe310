//! The report of moves.
ghost use Rattle.std.specs.Prelude.{◌≡◌, ◌++◌, IfErr, IfOk, OnOk, string_bytes};
ghost use Rattle.std.specs.List.{flat_map};
ghost use Rattle.vet_reports.specs.ByExample as example;
ghost use Rattle.vet_reports.specs.Columns.{line};
ghost use Rattle.vet_reports.specs.MovesText.{change_columns, class_or_none, move_line, moves_text};

use crate::columns::{push_left, push_number, push_pair};
use std::alloc::{AllocError, Global};
use vet_base::refusal::Refusal;
use vet_graph::class::Class;
use vet_graph::keeper::Keeper;
use vet_graph::moves::Move;
use vet_register::moves::RecordedMove;
use vet_register::register::Register;

/// The report of moves: a line for each recorded move, in their order. A line has the step, aligned right in 8
/// characters, the day, the pair as in the standing, the class before, aligned left in 11, and the class after; `none`
/// if the pair isn't demanded. Costs a look at each move. Refused: `NoMemory`.
pub fn moves_text<K: Keeper>(alloc: Global, register: &Register<K>) -> Result<String, Refusal>
    ensures text { IfOk result (λ text. string_bytes text ≡ moves_text register.now.state) }
    ensures memory { IfErr result (λ e. e ≡ Refusal.NoMemory) }
{
    let mut text = String::new(alloc);
    push_moves(alloc, &mut text, register.moves())?;
    Ok(text)
}

// Adds the lines of moves.
fn push_moves(alloc: Global, text: &mut String, moves: &[RecordedMove]) -> Result<(), AllocError>
    ensures { OnOk result (string_bytes text.new ≡ string_bytes text.old ++ flat_map move_line moves.now) }
{
    'moves: for recorded in moves {
        push_move(alloc, text, recorded)?;
    }
    Ok(())
}

// Adds the line of a move.
fn push_move(alloc: Global, text: &mut String, recorded: &RecordedMove) -> Result<(), AllocError>
    ensures { OnOk result (string_bytes text.new ≡ string_bytes text.old ++ move_line recorded.now) }
{
    let day = recorded.day;
    push_number(text, 8, recorded.step)?;
    write!(text, " {day} ")?;
    push_change(alloc, text, &recorded.change)
}

// Adds the columns of a change of class, and ends the line.
fn push_change(alloc: Global, text: &mut String, change: &Move) -> Result<(), AllocError>
    ensures { OnOk result (string_bytes text.new ≡ string_bytes text.old ++ line (change_columns change.now)) }
{
    push_pair(alloc, text, &change.pair)?;
    push_left(text, 11, class_or_none(change.before))?;
    text.push(' ')?;
    text.push_str(class_or_none(change.after))?;
    text.push('\n')
}

// The word of a class, or `none`.
fn class_or_none(class: Option<Class>) -> &'static str
    ensures { result.now ≡ class_or_none class }
{
    match class {
        None => "none",
        Some(class) => class.word(),
    }
}

/// A report of moves by example. Does nothing.
pub fn moves_by_example()
    ensures { flat_map move_line example.moves ≡ example.moves_report }
{}
