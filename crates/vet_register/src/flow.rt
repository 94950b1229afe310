//! How many recorded moves arrive at each class, and how many depart from each.
//!
//! **The arrivals are kept as moves are recorded, and the departures follow from them by the balance of each class: no
//! recorded move is looked at again.**
ghost use Rattle.std.specs.Prelude.{◌≡◌, ◌++◌, ◌<◌, ◌^◌, List, length};
ghost use Rattle.vet_graph.specs.declared.moves.Move.{Move};
ghost use Rattle.vet_graph.specs.Moves.{arrivals_of, departures_of};
ghost use Rattle.vet_register.specs.Changes.{moves_by};
ghost use Rattle.vet_register.specs.declared.moves.RecordedMove.{RecordedMove};
ghost use Rattle.vet_register.specs.Flow.{arrivals, departures};
ghost use Rattle.vet_register.specs.SoundMoves.{AreBalanced};
ghost use Rattle.vet_register.specs.State.{changes_of};

use crate::moves::{RecordedMove, Recording};
use crate::sound_moves::arrivals_at;
use vet_graph::class::Class;
use vet_graph::laws::runs_of_moves_add;
use vet_graph::standing::Counts;

/// How many moves arrive at each class. Looks at each move five times.
pub(crate) fn arrivals(moves: &[RecordedMove]) -> Counts
    ensures { result ≡ arrivals (changes_of moves.now) }
{
    Counts {
        conflicting: arrivals_at(Class::Conflicting, moves) as u64,
        full: arrivals_at(Class::Full, moves) as u64,
        partial: arrivals_at(Class::Partial, moves) as u64,
        exempted: arrivals_at(Class::Exempted, moves) as u64,
        unvetted: arrivals_at(Class::Unvetted, moves) as u64,
    }
}

/// The arrivals after a recording, from those before it. Looks only at the moves that are added.
pub(crate) fn arrivals_after(arrived: Counts, recording: &Recording) -> Counts
    requires { (moves : List RecordedMove) × (arrived ≡ arrivals (changes_of moves))
        × (length (moves_by recording.now moves) < 2 ^ 64) }
    ensures { (moves : List RecordedMove) → arrived ≡ arrivals (changes_of moves)
        → result ≡ arrivals (changes_of (moves_by recording.now moves)) }
{
    match recording {
        Recording::Behind(more) => arrivals_behind(arrived, more.as_slice()),
        Recording::Anew(_) => arrivals(&[]),
    }
}

// The arrivals of some moves and of more after them, from the arrivals of the first.
fn arrivals_behind(arrived: Counts, more: &[RecordedMove]) -> Counts
    requires { (moves : List RecordedMove) × (arrived ≡ arrivals (changes_of moves))
        × (length (moves ++ more.now) < 2 ^ 64) }
    ensures { (moves : List RecordedMove) → arrived ≡ arrivals (changes_of moves)
        → result ≡ arrivals (changes_of (moves ++ more.now)) }
{
    Counts {
        conflicting: arrived_behind(Class::Conflicting, arrived, more),
        full: arrived_behind(Class::Full, arrived, more),
        partial: arrived_behind(Class::Partial, arrived, more),
        exempted: arrived_behind(Class::Exempted, arrived, more),
        unvetted: arrived_behind(Class::Unvetted, arrived, more),
    }
}

// The arrivals at one class.
fn arrived_behind(class: Class, arrived: Counts, more: &[RecordedMove]) -> u64
    requires { (moves : List RecordedMove) × (arrived ≡ arrivals (changes_of moves))
        × (length (moves ++ more.now) < 2 ^ 64) }
    ensures { (moves : List RecordedMove) → arrived ≡ arrivals (changes_of moves)
        → result ≡ arrivals_of class (changes_of (moves ++ more.now)) }
{
    runs_of_moves_add();
    arrived.of(class) + arrivals_at(class, more) as u64
}

/// How many moves depart from each class, if they lead from the first counts to the present ones. Looks at no move.
pub(crate) fn departures(first: Counts, arrived: Counts, present: Counts) -> Counts
    requires { (moves : List Move) × (arrived ≡ arrivals moves) × AreBalanced first present moves
        × (length moves < 2 ^ 64) }
    ensures { (moves : List Move) → arrived ≡ arrivals moves → AreBalanced first present moves
        → result ≡ departures moves }
{
    Counts {
        conflicting: departed(Class::Conflicting, first, arrived, present),
        full: departed(Class::Full, first, arrived, present),
        partial: departed(Class::Partial, first, arrived, present),
        exempted: departed(Class::Exempted, first, arrived, present),
        unvetted: departed(Class::Unvetted, first, arrived, present),
    }
}

// The departures from one class: the first count plus the arrivals is the present count plus the departures.
fn departed(class: Class, first: Counts, arrived: Counts, present: Counts) -> u64
    requires { (moves : List Move) × (arrived ≡ arrivals moves) × AreBalanced first present moves
        × (length moves < 2 ^ 64) }
    ensures { (moves : List Move) → arrived ≡ arrivals moves → AreBalanced first present moves
        → result ≡ departures_of class moves }
{
    let came = u128::from(first.of(class)) + u128::from(arrived.of(class));
    (came - u128::from(present.of(class))) as u64
}
