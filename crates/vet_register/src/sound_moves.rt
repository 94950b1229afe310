//! Whether recorded moves are sound, and the counts balanced.
//!
//! **Moves pass exactly if they are in the order in which they were recorded, within the step and the limit. Counts are
//! balanced exactly if, for each class, the first count plus the arrivals is the present count plus the departures.**
ghost use Rattle.std.specs.List.{All, AllPairs};
ghost use Rattle.std.specs.Option.{option_eq};
ghost use Rattle.std.specs.Prelude.{◌≡◌, ◌↔◌, IsTrue, Some};
ghost use Rattle.vet_graph.specs.Moves.{arrivals_of, departures_of};
ghost use Rattle.vet_graph.specs.Standing.{same_class};
ghost use Rattle.vet_register.specs.Checks.{Checks};
ghost use Rattle.vet_register.specs.Sound.{AreInOrder, ComesBefore, IsBy};
ghost use Rattle.vet_register.specs.SoundMoves.{AreBalanced, comes_before, is_balanced_in};
ghost use Rattle.vet_register.specs.State.{changes_of};

use crate::moves::RecordedMove;
use vet_base::refusal::Refusal;
use vet_graph::class::Class;
use vet_graph::standing::Counts;

/// Whether moves are in their order, none of a later step than this, and within a limit. Costs a look at each, and a
/// comparison with the next. Refused: `NotARegister` if they are not.
pub(crate) fn check_moves(moves: &[RecordedMove], step: u64, limit: usize) -> Result<(), Refusal>
    ensures { Checks (AreInOrder moves.now step limit) result }
{
    if moves.len() > limit {
        return Err(Refusal::NotARegister);
    }
    if !are_by(step, moves) {
        return Err(Refusal::NotARegister);
    }
    if !are_in_order(moves) {
        return Err(Refusal::NotARegister);
    }
    Ok(())
}

/// Whether moves lead from some counts to others. Costs two looks at each move for each class.
pub(crate) fn are_balanced(first: Counts, now: Counts, moves: &[RecordedMove]) -> bool
    ensures { IsTrue result ↔ AreBalanced first now (changes_of moves.now) }
{
    if !is_balanced(Class::Conflicting, first, now, moves) {
        return false;
    }
    if !is_balanced(Class::Full, first, now, moves) {
        return false;
    }
    if !is_balanced(Class::Partial, first, now, moves) {
        return false;
    }
    if !is_balanced(Class::Exempted, first, now, moves) {
        return false;
    }
    is_balanced(Class::Unvetted, first, now, moves)
}

// Whether no move is of a later step than this.
fn are_by(step: u64, moves: &[RecordedMove]) -> bool
    ensures { IsTrue result ↔ All (IsBy step) moves.now }
{
    moves.iter().all(|recorded| recorded.step <= step)
}

// Whether each move was recorded before those after it.
fn are_in_order(moves: &[RecordedMove]) -> bool
    ensures { IsTrue result ↔ AllPairs ComesBefore moves.now }
{
    let mut place = 1;
    'moves: while place < moves.len() {
        let before = &moves[place - 1];
        let after = &moves[place];
        if !comes_before(before, after) {
            return false;
        }
        place += 1;
    }
    true
}

// Whether a move was recorded before another.
fn comes_before(before: &RecordedMove, after: &RecordedMove) -> bool
    ensures { result ≡ comes_before before.now after.now }
{
    before
        .step
        .cmp(&after.step)
        .then(before.change.pair.cmp(&after.change.pair))
        .is_lt()
}

// Whether moves lead from some counts to others in one class.
fn is_balanced(class: Class, first: Counts, now: Counts, moves: &[RecordedMove]) -> bool
    ensures { result ≡ is_balanced_in class first now (changes_of moves.now) }
{
    let came = u128::from(first.of(class)) + arrivals_at(class, moves) as u128;
    let went = u128::from(now.of(class)) + departures_from(class, moves) as u128;
    came == went
}

/// How many moves arrive at a class.
pub(crate) fn arrivals_at(class: Class, moves: &[RecordedMove]) -> usize
    ensures { result ≡ arrivals_of class (changes_of moves.now) }
{
    moves
        .iter()
        .filter(|recorded| is_in(recorded.change.after, class))
        .count()
}

// How many moves depart from a class.
fn departures_from(class: Class, moves: &[RecordedMove]) -> usize
    ensures { result ≡ departures_of class (changes_of moves.now) }
{
    moves
        .iter()
        .filter(|recorded| is_in(recorded.change.before, class))
        .count()
}

// Whether there is a class, and it is this one.
fn is_in(found: Option<Class>, class: Class) -> bool
    ensures { result ≡ option_eq same_class found (Some class) }
{
    match found {
        Some(other) => other == class,
        None => false,
    }
}
