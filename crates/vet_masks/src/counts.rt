//! How many pairs stand in each class, as moves change it.
ghost use Rattle.std.specs.Prelude.{◌≡◌, ◌^◌, ◌<◌, List, length};
ghost use Rattle.vet_graph.specs.declared.standing.Stand.{Stand};
ghost use Rattle.vet_graph.specs.Moves.{arrivals_of, departures_of, moves_between};
ghost use Rattle.vet_graph.specs.Standing.{count_in, count_of, counts_of};

use vet_graph::class::Class;
use vet_graph::laws::moves_balance;
use vet_graph::moves::Move;
use vet_graph::standing::Counts;

// The counts of a standing, from those of the one before it and the moves between them. Looks at each move twice for
// each class.
pub(crate) fn counts_after(counts: Counts, moves: &[Move]) -> Counts
    requires { (before : List Stand) × (after : List Stand) × (counts ≡ counts_of before)
        × (moves.now ≡ moves_between before after) × (length after < 2 ^ 64) }
    ensures { (before after : List Stand) → counts ≡ counts_of before → moves.now ≡ moves_between before after
        → result ≡ counts_of after }
{
    Counts {
        conflicting: count_after(counts, Class::Conflicting, moves),
        full: count_after(counts, Class::Full, moves),
        partial: count_after(counts, Class::Partial, moves),
        exempted: count_after(counts, Class::Exempted, moves),
        unvetted: count_after(counts, Class::Unvetted, moves),
    }
}

// The count of one class.
fn count_after(counts: Counts, class: Class, moves: &[Move]) -> u64
    requires { (before : List Stand) × (after : List Stand) × (counts ≡ counts_of before)
        × (moves.now ≡ moves_between before after) × (length after < 2 ^ 64) }
    ensures { (before after : List Stand) → counts ≡ counts_of before → moves.now ≡ moves_between before after
        → result ≡ count_of class after }
{
    moves_balance();
    let there = counts.of(class) as u128 + arrivals(moves, class) as u128;
    (there - departures(moves, class) as u128) as u64
}

// How many moves arrive at a class.
fn arrivals(moves: &[Move], class: Class) -> usize
    ensures { result ≡ arrivals_of class moves.now }
{
    moves
        .iter()
        .filter(|change| change.after == Some(class))
        .count()
}

// How many moves depart from a class.
fn departures(moves: &[Move], class: Class) -> usize
    ensures { result ≡ departures_of class moves.now }
{
    moves
        .iter()
        .filter(|change| change.before == Some(class))
        .count()
}
