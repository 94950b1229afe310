//! The moves from one standing to another.
//!
//! **The moves are the pairs at which the standings differ, each once, in order, with both classes.**
ghost use Rattle.std.specs.Prelude.{◌≡◌, ◌++◌, ◌∷◌, [], IfOk, IfErr, OnOk, map};
ghost use Rattle.vet_graph.specs.Moves.{changes, comes, leaves, moves_between};

use crate::class::Class;
use crate::standing::Stand;
use std::alloc::{AllocError, Global};
use std::cmp::Ordering;
use vet_base::refusal::Refusal;
use vet_demand::pair::Pair;

/// A pair whose class changed, with its class before and after: `None` if the pair is not demanded then.
pub struct Move {
    pub pair: Pair,
    pub before: Option<Class>,
    pub after: Option<Class>,
}

impl Drop for Move {
    fn drop(self) {
        let Move {
            pair: _,
            before: _,
            after: _,
        } = self;
    }
}

impl Clone for Move {
    ghost is_clone = { λ a b. b ≡ a };

    fn clone(&self) -> Result<Move, AllocError> {
        Ok(Move {
            pair: self.pair.clone()?,
            before: self.before,
            after: self.after,
        })
    }
}

/// The moves from one standing to another, found by one walk along both. If both are in order, so are the moves.
/// Refused: `NoMemory`.
pub fn differences(alloc: Global, before: &[Stand], after: &[Stand]) -> Result<Vec<Move>, Refusal>
    ensures ok { IfOk result (λ moves. moves.items ≡ moves_between before.now after.now) }
    ensures memory { IfErr result (λ e. e ≡ Refusal.NoMemory) }
{
    let mut moves = Vec::new(alloc);
    let mut old = 0;
    let mut new = 0;
    while old < before.len() && new < after.len() {
        match before[old].pair.cmp(&after[new].pair) {
            Ordering::Less => {
                push_leaving(&mut moves, &before[old])?;
                old += 1;
            }
            Ordering::Equal => {
                push_changing(&mut moves, &before[old], &after[new])?;
                old += 1;
                new += 1;
            }
            Ordering::Greater => {
                push_coming(&mut moves, &after[new])?;
                new += 1;
            }
        }
    }
    push_all_leaving(&mut moves, &before[old..])?;
    push_all_coming(&mut moves, &after[new..])?;
    Ok(moves)
}

// Adds a move of a pair.
fn push(
    moves: &mut Vec<Move>,
    pair: &Pair,
    before: Option<Class>,
    after: Option<Class>,
) -> Result<(), Refusal>
    ensures ok { OnOk result (moves.new.items
        ≡ moves.old.items ++ record { pair = pair.now; before = before; after = after } ∷ []) }
    ensures memory { IfErr result (λ e. e ≡ Refusal.NoMemory) }
{
    moves.push(Move {
        pair: pair.clone()?,
        before,
        after,
    })?;
    Ok(())
}

fn push_leaving(moves: &mut Vec<Move>, stand: &Stand) -> Result<(), Refusal>
    ensures ok { OnOk result (moves.new.items ≡ moves.old.items ++ leaves stand.now ∷ []) }
    ensures memory { IfErr result (λ e. e ≡ Refusal.NoMemory) }
{
    push(moves, &stand.pair, Some(stand.class), None)
}

fn push_coming(moves: &mut Vec<Move>, stand: &Stand) -> Result<(), Refusal>
    ensures ok { OnOk result (moves.new.items ≡ moves.old.items ++ comes stand.now ∷ []) }
    ensures memory { IfErr result (λ e. e ≡ Refusal.NoMemory) }
{
    push(moves, &stand.pair, None, Some(stand.class))
}

// Adds the move of a pair that is in both standings, if its classes differ.
fn push_changing(moves: &mut Vec<Move>, old: &Stand, new: &Stand) -> Result<(), Refusal>
    ensures ok { OnOk result (moves.new.items ≡ moves.old.items ++ changes old.now new.now) }
    ensures memory { IfErr result (λ e. e ≡ Refusal.NoMemory) }
{
    if old.class == new.class {
        return Ok(());
    }
    push(moves, &old.pair, Some(old.class), Some(new.class))
}

fn push_all_leaving(moves: &mut Vec<Move>, standing: &[Stand]) -> Result<(), Refusal>
    ensures ok { OnOk result (moves.new.items ≡ moves.old.items ++ map leaves standing.now) }
    ensures memory { IfErr result (λ e. e ≡ Refusal.NoMemory) }
{
    for stand in standing {
        push_leaving(moves, stand)?;
    }
    Ok(())
}

fn push_all_coming(moves: &mut Vec<Move>, standing: &[Stand]) -> Result<(), Refusal>
    ensures ok { OnOk result (moves.new.items ≡ moves.old.items ++ map comes standing.now) }
    ensures memory { IfErr result (λ e. e ≡ Refusal.NoMemory) }
{
    for stand in standing {
        push_coming(moves, stand)?;
    }
    Ok(())
}
