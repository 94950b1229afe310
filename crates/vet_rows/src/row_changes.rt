//! What a prepared change does to the rows of the tables.
//!
//! **Made in their order on the rows of the state, the changes lead to the rows of the state after it.**
//!
//! An edit of what is held, or of the desk, says in one place which rows it removes and which it adds: it has an
//! exchange for each table that it touches (`fact_changes`, `held_changes`, `desk_changes`). So has what is recorded
//! (`standing_changes`), the row of `meta` (`meta_change`), and the rows of days (`day_changes`).
//!
//! If a period begins, all moves are removed at once. Then each exchange removes some rows, each by its key, and adds
//! others. If one thing is exchanged for another, the rows of the one are removed and those of the other are added.
//! There may be thousands of entries, last days, publisher records, nodes and edges, so of these only the rows that
//! differ are written. Of the standing, only the rows of the pairs in the change's moves are.
//!
//! No two rows of a table have the same key. This follows from the texts in their keys: each reads back as the value
//! that it is written for, and no peer has the empty name, which stands for oneself (`key_texts`).
ghost use Rattle.std.specs.List.{flat_map};
ghost use Rattle.std.specs.Prelude.{◌≡◌, ◌++◌, IfErr, IfOk, OnOk};
ghost use Rattle.vet_base.specs.Items.{IsIn};
ghost use Rattle.vet_register.specs.Changes.{changed};
ghost use Rattle.vet_register.specs.Machine.{CommandValue, moves_of, next};
ghost use Rattle.vet_register.specs.RegisterView.{IsPrepared};
ghost use Rattle.vet_rows.specs.AddedNumbers.{AddedNumbersFit};
ghost use Rattle.vet_rows.specs.ChangedRows.{change_exchanges};
ghost use Rattle.vet_rows.specs.FitChanges.{Fits};
ghost use Rattle.vet_rows.specs.KeyTexts.{AreRead};
ghost use Rattle.vet_rows.specs.Numbers.{CountsFit};
ghost use Rattle.vet_rows.specs.RowChanges.{all_changed};
ghost use Rattle.vet_rows.specs.RowExchanges.{row_changes_of};
ghost use Rattle.vet_rows.specs.RowsOf.{rows_of};
ghost use Rattle.vet_rows.specs.StandingChanges.{IsOfMoves, clear_moves};
ghost use Rattle.vet_rows.specs.declared.row_change.RowChange.{RowChange};
ghost use Rattle.vet_tables.specs.Cells.{SameRows};

mod day_changes;
mod desk_changes;
mod difference;
mod exchange;
mod fact_changes;
mod held_changes;
pub(crate) mod key_texts;
mod keyed_items;
mod meta_change;
mod standing_changes;

use crate::row_change::RowChange;
use crate::row_changes::day_changes::day_exchanges;
use crate::row_changes::desk_changes::desk_exchanges;
use crate::row_changes::exchange::Exchange;
use crate::row_changes::held_changes::held_exchanges;
use crate::row_changes::key_texts::{
    keys_after_are_read, keys_are_read, moves_are_read, pairs_are_read, peers_after_are_named,
    peers_are_named, projects_added_are_read, projects_held_are_read,
};
use crate::row_changes::meta_change::meta_exchange;
use crate::row_changes::standing_changes::{clear_moves, move_exchanges, recorded_moves};
use crate::rows_of::meta_rows::{counts_fit, numbers_fit};
use std::alloc::{AllocError, Global};
use vet_base::refusal::Refusal;
use vet_demand::laws::demand_is_least;
use vet_graph::keeper::Keeper;
use vet_graph::laws::moves_are_differences;
use vet_register::change::Change;
use vet_register::register::Register;

/// The changes of rows for a change that this register prepared in its present state. Costs a look at each row that is
/// removed or added, and at each demanded pair, policy and peer. Refused: `NoMemory`.
pub fn row_changes<K: Keeper>(
    alloc: Global,
    register: &Register<K>,
    change: &Change<K>,
) -> Result<Vec<RowChange>, Refusal>
    requires { (command : CommandValue) × IsPrepared K.keeping register.now command change.now }
    ensures ok { IfOk result (λ changes. (command : CommandValue)
        → IsPrepared K.keeping register.now command change.now
        → SameRows (all_changed changes.items (rows_of register.now.state))
        (rows_of (next register.now.state command))) }
    ensures standing { IfOk result (λ changes. (command : CommandValue)
        → IsPrepared K.keeping register.now command change.now
        → (c : RowChange) → IsIn c changes.items
        → IsOfMoves (moves_of register.now.state command.day command.action) c) }
    ensures fit { IfOk result (λ changes. (c : RowChange) → IsIn c changes.items → Fits c) }
    ensures memory { IfErr result (λ e. e ≡ Refusal.NoMemory) }
{
    moves_are_differences();
    demand_is_least();
    let _ = register.facts();
    texts_are_read(register, change);
    counts_fit_after(register, change);
    match all_changes(alloc, register, change) {
        Ok(changes) => Ok(changes),
        Err(e) => Err(Refusal::from(e)),
    }
}

// The texts of keys before and after a change read back as what they are written for. Does nothing.
fn texts_are_read<K: Keeper>(register: &Register<K>, change: &Change<K>)
    requires { (command : CommandValue) × IsPrepared K.keeping register.now command change.now }
    ensures { AreRead register.now.state change.now }
{
    let _ = register.facts();
    peers_are_named(register.peers());
    peers_after_are_named(register, change.edit());
    keys_are_read(register.policies());
    keys_after_are_read(register, change.edit());
    projects_added_are_read(change.edit());
    projects_held_are_read(register.projects(), change.edit());
    pairs_are_read(register.demand());
    moves_are_read(recorded_moves(change.recording()));
}

// The counts at first have columns after a change. Does nothing.
fn counts_fit_after<K: Keeper>(register: &Register<K>, change: &Change<K>)
    requires { (command : CommandValue) × IsPrepared K.keeping register.now command change.now }
    ensures { CountsFit (changed change.now register.now.state).first }
{
    counts_fit(register);
    let _ = register.demand();
}

// All changes: if a period begins, the one that removes all moves, and then those of each exchange.
fn all_changes<K: Keeper>(
    alloc: Global,
    register: &Register<K>,
    change: &Change<K>,
) -> Result<Vec<RowChange>, AllocError>
    requires numbers { AddedNumbersFit register.now.state change.now }
    ensures { IfOk result (λ changes. changes.items ≡ clear_moves change.now.recording
        ++ flat_map row_changes_of (change_exchanges register.now.state change.now)) }
{
    let exchanges = change_exchanges(alloc, register, change)?;
    let mut changes = clear_moves(alloc, change.recording())?;
    push_exchanges(alloc, &mut changes, exchanges)?;
    Ok(changes)
}

// The rows that a change removes and adds: of `meta`, of what is held, of the standing and moves, of the desk, and of
// days.
fn change_exchanges<K: Keeper>(
    alloc: Global,
    register: &Register<K>,
    change: &Change<K>,
) -> Result<Vec<Exchange>, AllocError>
    requires { AddedNumbersFit register.now.state change.now }
    ensures { IfOk result (λ exchanges. exchanges.items ≡ change_exchanges register.now.state change.now) }
{
    numbers_fit(register);
    let meta = meta_exchange(alloc, register, change)?;
    let mut exchanges = vec![in alloc; meta]?;
    let mut held = held_exchanges(alloc, change.edit(), register)?;
    exchanges.append(&mut held)?;
    let mut moves = move_exchanges(alloc, change.recording())?;
    exchanges.append(&mut moves)?;
    let mut desk = desk_exchanges(alloc, change.desk(), register.desk())?;
    exchanges.append(&mut desk)?;
    let mut days = day_exchanges(alloc, change.edit(), register)?;
    exchanges.append(&mut days)?;
    Ok(exchanges)
}

// Adds the changes of some exchanges, one after the other, after others.
fn push_exchanges(
    alloc: Global,
    changes: &mut Vec<RowChange>,
    exchanges: Vec<Exchange>,
) -> Result<(), AllocError>
    ensures { OnOk result (changes.new.items ≡ changes.old.items ++ flat_map row_changes_of exchanges.items) }
{
    'exchanges: for exchange in exchanges {
        exchange.push_changes(alloc, changes)?;
    }
    Ok(())
}
