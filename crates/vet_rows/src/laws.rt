//! Laws of rows: what each function ensures is a fact.
ghost use Rattle.std.specs.Prelude.{◌≡◌, ◌⊎◌, IfErr, OnOk};
ghost use Rattle.vet_register.specs.Sound.{IsSound};
ghost use Rattle.vet_register.specs.State.{State};
ghost use Rattle.vet_rows.specs.HeldState.{AreOfOneState, IsHeldState, SameButStanding};
ghost use Rattle.vet_rows.specs.RowKeys.{KeysDiffer};
ghost use Rattle.vet_rows.specs.RowsOf.{rows_of};
ghost use Rattle.vet_tables.specs.Cells.{rows_in};

use crate::held_register::register_is_held;
use crate::row_changes::key_texts::{
    keys_are_read, moves_are_read, pairs_are_read, peers_are_named, projects_are_read,
};
use crate::rows_of::rows_of;
use crate::state_of::state_of;
use std::alloc::Global;
use vet_base::refusal::Refusal;
use vet_graph::keeper::Keeper;
use vet_register::register::Register;
use vet_tables::rows::Rows;

/// No two rows of a table of a register's state have the same key. Does nothing.
pub fn keys_differ<K: Keeper>(register: &Register<K>)
    ensures { KeysDiffer (rows_of register.now.state) }
{
    let _ = register.facts();
    peers_are_named(register.peers());
    keys_are_read(register.policies());
    projects_are_read(register.projects());
    pairs_are_read(register.demand());
    moves_are_read(register.moves());
}

/// Rows are those of at most one sound state, as far as there is memory to read them. Refused as `state_of` is:
/// `NotARegister`, only if they are the rows of no sound state, and `NoMemory`.
pub fn rows_are_of_one_state(alloc: Global, rows: &Rows) -> Result<(), Refusal>
    ensures one { OnOk result (AreOfOneState (rows_in rows.now)) }
    ensures back { (s : State) → IsSound s → IsHeldState s → SameButStanding (rows_in rows.now) (rows_of s)
        → IfErr result (λ e. e ≡ Refusal.NoMemory) }
    ensures refused { IfErr result (λ e. (e ≡ Refusal.NoMemory) ⊎ (e ≡ Refusal.NotARegister)) }
{
    match state_of(alloc, rows) {
        Ok(_) => Ok(()),
        Err(refusal) => Err(refusal),
    }
}

/// Registers whose states differ have different rows, also without those of `standing`, as far as there is memory to
/// read them. Refused: `NoMemory`.
pub fn registers_differ_in_rows<K: Keeper, L: Keeper>(
    alloc: Global,
    register: &Register<K>,
    other: &Register<L>,
) -> Result<(), Refusal>
    ensures differ { OnOk result (SameButStanding (rows_of register.now.state) (rows_of other.now.state)
        → register.now.state ≡ other.now.state) }
    ensures memory { IfErr result (λ e. e ≡ Refusal.NoMemory) }
{
    register_is_held(register);
    register_is_held(other);
    let _ = register.facts();
    let _ = other.facts();
    let rows = rows_of(alloc, register)?;
    match state_of(alloc, &rows) {
        Ok(_) => Ok(()),
        Err(refusal) => Err(refusal),
    }
}
