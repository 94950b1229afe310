//! A store in memory: **the headline over commands, with no premise about a disk**.
//!
//! Memory keeps what was written. So the tables have the register's rows after each command, whatever its outcome. Over
//! the kit's own store in memory the connection always serves, but a commit takes longer the more the register holds.
//! Over files in memory a commit always costs the same. But there the connection may end if memory runs out, and then
//! nobody can ask what its tables have.
ghost use Rattle.std.specs.Prelude.{◌≡◌, ◌<◌, ◌≤◌, IfErr, IfOk, IsTrue, false, length};
ghost use Rattle.sqlite.specs.Files.{file_state};
ghost use Rattle.sqlite.specs.Held.{state};
ghost use Rattle.sqlite.specs.Steps.{over_memory};
ghost use Rattle.vet_register.specs.Sound.{IsBalanced};
ghost use Rattle.vet_register.specs.State.{start};
ghost use Rattle.vet_rows.specs.RowsOf.{rows_of};
ghost use Rattle.vet_store.specs.Classes.{AddsUp, HasClassesOfChains};
ghost use Rattle.vet_store.specs.Exact.{IsExactTurn};
ghost use Rattle.vet_store.specs.Repeats.{IsTurnWithRepeats};
ghost use Rattle.vet_store.specs.Runs.{Each, IsOfDone, IsOfStore, Ran};
ghost use Rattle.vet_store.specs.Stands.{Stands};

pub mod file;

use crate::memory::file::{MemoryFiles, connect_in_memory};
use crate::store::Store;
use crate::store::first_run::FirstRun;
use sqlite::{Connection, MemStore};
use std::alloc::Global;
use vet_base::limits::MOST_MOVES;
use vet_base::refusal::Refusal;
use vet_graph::keeper::Keeper;
use vet_register::command::Command;

/// Makes a store in memory and runs commands on it. Asks for a limit of 1 to 1,000,000 moves. Refused, with nothing
/// run: `NoMemory` or `StoreRefused`.
pub fn run_in_memory<K: Keeper>(
    alloc: Global,
    moves_limit: usize,
    commands: &[Command],
) -> Result<FirstRun<MemStore, K>, Refusal>
    requires limit { (0 < moves_limit) × (moves_limit ≤ MOST_MOVES) }
    ensures ran { IfOk result (λ r. Ran (start moves_limit) commands.now r.answers.items r.store.register.state) }
    ensures answered { IfOk result (λ r. length r.answers.items ≡ length commands.now) }
    ensures kept { IfOk result (λ r.
        IsOfDone (start moves_limit) commands.now r.answers.items r.store.register.state) }
    ensures classes { IfOk result (λ r. HasClassesOfChains r.store.register.state) }
    ensures adds_up { IfOk result (λ r. AddsUp r.store.register.state) }
    ensures balance { IfOk result (λ r. IsBalanced r.store.register.state) }
    ensures repeats { IfOk result (λ r. Each IsTurnWithRepeats (start moves_limit) commands.now r.answers.items
        r.store.register.state) }
    ensures exact { IfOk result (λ r. r.store.shut ≡ false → Each IsExactTurn (start moves_limit) commands.now
        r.answers.items r.store.register.state) }
    ensures tables { IfOk result (λ r. Stands (state over_memory r.store.conn) (rows_of r.store.register.state)) }
    ensures refused { IfErr result IsOfStore }
{
    let conn = Connection::open_in_memory(alloc)?;
    match Store::create_and_run(alloc, conn, moves_limit, commands) {
        Ok(first) => Ok(first),
        Err(refused) => {
            let (refusal, _conn) = refused.into_parts();
            Err(refusal)
        }
    }
}

/// The tables of a store in memory have the register's rows, at any time. Does nothing.
pub fn tables_in_memory<K: Keeper>(store: &Store<MemStore, K>)
    ensures { Stands (state over_memory store.now.conn) (rows_of store.now.register.state) }
{
    store.tables_are_of_register();
}

/// Makes a store over files in memory and runs commands on it. Asks for a limit of 1 to 1,000,000 moves. Refused, with
/// nothing run: `NoMemory` or `StoreRefused`.
pub fn run_in_memory_files<K: Keeper>(
    alloc: Global,
    moves_limit: usize,
    commands: &[Command],
) -> Result<FirstRun<MemoryFiles, K>, Refusal>
    requires limit { (0 < moves_limit) × (moves_limit ≤ MOST_MOVES) }
    ensures ran { IfOk result (λ r. Ran (start moves_limit) commands.now r.answers.items r.store.register.state) }
    ensures answered { IfOk result (λ r. length r.answers.items ≡ length commands.now) }
    ensures kept { IfOk result (λ r.
        IsOfDone (start moves_limit) commands.now r.answers.items r.store.register.state) }
    ensures classes { IfOk result (λ r. HasClassesOfChains r.store.register.state) }
    ensures adds_up { IfOk result (λ r. AddsUp r.store.register.state) }
    ensures balance { IfOk result (λ r. IsBalanced r.store.register.state) }
    ensures repeats { IfOk result (λ r. Each IsTurnWithRepeats (start moves_limit) commands.now r.answers.items
        r.store.register.state) }
    ensures exact { IfOk result (λ r. r.store.shut ≡ false → Each IsExactTurn (start moves_limit) commands.now
        r.answers.items r.store.register.state) }
    ensures tables { IfOk result (λ r. IsTrue (file_state r.store.conn).is_open
        → Stands (file_state r.store.conn) (rows_of r.store.register.state)) }
    ensures refused { IfErr result IsOfStore }
{
    let conn = connect_in_memory(alloc)?;
    match Store::create_and_run(alloc, conn, moves_limit, commands) {
        Ok(first) => Ok(first),
        Err(refused) => {
            let (refusal, _conn) = refused.into_parts();
            Err(refusal)
        }
    }
}

/// The tables of a store over files in memory have the register's rows, as long as the connection serves. Does nothing.
pub fn tables_in_memory_files<K: Keeper>(store: &Store<MemoryFiles, K>)
    ensures { IsTrue (file_state store.now.conn).is_open
        → Stands (file_state store.now.conn) (rows_of store.now.register.state) }
{
    store.tables_are_of_register();
}
