//! Opening a store: making the register whose rows are in the tables.
//!
//! **The register has the sound state whose rows are in the tables. The database is refused as no register only if
//! there is no such state.** No table is repaired: the rows of the state that was read are compared with the rows that
//! are there, including the classes of `standing`. Tables of the first version are read and compared in the same way,
//! and only then taken over (`take_over`).
ghost use Rattle.std.specs.Prelude.{◌≡◌, ◌⊎◌, false, Err, IfErr, IfOk, IsErrAnd, IsTrue, MatchResult, Ok, OnErr, OnOk};
ghost use Rattle.std.specs.Prelude.{if◌then◌else◌};
ghost use Rattle.sqlite.specs.Held.{state};
ghost use Rattle.sqlite.specs.State.{HasCleanDisk, IsUnchanged, Survives};
ghost use Rattle.vet_register.specs.Sound.{IsSound};
ghost use Rattle.vet_register.specs.State as machine;
ghost use Rattle.vet_rows.specs.HeldState.{IsHeldState};
ghost use Rattle.vet_rows.specs.RowsOf.{rows_by, rows_of};
ghost use Rattle.vet_tables.specs.Cells.{SameRows, rows_in};
ghost use Rattle.vet_store.specs.Made.{IsAsBefore};
ghost use Rattle.vet_store.specs.Opened.{IsStored, IsToldBy};
ghost use Rattle.vet_tables.specs.Read.{KeepsRest, Rests};
ghost use Rattle.vet_store.specs.Runs.{IsOfStore};
ghost use Rattle.vet_store.specs.Stands.{HoldsIn, Stands};
ghost use Rattle.vet_store.specs.TakenOver.{IsOpened, IsTakenOver, MayTakeOver};
ghost use Rattle.vet_store.specs.Tied.{IsTied};
ghost use Rattle.vet_tables.specs.Versions.{HasSomeVersion, HasVersion};
ghost use Rattle.vet_tables.specs.declared.version.TablesVersion.TheVariants as versions;

use super::Store;
use super::take_over::take_over;
use crate::read::read_rows;
use crate::refused::{Refused, refusal_of};
use sqlite::{Alter, Connection};
use std::alloc::Global;
use vet_base::refusal::Refusal;
use vet_graph::keeper::Keeper;
use vet_register::register::Register;
use vet_rows::held_register::register_is_held;
use vet_rows::rows_of::rows_by;
use vet_rows::state_of::{found_register, state_of};
use vet_tables::find::version_of;
use vet_tables::rows::Rows;
use vet_tables::same_rows::have_same_rows;
use vet_tables::version::TablesVersion;

impl<S: Alter + Drop, K: Keeper> Store<S, K> {
    /// Opens the register whose rows are in the tables, whatever else the database has. Tables of the first version
    /// become those of the second; otherwise nothing is written. Asks for a connection outside a transaction. A
    /// refusal gives the connection back, which shows what it showed before; if a commit failed, a crash may leave the
    /// tables of the second version.
    ///
    /// Refused: `NotARegister` if the tables are those of no version, if they are of the first and a name that only the
    /// second has is taken, or if they have the rows of no sound state; `NoMemory`; `StoreRefused` if the database
    /// fails. In the first two cases the connection is as it was.
    pub fn open(alloc: Global, conn: Connection<S>) -> Result<Store<S, K>, Refused<S>>
        requires autocommit { conn.in_transaction ≡ false }
        ensures found { IfOk result (λ s. HasCleanDisk (state S.Store s.conn)
            → IsStored (state S.Store conn).now s.register.state) }
        ensures sound { IfOk result (λ s. IsSound s.register.state) }
        ensures held { IfOk result (λ s. IsHeldState s.register.state) }
        ensures only { IfOk result (λ s. HasCleanDisk (state S.Store s.conn)
            → (t : machine.State) → IsStored (state S.Store conn).now t → s.register.state ≡ t) }
        ensures tables { IfOk result (λ s. (s.shut ≡ false)
            × IsTied (state S.Store s.conn) s.shut (rows_of s.register.state)) }
        ensures outside { IfOk result (λ s. s.conn.in_transaction ≡ false) }
        ensures opened { IfOk result (λ s. HasCleanDisk (state S.Store s.conn)
            → IsOpened (state S.Store conn) (state S.Store s.conn) s.register.state) }
        ensures none { IfErr result (λ e. e.refusal ≡ Refusal.NotARegister → HasCleanDisk (state S.Store e.conn)
            → (t : machine.State) → IsStored (state S.Store conn).now t → ⊥) }
        ensures foreign { (HasSomeVersion (state S.Store conn).now.schema → ⊥)
            → IsErrAnd result (λ e. (e.refusal ≡ Refusal.NotARegister) × (e.conn ≡ conn)) }
        ensures refused { IfErr result (λ e. IsOfStore e.refusal ⊎ (e.refusal ≡ Refusal.NotARegister)) }
        ensures autocommit { IfErr result (λ e. e.conn.in_transaction ≡ false) }
        ensures as_before { IfErr result (λ e. HasCleanDisk (state S.Store e.conn)
            → IsTrue (state S.Store e.conn).is_open → IsAsBefore (state S.Store conn) (state S.Store e.conn)) }
        ensures was_open { IfErr result (λ e. HasCleanDisk (state S.Store e.conn)
            → IsTrue (state S.Store e.conn).is_open → IsTrue (state S.Store conn).is_open) }
        ensures crash { MatchResult result
            (λ s. Survives (state S.Store conn) (state S.Store s.conn) (IsTakenOver (state S.Store conn)))
            (λ e. Survives (state S.Store conn) (state S.Store e.conn) (IsTakenOver (state S.Store conn))) }
    {
        let _rests = conn.is_autocommit();
        let Some(version) = version_of(conn.schema()) else {
            return Err(Refused::no_register(conn));
        };
        let mut conn = conn;
        match open_tables(alloc, &mut conn, version) {
            Ok(register) => Ok(Store {
                conn,
                register,
                shut: false,
            }),
            Err(refusal) => Err(Refused { refusal, conn }),
        }
    }
}

// Opens the register whose rows are in the tables of a version, and makes them those of the second.
fn open_tables<S: Alter, K: Keeper>(
    alloc: Global,
    conn: &mut Connection<S>,
    version: TablesVersion,
) -> Result<Register<K>, Refusal>
    requires autocommit { conn.old.in_transaction ≡ false }
    requires tables { HasVersion version (state S.Store conn.old).now.schema }
    ensures sound { IfOk result (λ r. IsSound r.state) }
    ensures held { IfOk result (λ r. IsHeldState r.state) }
    ensures found { HasCleanDisk (state S.Store conn.new) → IfOk result (λ r.
        IsStored (state S.Store conn.old).now r.state) }
    ensures only { HasCleanDisk (state S.Store conn.new) → IfOk result (λ r.
        (t : machine.State) → IsStored (state S.Store conn.old).now t → r.state ≡ t) }
    ensures stands { HasCleanDisk (state S.Store conn.new) → IfOk result (λ r.
        Stands (state S.Store conn.new) (rows_of r.state)) }
    ensures opened { HasCleanDisk (state S.Store conn.new) → IfOk result (λ r.
        IsOpened (state S.Store conn.old) (state S.Store conn.new) r.state) }
    ensures none { HasCleanDisk (state S.Store conn.new) → result ≡ Err Refusal.NotARegister
        → (t : machine.State) → IsStored (state S.Store conn.old).now t → ⊥ }
    ensures refused { IfErr result (λ e. IsOfStore e ⊎ (e ≡ Refusal.NotARegister)) }
    ensures as_before { HasCleanDisk (state S.Store conn.new) → IsTrue (state S.Store conn.new).is_open
        → OnErr result (IsAsBefore (state S.Store conn.old) (state S.Store conn.new)) }
    ensures was_open { HasCleanDisk (state S.Store conn.new) → IsTrue (state S.Store conn.new).is_open
        → IsTrue (state S.Store conn.old).is_open }
    ensures mode { conn.new.in_transaction ≡ false }
    ensures crash { Survives (state S.Store conn.old) (state S.Store conn.new) (IsTakenOver (state S.Store conn.old)) }
{
    let _rests = conn.is_autocommit();
    let register = match read_register(alloc, conn, version) {
        Ok(register) => register,
        Err(refusal) => return Err(refusal),
    };
    match ensure_second(alloc, conn, version, &register) {
        Ok(()) => Ok(register),
        Err(refusal) => Err(refusal),
    }
}

// Takes over tables that have the rows of a register, unless they are of the second version.
fn ensure_second<S: Alter, K: Keeper>(
    alloc: Global,
    conn: &mut Connection<S>,
    version: TablesVersion,
    register: &Register<K>,
) -> Result<(), Refusal>
    requires autocommit { conn.old.in_transaction ≡ false }
    ensures autocommit { conn.new.in_transaction ≡ false }
    ensures done { HasCleanDisk (state S.Store conn.new) → OnOk result (Rests (state S.Store conn.old)
        → HoldsIn version (state S.Store conn.old).now (rows_by version register.now.state)
        → Stands (state S.Store conn.new) (rows_of register.now.state)
        × IsOpened (state S.Store conn.old) (state S.Store conn.new) register.now.state) }
    ensures kept { HasCleanDisk (state S.Store conn.new) → IsTrue (state S.Store conn.new).is_open → OnErr result (
        Rests (state S.Store conn.old) → IsAsBefore (state S.Store conn.old) (state S.Store conn.new)) }
    ensures was_open { HasCleanDisk (state S.Store conn.new) → IsTrue (state S.Store conn.new).is_open
        → IsTrue (state S.Store conn.old).is_open }
    ensures refused { IfErr result IsOfStore }
    ensures crash { Survives (state S.Store conn.old) (state S.Store conn.new)
        (λ trees. (version ≡ versions.First) × MayTakeOver (state S.Store conn.old) register.now.state trees) }
{
    match version {
        TablesVersion::First => take_over(alloc, conn, register),
        TablesVersion::Second => Ok(()),
    }
}

// The register whose rows are in the tables of a version.
fn read_register<S: Alter, K: Keeper>(
    alloc: Global,
    conn: &mut Connection<S>,
    version: TablesVersion,
) -> Result<Register<K>, Refusal>
    requires autocommit { conn.old.in_transaction ≡ false }
    requires tables { HasVersion version (state S.Store conn.old).now.schema }
    ensures sound { IfOk result (λ r. IsSound r.state) }
    ensures held { IfOk result (λ r. IsHeldState r.state) }
    ensures found { HasCleanDisk (state S.Store conn.new) → IfOk result (λ r.
        HoldsIn version (state S.Store conn.old).now (rows_by version r.state)) }
    ensures only { HasCleanDisk (state S.Store conn.new) → IfOk result (λ r.
        (t : machine.State) → IsStored (state S.Store conn.old).now t → r.state ≡ t) }
    ensures none { HasCleanDisk (state S.Store conn.new) → result ≡ Err Refusal.NotARegister
        → (t : machine.State) → IsStored (state S.Store conn.old).now t → ⊥ }
    ensures refused { IfErr result (λ e. IsOfStore e ⊎ (e ≡ Refusal.NotARegister)) }
    ensures same { HasCleanDisk (state S.Store conn.new) → OnOk result (
        IsUnchanged (state S.Store conn.old) (state S.Store conn.new)) }
    ensures kept { HasCleanDisk (state S.Store conn.new)
        → KeepsRest (state S.Store conn.old) (state S.Store conn.new) }
    ensures mode { conn.new.in_transaction ≡ false }
    ensures survives { Survives (state S.Store conn.old) (state S.Store conn.new) (λ _. ⊥) }
{
    let found = match read_rows(alloc, conn, version) {
        Ok(found) => found,
        Err(error) => return Err(refusal_of(error)),
    };
    let rows = found_register(found)?;
    register_of(alloc, version, &rows)
}

// The register of which these are the rows in tables of a version, in any order.
fn register_of<K: Keeper>(
    alloc: Global,
    version: TablesVersion,
    rows: &Rows,
) -> Result<Register<K>, Refusal>
    ensures sound { IfOk result (λ r. IsSound r.state) }
    ensures held { IfOk result (λ r. IsHeldState r.state) }
    ensures found { IfOk result (λ r. SameRows (rows_in rows.now) (rows_by version r.state)) }
    ensures only { IfOk result (λ r. (t : machine.State) → IsToldBy version (rows_in rows.now) t → r.state ≡ t) }
    ensures none { result ≡ Err Refusal.NotARegister
        → (t : machine.State) → IsToldBy version (rows_in rows.now) t → ⊥ }
    ensures refused { IfErr result (λ e. (e ≡ Refusal.NoMemory) ⊎ (e ≡ Refusal.NotARegister)) }
{
    let state = state_of(alloc, rows)?;
    let register: Register<K> = Register::restore(alloc, state)?;
    let again = rows_by(alloc, version, &register)?;
    let same = have_same_rows(alloc, rows, &again)?;
    let _sound = register.facts();
    register_is_held(&register);
    register_if(same, register)
}

// The restored register, if its rows are those that were read.
fn register_if<K: Keeper>(same: bool, register: Register<K>) -> Result<Register<K>, Refusal>
    ensures { result ≡ (if same then Ok register else Err Refusal.NotARegister) }
{
    if same {
        Ok(register)
    } else {
        Err(Refusal::NotARegister)
    }
}
