//! Closing the files of a store and opening them again.
//!
//! **The store that is opened has the state that was closed, and works like any store that was opened.** A close copies
//! the log into the database file, so the next open finds the last commit, whose rows are those of the register. A
//! refusal loses nothing that was committed, and gives back what remains.
ghost use Rattle.std.specs.Prelude.{◌≡◌, false, IfErr, IfOk, IsTrue, MatchResult};
ghost use Rattle.sqlite.specs.Files.{file_state};
ghost use Rattle.sqlite.specs.Held.{IsNew};
ghost use Rattle.sqlite.specs.State.{HasCleanDisk};
ghost use Rattle.vet_register.specs.Sound.{IsSound};
ghost use Rattle.vet_register.specs.State as machine;
ghost use Rattle.vet_rows.specs.HeldState.{IsHeldState};
ghost use Rattle.vet_rows.specs.RowsOf.{rows_of};
ghost use Rattle.vet_store.specs.Opened.{IsStored};
ghost use Rattle.vet_store.specs.Reopened.{LeavesAgain, NothingIsLost, OfConn, RefusesAgain, ShowsAgain};
ghost use Rattle.vet_store.specs.Stands.{Holds};
ghost use Rattle.vet_store.specs.Tied.{IsTied};

use super::Store;
use crate::refused::refusal_of;
use sqlite::{Connection, FileStore, Leftover, Options};
use sqlite_disk::Disk;
use std::alloc::Global;
use vet_base::refusal::Refusal;
use vet_graph::keeper::Keeper;
use vet_rows::held_register::register_is_held;

/// What remains of a store that could not be opened again.
pub enum Remains<D: Disk> {
    /// The files could not be closed.
    Store(FileStore<D>),
    /// The files were closed, but could not be opened.
    Files(Leftover<D>),
    /// The files were opened, but the register could not be read.
    Conn(Connection<FileStore<D>>),
}

impl<D: Disk + Drop> Drop for Remains<D> {
    fn drop(self) {
        match self {
            Remains::Store(_) => {}
            Remains::Files(_) => {}
            Remains::Conn(_) => {}
        }
    }
}

/// Why a store could not be opened again by its files, and what remains of it.
pub struct ReopenError<D: Disk> {
    pub refusal: Refusal,
    pub remains: Remains<D>,
}

impl<D: Disk + Drop> Drop for ReopenError<D> {
    fn drop(self) {
        let ReopenError {
            refusal: _,
            remains: _,
        } = self;
    }
}

impl<D: Disk + Drop> ReopenError<D> {
    /// The refusal, and what remains of the store. Takes no memory.
    pub fn into_parts(self) -> (Refusal, Remains<D>)
        ensures refusal { result.0 ≡ self.refusal }
        ensures remains { result.1 ≡ self.remains }
    {
        let ReopenError { refusal, remains } = self;
        (refusal, remains)
    }
}

impl<D: Disk + Drop, K: Keeper> Store<FileStore<D>, K> {
    /// Closes the files of the store, opens them again with these options, and reads the register. The files of a store
    /// that is shut cannot be closed, so it is refused. A refusal gives back what remains. Refused: `NoMemory`,
    /// `StoreRefused`, or `NotARegister` if a connection remains that no longer serves or whose disk is not clean.
    pub fn reopen_files(
        self,
        alloc: Global,
        options: Options,
    ) -> Result<Store<FileStore<D>, K>, ReopenError<D>>
        ensures same { IfOk result (λ s. HasCleanDisk (file_state s.conn)
            → s.register.state ≡ self.register.state) }
        ensures found { IfOk result (λ s. HasCleanDisk (file_state s.conn)
            → Holds (file_state self.conn).now (rows_of s.register.state)) }
        ensures sound { IfOk result (λ s. IsSound s.register.state) }
        ensures held { IfOk result (λ s. IsHeldState s.register.state) }
        ensures only { IfOk result (λ s. HasCleanDisk (file_state s.conn)
            → (t : machine.State) → IsStored (file_state self.conn).now t → s.register.state ≡ t) }
        ensures tables { IfOk result (λ s. (s.shut ≡ false)
            × IsTied (file_state s.conn) s.shut (rows_of s.register.state)) }
        ensures outside { IfOk result (λ s. s.conn.in_transaction ≡ false) }
        ensures unchanged { IfOk result (λ s. HasCleanDisk (file_state s.conn)
            → ShowsAgain (file_state self.conn) (file_state s.conn)) }
        ensures fresh { IfOk result (λ s. HasCleanDisk (file_state s.conn) → IsNew s.conn) }
        ensures guarded { IfOk result (λ s. HasCleanDisk (file_state s.conn) → (file_state s.conn).IsShielded) }
        ensures refused { IfErr result (λ e. RefusesAgain e.remains e.refusal) }
        ensures as_before { IfErr result (λ e. OfConn e.remains (λ c. HasCleanDisk (file_state c)
            → IsTrue (file_state c).is_open → ShowsAgain (file_state self.conn) (file_state c))) }
        ensures lost { IfErr result (λ e. NothingIsLost self.conn self.register.state e.remains) }
        ensures crash { MatchResult result
            (λ s. LeavesAgain (file_state self.conn) (file_state s.conn))
            (λ e. OfConn e.remains (λ c. LeavesAgain (file_state self.conn) (file_state c))) }
    {
        register_is_held(self.register());
        let _sound = self.register().facts();
        let files = match self.close().close_files() {
            Ok(files) => files,
            Err((error, store)) => return Err(refused(refusal_of(error), Remains::Store(store))),
        };
        let conn = match Connection::open_files(alloc, files, options) {
            Ok(conn) => conn,
            Err((error, left)) => return Err(refused(refusal_of(error), Remains::Files(left))),
        };
        match Store::open(alloc, conn) {
            Ok(store) => Ok(store),
            Err(not_opened) => {
                let (refusal, conn) = not_opened.into_parts();
                Err(refused(refusal, Remains::Conn(conn)))
            }
        }
    }
}

fn refused<D: Disk>(refusal: Refusal, remains: Remains<D>) -> ReopenError<D>
    ensures refusal { result.refusal ≡ refusal }
    ensures remains { result.remains ≡ remains }
{
    ReopenError { refusal, remains }
}
