//! A register whose rows are in the tables of a database.
ghost use Rattle.std.specs.Prelude.{◌≡◌, false};
ghost use Rattle.sqlite.specs.Held.{state};
ghost use Rattle.vet_rows.specs.RowsOf.{rows_of};
ghost use Rattle.vet_store.specs.Tied.{IsTied};

use sqlite::{Alter, Connection};
use std::marker::Model;
use vet_desk::desk::Desk;
use vet_graph::keeper::Keeper;
use vet_register::register::Register;

mod create;
pub mod first_run;
mod open;
mod put_meta;
pub mod reopen;
pub mod reopen_files;
mod run;
mod run_all;
mod take_over;
mod write;

/// A register, and a connection to the database whose tables have its rows. Once a commit has failed, it is shut: a
/// crash may then leave the rows with the last command or without it, and no more commands are run.
pub struct Store<S: Alter, K: Keeper> {
    pub(crate) conn: Connection<S>,
    pub(crate) register: Register<K>,
    pub(crate) shut: bool,
}

impl<S: Alter, K: Keeper> Model for Store<S, K> {
    ghost use Rattle.sqlite.specs.Held.{Held, held_code};
    ghost use Rattle.sqlite.specs.Held as connection;
    ghost use Rattle.vet_demand.specs.contracts.policies.KeyedPolicy as policy;
    ghost use Rattle.vet_demand.specs.contracts.project.NamedProject as project;
    ghost use Rattle.vet_desk.specs.Encodings.{desk_code};
    ghost use Rattle.vet_desk.specs.contracts.review.Review as review;
    ghost use Rattle.vet_entries.specs.FactsEncodings.{facts_room_code};
    ghost use Rattle.vet_entries.specs.contracts.facts.HeldEntry as entry;
    ghost use Rattle.vet_entries.specs.contracts.held_peer.HeldPeer as peer;
    ghost use Rattle.vet_entries.specs.contracts.publisher_records.PackagePublishers as listed;
    ghost use Rattle.vet_graph.specs.contracts.standing.Counts as counts;
    ghost use Rattle.vet_register.specs.Encodings.{register_code};
    ghost use Rattle.vet_register.specs.contracts.tool_settings.ToolSettings as settings;
    ghost use Rattle.vet_register.specs.contracts.moves.RecordedMove as recorded;
    ghost use Rattle.vet_rows.specs.RowsOf.{rows_of};
    ghost use Rattle.vet_store.specs.StoreView.{StoreView, store_code};
    ghost use Rattle.vet_store.specs.Tied.{IsTied};

    ghost Value = { StoreView S K };

    ghost coded = { store_code (held_code S.code) (register_code K.code
        (facts_room_code entry.the_row.coded peer.the_row.coded listed.the_row.coded)
        policy.the_row.coded project.the_row.coded settings.the_row.coded (desk_code review.the_row.coded)
        counts.the_row.coded recorded.the_row.coded) };

    ghost view = { λ s. record { conn = s.conn; register = s.register; shut = s.shut } };

    ghost invariant = { λ s. IsTied (connection.state S.Store s.conn) s.shut (rows_of s.register.state) };
}

impl<S: Alter + Drop, K: Keeper> Drop for Store<S, K> {
    fn drop(self) {
        let Store {
            conn: _,
            register: _,
            shut: _,
        } = self;
    }
}

impl<S: Alter, K: Keeper> Store<S, K> {
    /// The register. Takes no memory.
    pub fn register(&self) -> &Register<K>
        ensures { result.now ≡ self.now.register }
    {
        &self.register
    }

    /// The review desk. Takes no memory.
    pub fn desk(&self) -> &Desk
        ensures { result.now.content ≡ self.now.register.state.desk }
    {
        self.register.desk()
    }

    /// Whether the store is shut, as it is once a commit has failed. Takes no memory.
    pub fn is_shut(&self) -> bool
        ensures { result ≡ self.now.shut }
    {
        self.shut
    }

    /// The tables have the register's rows as long as the connection serves on a clean disk, and a crash leaves them
    /// unless the store is shut. Does nothing.
    pub fn tables_are_of_register(&self)
        ensures { IsTied (state S.Store self.now.conn) self.now.shut (rows_of self.now.register.state) }
    {
        let _ = &self.shut;
    }
}

impl<S: Alter + Drop, K: Keeper> Store<S, K> {
    /// Gives the connection back, outside a transaction. Takes no memory.
    pub fn close(self) -> Connection<S>
        ensures conn { result ≡ self.conn }
        ensures outside { result.in_transaction ≡ false }
        ensures tables { IsTied (state S.Store result) self.shut (rows_of self.register.state) }
    {
        let Store {
            conn,
            register: _,
            shut: _,
        } = self;
        conn
    }
}
