//! The refusal for an error of the database, and a refusal that gives the connection back.
ghost use Rattle.std.specs.Prelude.{◌≡◌, ◌⊎◌};
ghost use Rattle.vet_store.specs.Refusals.{refusal_of};
ghost use Rattle.vet_store.specs.Runs.{IsOfStore};

use sqlite::{Alter, Connection, Error, ErrorCode};
use vet_base::refusal::Refusal;

/// Why no store was made, and the connection that was passed in.
pub struct Refused<S: Alter> {
    pub refusal: Refusal,
    pub conn: Connection<S>,
}

impl<S: Alter + Drop> Drop for Refused<S> {
    fn drop(self) {
        let Refused {
            refusal: _,
            conn: _,
        } = self;
    }
}

impl<S: Alter + Drop> Refused<S> {
    /// Refuses a database without a register, and gives its connection back as it was. Takes no memory.
    pub(crate) fn no_register(conn: Connection<S>) -> Refused<S>
        ensures refusal { result.refusal ≡ Refusal.NotARegister }
        ensures conn { result.conn ≡ conn }
    {
        let refusal = Refusal::NotARegister;
        Refused { refusal, conn }
    }

    /// The connection that was passed in. Takes no memory.
    pub fn into_conn(self) -> Connection<S>
        ensures { result ≡ self.conn }
    {
        let Refused { refusal: _, conn } = self;
        conn
    }

    /// Why no store was made, and the connection. Takes no memory.
    pub fn into_parts(self) -> (Refusal, Connection<S>)
        ensures refusal { result.0 ≡ self.refusal }
        ensures conn { result.1 ≡ self.conn }
    {
        let Refused { refusal, conn } = self;
        (refusal, conn)
    }
}

/// The refusal for an error of the database: `NoMemory` if memory ran out, otherwise `StoreRefused`.
pub fn refusal_of(error: Error) -> Refusal
    ensures exact { result ≡ refusal_of error }
    ensures of_store { IsOfStore result }
{
    match error {
        Error::SqliteFailure(ErrorCode::OutOfMemory) => Refusal::NoMemory,
        _ => Refusal::StoreRefused,
    }
}
