//! The parts of opening a register in a file.

use sqlite::{Alter, Connection};
use std::time::{Clock, Instant};
use trial_times::commands::set_other_peer;
use trial_values::fault::Fault;
use vet_base::refusal::Refusal;
use vet_graph::keeper::Keeper;
use vet_register::register::Register;
use vet_rows::rows_of::rows_of;
use vet_rows::state_of::state_of;
use vet_store::read::read_rows;
use vet_tables::find::version_of;
use vet_tables::rows::Rows;

/// Opens the register in a database by the calls that `Store::open` makes, except that the rows are not compared with
/// those that were read. Then it sets another peer, for which the plain keeper recomputes every class. Prints what each
/// part is and its nanoseconds.
pub fn run_parts<S: Alter, K: Keeper>(
    rt: &(impl Clock + AllocGlobal + Print),
    conn: &mut Connection<S>,
) -> Result<(), Fault> {
    let rows = rows_in(rt, conn)?;
    let mut register = register_of::<K>(rt, &rows)?;
    print_plan(rt, &mut register)
}

/// Prints what a part took.
pub fn print_part(
    rt: &(impl Clock + AllocGlobal + Print),
    what: &str,
    begun: &Instant,
) -> Result<(), Fault> {
    let nanos = begun.elapsed(rt)?.as_nanos();
    println!(rt; "{what} {nanos}")?;
    Ok(())
}

// The rows of the tables.
fn rows_in<S: Alter>(
    rt: &(impl Clock + AllocGlobal + Print),
    conn: &mut Connection<S>,
) -> Result<Rows, Fault> {
    let begun = Instant::now(rt)?;
    let Some(version) = version_of(conn.schema()) else {
        return Err(Fault::Refused(Refusal::NotARegister));
    };
    match read_rows(rt.alloc(), conn, version) {
        Ok(Some(rows)) => {
            print_part(rt, "read", &begun)?;
            Ok(rows)
        }
        Ok(None) => Err(Fault::Refused(Refusal::NotARegister)),
        Err(_) => Err(Fault::Refused(Refusal::StoreRefused)),
    }
}

// The register of these rows, and its rows again.
fn register_of<K: Keeper>(
    rt: &(impl Clock + AllocGlobal + Print),
    rows: &Rows,
) -> Result<Register<K>, Fault> {
    let begun = Instant::now(rt)?;
    let state = state_of(rt.alloc(), rows)?;
    print_part(rt, "state", &begun)?;
    let begun = Instant::now(rt)?;
    let register = Register::restore(rt.alloc(), state)?;
    print_part(rt, "restore", &begun)?;
    let begun = Instant::now(rt)?;
    let _again = rows_of(rt.alloc(), &register)?;
    print_part(rt, "rows", &begun)?;
    Ok(register)
}

// Prepares the setting of another peer, for which the plain keeper recomputes every class.
fn print_plan<K: Keeper>(
    rt: &(impl Clock + AllocGlobal + Print),
    register: &mut Register<K>,
) -> Result<(), Fault> {
    let peer = set_other_peer(rt.alloc(), 0, 0)?;
    let begun = Instant::now(rt)?;
    let _change = register.prepare(rt.alloc(), &peer)?;
    print_part(rt, "plan", &begun)
}
