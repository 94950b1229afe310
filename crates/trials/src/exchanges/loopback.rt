//! Requests that come over the network of this machine, each sent, served and replied to by one thread.

use crate::exchanges::served;
use sqlite::Alter;
use std::io::{Read, Write};
use std::net::{Ipv4Addr, Shutdown, TcpListener, TcpStream};
use trial_values::fault::Fault;
use vet_base::day::Day;
use vet_http::input::CountedReader;
use vet_http::output::write_whole;
use vet_http::serve::serve_one;
use vet_masks::keeper::MaskKeeper;
use vet_store::store::Store;

/// Serves each request over a connection of its own, and writes its reply.
pub fn serve_over_loopback<S: Alter, W: Write>(
    rt: &HostRuntime,
    store: &mut Store<S, MaskKeeper>,
    day: Day,
    requests: &[String],
    writer: &mut W,
) -> Result<(), Fault> {
    let listener = TcpListener::bind(rt, (Ipv4Addr::LOCALHOST, 0))?;
    let address = listener.local_addr()?;
    for request in requests {
        let mut client = TcpStream::connect(rt, address)?;
        client.write_all(request.as_bytes())?;
        client.shutdown(Shutdown::Write)?;
        serve_next(rt, store, day, &listener)?;
        let mut reply = Vec::new(rt.alloc());
        client.read_to_end(&mut reply)?;
        served(write_whole(writer, reply.as_slice()))?;
    }
    Ok(())
}

// Serves the connection that comes next. The rest of its input is read, since its client would see a reset otherwise.
fn serve_next<S: Alter>(
    rt: &HostRuntime,
    store: &mut Store<S, MaskKeeper>,
    day: Day,
    listener: &TcpListener,
) -> Result<(), Fault> {
    let (stream, _address) = listener.accept()?;
    let mut rest = stream.try_clone()?;
    let mut writer = stream.try_clone()?;
    let mut reader = CountedReader::new(rt.alloc(), stream);
    served(serve_one(rt.alloc(), store, day, &mut reader, &mut writer))?;
    let mut left = Vec::new(rt.alloc());
    rest.read_to_end(&mut left)?;
    Ok(())
}
