//! The room that serving needs beside the store.

use std::alloc::{AllocError, Global};
use vet_requests::field_room::FieldRoom;
use vet_requests::route::Routes;

/// The routes, and room for the fields of a head. It is made once for many requests.
#[derive(Drop)]
pub struct ServeRoom {
    pub(crate) routes: Routes,
    pub(crate) fields: FieldRoom,
}

impl ServeRoom {
    /// Room for requests one after the other.
    pub fn new(alloc: Global) -> Result<ServeRoom, AllocError> {
        let routes = Routes::new(alloc)?;
        let fields = FieldRoom::new(alloc)?;
        Ok(ServeRoom { routes, fields })
    }
}
