//! One's own items, and those of peers.
ghost use Rattle.std.specs.Prelude.{◌≡◌, ◌++◌, IfOk, OnOk};
ghost use Rattle.vet_item_rows.specs.ReadSourced.{of_peers, of_peers_one, own_items, own_one, peer_in};
ghost use Rattle.vet_entries.specs.declared.entry.Source.{Source};

use crate::read::gathered::WithKey;
use std::alloc::{AllocError, Global};
use vet_base::name::Name;
use vet_entries::entry::Source;
use vet_entries::facts::HeldEntry;

/// What has a source.
pub(crate) trait HasSource: Drop {
    /// Whose it is.
    ghost source_of: { Self → Source };

    /// Whose it is. Takes no memory.
    fn source(&self) -> &Source
        ensures { result.now ≡ source_of self.now };
}

impl HasSource for HeldEntry {
    ghost source_of = { λ held. held.entry.source };

    fn source(&self) -> &Source {
        &self.entry.source
    }
}

/// One's own items, and those of peers under their names, both in the order in which they were given.
#[derive(Drop)]
pub(crate) struct BySource<T: Drop> {
    pub(crate) own: Vec<T>,
    pub(crate) peers: Vec<WithKey<Name, T>>,
}

/// One's own items and those of peers. Fails only if memory runs out.
pub(crate) fn by_source<T: HasSource>(
    alloc: Global,
    items: Vec<T>,
) -> Result<BySource<T>, AllocError>
    ensures own { IfOk result (λ parts. parts.own.items ≡ own_items T.source_of items.items) }
    ensures peers { IfOk result (λ parts. parts.peers.items ≡ of_peers T.source_of items.items) }
{
    let mut own = Vec::new(alloc);
    let mut peers = Vec::new(alloc);
    'items: for item in items {
        put(&mut own, &mut peers, item)?;
    }
    Ok(BySource { own, peers })
}

// Adds an item after those of its source.
fn put<T: HasSource>(
    own: &mut Vec<T>,
    peers: &mut Vec<WithKey<Name, T>>,
    item: T,
) -> Result<(), AllocError>
    ensures own { OnOk result (own.new.items ≡ own.old.items ++ own_one T.source_of item) }
    ensures peers { OnOk result (peers.new.items ≡ peers.old.items ++ of_peers_one T.source_of item) }
{
    match peer_of(item.source())? {
        None => {
            own.push(item)?;
            Ok(())
        }
        Some(key) => {
            peers.push(WithKey { key, item })?;
            Ok(())
        }
    }
}

// The name of the peer, if it is one.
fn peer_of(source: &Source) -> Result<Option<Name>, AllocError>
    ensures { IfOk result (λ peer. peer ≡ peer_in source.now) }
{
    match source {
        Source::Own => Ok(None),
        Source::Peer(name) => Ok(Some(name.clone()?)),
    }
}
