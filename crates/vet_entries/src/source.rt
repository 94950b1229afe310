//! The entries of a package from one source: one's own, or those of a peer.
ghost use Rattle.std.specs.Prelude.{◌≡◌, ◌<◌, None, Some, length};
ghost use Rattle.std.specs.List.{All};
ghost use Rattle.vet_entries.specs.Source.{IsWithin, entries_from, sourced_at};
ghost use Rattle.vet_entries.specs.Step.{sourced, taken_from};

use crate::facts::{EntryFacts, HeldEntry};
use crate::held_peer::HeldPeer;
use vet_base::name::PackageName;

/// The entries of one source, the places of a package's entries among them, and the peer, unless the source is one's
/// own.
#[derive(Clone, Copy)]
pub(crate) struct Source<'a> {
    pub(crate) peer: Option<&'a HeldPeer>,
    pub(crate) entries: &'a [HeldEntry],
    pub(crate) places: &'a [usize],
}

/// One's own entries of a package. Costs a binary search among all own ones, and a look at each of the package's.
pub(crate) fn own_entries<'a>(package: &PackageName, facts: &'a EntryFacts) -> Source<'a>
    ensures entries { entries_from result ≡ sourced None «package».now facts.now.content.entries }
    ensures within { IsWithin result }
{
    Source {
        peer: None,
        entries: facts.entries(),
        places: facts.places_of(package),
    }
}

/// The entries of a package that are taken from a peer. Costs a binary search among the peer's entries, and a look at
/// each of the package's.
pub(crate) fn entries_taken<'a>(package: &PackageName, peer: &'a HeldPeer) -> Source<'a>
    ensures entries { entries_from result ≡ taken_from «package».now peer.now }
    ensures within { IsWithin result }
{
    Source {
        peer: Some(peer),
        entries: peer.content.entries(),
        places: peer.places_taken(package),
    }
}

impl HeldPeer {
    /// The places of a package's entries, in rising order, or none if the package is excluded.
    pub(crate) fn places_taken(&self, package: &PackageName) -> &[usize]
        ensures within { All (λ place. place < length self.now.content.entries) result.now }
        ensures entries { sourced_at (Some self.now) self.now.content.entries result.now
            ≡ taken_from «package».now self.now }
    {
        if self.settings.exclude.contains(package) {
            return &[];
        }
        self.content.places_of(package)
    }
}
