//! The content of a peer's audits file.
ghost use Rattle.std.specs.Prelude.{◌≡◌};
ghost use Rattle.vet_entries.specs.PeerContent.{IsPeerContent};

use crate::entry::Entry;
use std::marker::Model;
use vet_base::criterion::Criterion;

/// The content of a peer's audits file, in the peer's own words: at most `MOST_PEER_CRITERIA` criteria, and its
/// entries. No criterion has the name of a built-in one or of another. Each entry is the peer's own, and occurs once.
/// None is an exemption or a trusted publisher, which concern only the peer, and none is one that others may not
/// import.
pub struct PeerContent {
    criteria: Vec<Criterion>,
    entries: Vec<Entry>,
}

impl Model for PeerContent {
    ghost use Rattle.vet_base.specs.Encodings.{criterion_code};
    ghost use Rattle.vet_entries.specs.contracts.entry.Entry as entry;
    ghost use Rattle.vet_entries.specs.PeerContent.{IsPeerContent, PeerContentValue};
    ghost use Rattle.vet_entries.specs.Encodings.{peer_content_code};

    ghost Value = { PeerContentValue };

    ghost coded = { peer_content_code criterion_code entry.the_row.coded };

    ghost view = { λ p. record { criteria = p.criteria.items; entries = p.entries.items } };

    ghost invariant = { λ p. IsPeerContent p.criteria.items p.entries.items };
}

impl Drop for PeerContent {
    fn drop(self) {
        let PeerContent {
            criteria: _,
            entries: _,
        } = self;
    }
}

impl PeerContent {
    /// The content with these criteria and entries. Asks that a peer's file can give them. Takes no memory.
    pub fn of(criteria: Vec<Criterion>, entries: Vec<Entry>) -> PeerContent
        requires { IsPeerContent criteria.items entries.items }
        ensures { result ≡ record { criteria = criteria.items; entries = entries.items } }
    {
        PeerContent { criteria, entries }
    }

    /// The criteria that the peer defines, in the order in which its file was read.
    pub fn criteria(&self) -> &[Criterion]
        ensures value { result.now ≡ self.now.criteria }
        ensures content { IsPeerContent self.now.criteria self.now.entries }
    {
        self.criteria.as_slice()
    }

    /// The peer's entries, in the order in which its file was read.
    pub fn entries(&self) -> &[Entry]
        ensures value { result.now ≡ self.now.entries }
        ensures content { IsPeerContent self.now.criteria self.now.entries }
    {
        self.entries.as_slice()
    }
}
