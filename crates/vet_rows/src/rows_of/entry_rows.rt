//! The rows of entries.
ghost use Rattle.std.specs.Prelude.{◌≡◌, IfOk};
ghost use Rattle.std.specs.List.{All};
ghost use Rattle.vet_item_rows.specs.EntryRows.{all_entries, entry_row};
ghost use Rattle.vet_item_rows.specs.Numbers.{EntryFits, PeerFits};

use crate::rows_of::to_row::{ToRow, push_rows};
use std::alloc::{AllocError, Global};
use vet_entries::facts::{EntryFacts, HeldEntry};
use vet_item_rows::rows_of::entry_rows::{row_saying, set_kind, unused};
use vet_tables::sequence::Row;

impl ToRow for HeldEntry {
    ghost row_of = { entry_row };

    ghost fits = { EntryFits };

    fn to_row(&self, alloc: Global) -> Result<Row, AllocError> {
        let mut said = unused(alloc)?;
        set_kind(alloc, &mut said, &self.entry.kind)?;
        row_saying(alloc, self, said)
    }
}

/// The rows of all entries: one's own, then those of each peer. Asks that their numbers are below 2^63. Fails only if
/// memory runs out.
pub fn all_entries(alloc: Global, facts: &EntryFacts) -> Result<Vec<Row>, AllocError>
    requires own { All EntryFits facts.now.content.entries }
    requires peers { All PeerFits facts.now.content.peers }
    ensures { IfOk result (λ rows. rows.items ≡ all_entries facts.now.content) }
{
    let mut rows = Vec::new(alloc);
    push_rows(alloc, &mut rows, facts.entries())?;
    'peers: for peer in facts.peers() {
        push_rows(alloc, &mut rows, peer.content.entries())?;
    }
    Ok(rows)
}
