//! The rows of the facts of packages, in each of their tables.
ghost use Rattle.std.specs.List.{All};
ghost use Rattle.std.specs.Prelude.{◌≡◌, IfOk};
ghost use Rattle.vet_item_rows.specs.Numbers.{EntryFits, PeerFits};
ghost use Rattle.vet_rows.specs.FactsRows.{rows_of_facts};

use crate::rows_of::entry_rows::all_entries;
use crate::rows_of::setting_rows::all_criteria;
use crate::rows_of::to_row::rows_each;
use std::alloc::{AllocError, Global};
use vet_entries::facts::EntryFacts;
use vet_item_rows::rows_of::entry_rows::all_publishers;
use vet_tables::sequence::Row;
use vet_tables::table_name::FactsTable;

/// The rows of a table of facts. Asks that the numbers of entries are below 2^63. Fails only if memory runs out.
pub(crate) fn rows_of_facts(
    alloc: Global,
    facts: &EntryFacts,
    table: FactsTable,
) -> Result<Vec<Row>, AllocError>
    requires own { All EntryFits facts.now.content.entries }
    requires peers { All PeerFits facts.now.content.peers }
    ensures { IfOk result (λ rows. rows.items ≡ rows_of_facts facts.now.content table) }
{
    match table {
        FactsTable::Criteria => all_criteria(alloc, facts),
        FactsTable::Entries => all_entries(alloc, facts),
        FactsTable::Publishers => all_publishers(alloc, facts.publishers()),
        FactsTable::Peers => rows_each(alloc, facts.peers()),
    }
}
