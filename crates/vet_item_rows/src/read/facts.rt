//! Reading what is held of packages from its rows.
ghost use Rattle.std.specs.Prelude.{◌≡◌, IfOk, MatchResult, map};
ghost use Rattle.std.specs.Cmp.Lexicographic.{slice_cmp};
ghost use Rattle.std.specs.Ordering.{nat_cmp};
ghost use Rattle.vet_base.specs.FurtherCriteria.{further};
ghost use Rattle.vet_base.specs.Items.{SameItems};
ghost use Rattle.vet_base.specs.Keyed.{IsByKey};
ghost use Rattle.vet_entries.specs.Facts.{Facts};
ghost use Rattle.vet_entries.specs.HeldPeer.{peer_name};
ghost use Rattle.vet_entries.specs.Numbered.{AreByNumber};
ghost use Rattle.vet_item_rows.specs.DayRows.{plain_facts};
ghost use Rattle.vet_item_rows.specs.ReadHeld.{AreFactsValues, AreInForm, AreItemsOf, AreRowsOf};
ghost use Rattle.vet_item_rows.specs.ReadParts.{AreFound};
ghost use Rattle.vet_item_rows.specs.ReadPeers.{criterion_in};
ghost use Rattle.vet_tables.specs.Cells.{rows_in};

use crate::read::criteria::SourcedCriterion;
use crate::read::days::{today_in, with_last_days};
use crate::read::from_row::read_rows;
use crate::read::held_peers::{in_order, peers_of};
use crate::read::read_error::ReadError;
use crate::read::records::records_of;
use crate::read::sourced::by_source;
use crate::read::tables::{criteria_in, table_of};
use std::alloc::Global;
use vet_base::criteria_table::CriteriaTable;
use vet_entries::facts::{EntryFacts, HeldEntry};
use vet_entries::held_peer::HeldPeer;
use vet_entries::peer_settings::PeerSettings;
use vet_tables::rows::Rows;
use vet_tables::table_name::{DaysTable, FactsTable, TableName};

/// What is held of packages, except publisher records and the register's day.
#[derive(Drop)]
pub(crate) struct PackageFacts {
    criteria: CriteriaTable,
    entries: Vec<HeldEntry>,
    peers: Vec<HeldPeer>,
}

/// The facts of which these are the rows of criteria, entries, publishers, peers and days, in any order. Rows that are
/// not those of any facts give `NotARegister` or some facts, and no clause says which. Takes a time of n log n.
/// Refused: `NotARegister`, or `NoMemory`.
pub fn facts_of(alloc: Global, rows: &Rows) -> Result<EntryFacts, ReadError>
    ensures { (facts : Facts) → AreInForm facts → AreFactsValues facts → AreRowsOf (rows_in rows.now) facts
        → MatchResult result (λ held. held.content ≡ facts) (λ e. e ≡ ReadError.NoMemory) }
{
    let parts = dated_parts(alloc, rows)?;
    let records = read_rows(alloc, rows.of(TableName::Facts(FactsTable::Publishers)))?;
    let publishers = records_of(alloc, records)?;
    let today = today_in(alloc, rows.of(TableName::Days(DaysTable::Today)))?;
    let PackageFacts {
        criteria,
        entries,
        peers,
    } = parts;
    Ok(EntryFacts::of_parts(alloc, criteria, entries, peers, publishers, today)?)
}

// The parts of which these are the rows, with last days.
fn dated_parts(alloc: Global, rows: &Rows) -> Result<PackageFacts, ReadError>
    ensures by_number { IfOk result (λ parts. AreByNumber parts.entries.items) }
    ensures by_name { IfOk result (λ parts. IsByKey (slice_cmp nat_cmp) peer_name parts.peers.items) }
    ensures back { (facts : Facts) → AreInForm facts → AreFactsValues facts → AreRowsOf (rows_in rows.now) facts
        → AreFound result facts }
{
    let days = read_rows(alloc, rows.of(TableName::Days(DaysTable::Lasts)))?;
    let parts = parts_in(alloc, rows)?;
    let PackageFacts {
        criteria,
        entries,
        peers,
    } = parts;
    let entries = with_last_days(alloc, entries, days)?;
    Ok(PackageFacts {
        criteria,
        entries,
        peers,
    })
}

// The parts of which these are the rows, without last days.
fn parts_in(alloc: Global, rows: &Rows) -> Result<PackageFacts, ReadError>
    ensures by_number { IfOk result (λ parts. AreByNumber parts.entries.items) }
    ensures by_name { IfOk result (λ parts. IsByKey (slice_cmp nat_cmp) peer_name parts.peers.items) }
    ensures back { (facts : Facts) → AreInForm facts → AreFactsValues facts → AreRowsOf (rows_in rows.now) facts
        → AreFound result (plain_facts facts) }
{
    let criteria = read_rows(alloc, rows.of(TableName::Facts(FactsTable::Criteria)))?;
    let entries = read_rows(alloc, rows.of(TableName::Facts(FactsTable::Entries)))?;
    let settings = read_rows(alloc, rows.of(TableName::Facts(FactsTable::Peers)))?;
    parts_of(alloc, criteria, entries, settings)
}

// The parts of these criteria, entries and settings, in any order.
fn parts_of(
    alloc: Global,
    criteria: Vec<SourcedCriterion>,
    entries: Vec<HeldEntry>,
    settings: Vec<PeerSettings>,
) -> Result<PackageFacts, ReadError>
    ensures by_number { IfOk result (λ parts. AreByNumber parts.entries.items) }
    ensures by_name { IfOk result (λ parts. IsByKey (slice_cmp nat_cmp) peer_name parts.peers.items) }
    ensures back { (facts : Facts) → AreInForm facts → AreItemsOf criteria.items entries.items settings.items facts
        → AreFound result facts }
{
    let criteria = by_source(alloc, criteria)?;
    let entries = by_source(alloc, entries)?;
    let peers = peers_of(alloc, settings, entries.peers, criteria.peers)?;
    with_own(alloc, criteria.own, entries.own, peers)
}

// These peers, and one's own criteria and entries, in any order.
fn with_own(
    alloc: Global,
    criteria: Vec<SourcedCriterion>,
    entries: Vec<HeldEntry>,
    peers: Vec<HeldPeer>,
) -> Result<PackageFacts, ReadError>
    requires { IsByKey (slice_cmp nat_cmp) peer_name peers.items }
    ensures by_number { IfOk result (λ parts. AreByNumber parts.entries.items) }
    ensures by_name { IfOk result (λ parts. IsByKey (slice_cmp nat_cmp) peer_name parts.peers.items) }
    ensures back { (facts : Facts) → AreInForm facts
        → SameItems (map criterion_in criteria.items) (further facts.criteria)
        → SameItems entries.items facts.entries → peers.items ≡ facts.peers → AreFound result facts }
{
    let criteria = table_of(alloc, criteria_in(alloc, criteria)?)?;
    Ok(PackageFacts {
        criteria,
        entries: in_order(alloc, entries)?,
        peers,
    })
}
