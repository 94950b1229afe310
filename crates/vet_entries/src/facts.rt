//! The facts about packages: criteria, entries, peers, publisher records and the register's day.
ghost use Rattle.std.specs.Prelude.{◌≡◌, ◌<◌, ◌+◌, ◌^◌, [], IfOk, IfErr, None, filter, length, map, nat_lt};
ghost use Rattle.std.specs.List.{All, list_any};
ghost use Rattle.std.specs.Option.{option_copied};
ghost use Rattle.std.specs.Ordering.{nat_cmp};
ghost use Rattle.std.specs.Cmp.Lexicographic.{slice_cmp};
ghost use Rattle.vet_base.specs.Criteria.{IsTable};
ghost use Rattle.vet_base.specs.Keyed.{IsByKey};
ghost use Rattle.vet_entries.specs.ByPackage.{gathered, held_last_number, is_of};
ghost use Rattle.vet_entries.specs.Facts.{entries_of_peers, entries_total, is_named, no_facts};
ghost use Rattle.vet_entries.specs.HeldPeer.{holding_or_none, peer_name, peer_of, without_peer};
ghost use Rattle.vet_entries.specs.Numbered.{AreByNumber, number_of, numbered, place_of};
ghost use Rattle.vet_entries.specs.PublisherRecords.{IsByName, records_of, records_total, with_records};
ghost use Rattle.vet_entries.specs.Publishers.{IsInOrder};
ghost use Rattle.vet_entries.specs.Replaced.{is_dated, is_dated_beyond};

use crate::by_package::ByPackage;
use crate::entry::Entry;
use crate::held_entries::{dated_count, has_dated_beyond, names, numbered};
use crate::held_peer::HeldPeer;
use crate::holding::Holding;
use crate::peer_settings::PeerSettings;
use crate::peers::leads_to;
use crate::publisher::Publisher;
use crate::publisher_records::{PackagePublishers, PublisherRecords, records_after_setting};
use crate::publishers::Publishers;
use std::alloc::Global;
use std::marker::Model;
use vet_base::criteria_table::CriteriaTable;
use vet_base::day::Day;
use vet_base::keyed::{Keyed, KeyedEdit};
use vet_base::name::{Name, PackageName};
use vet_base::refusal::Refusal;

/// An entry that is held, and its number.
pub struct HeldEntry {
    pub number: u64,
    pub entry: Entry,
}

impl Drop for HeldEntry {
    fn drop(self) {
        let HeldEntry {
            number: _,
            entry: _,
        } = self;
    }
}

/// A table of criteria, one's own entries in the order of their numbers, peers by name, publisher records by package,
/// and the register's day, if it has one.
pub struct EntryFacts {
    pub(crate) criteria: CriteriaTable,
    pub(crate) entries: ByPackage,
    pub(crate) peers: Keyed<HeldPeer>,
    pub(crate) publishers: PublisherRecords,
    pub(crate) today: Option<Day>,
}

impl Drop for EntryFacts {
    fn drop(self) {
        let EntryFacts {
            criteria: _,
            entries: _,
            peers: _,
            publishers: _,
            today: _,
        } = self;
    }
}

/// A change of the facts. Making it takes no memory.
#[derive(Drop)]
pub enum Edit {
    /// This table of criteria in place of the one held.
    Criteria(CriteriaTable),
    /// This entry at this place among the entries.
    Insert(usize, HeldEntry),
    /// The entry at this place is removed.
    Remove(usize),
    /// A peer is added or removed.
    Peer(KeyedEdit<HeldPeer>),
    /// These settings in place of those of the held peer with their name.
    Settings(PeerSettings),
    /// This content in place of that of the held peer with a name.
    Content(Name, Holding),
    /// The publisher records of a package change.
    Publishers(KeyedEdit<PackagePublishers>),
    /// This day, or none, in place of the register's.
    Today(Option<Day>),
}

impl Model for EntryFacts {
    ghost use Rattle.vet_entries.specs.Facts.{FactsRoom};
    ghost use Rattle.vet_entries.specs.FactsEncodings.{facts_room_code};
    ghost use Rattle.vet_entries.specs.contracts.facts.HeldEntry as held;
    ghost use Rattle.vet_entries.specs.contracts.held_peer.HeldPeer as peer;
    ghost use Rattle.vet_entries.specs.contracts.publisher_records.PackagePublishers as listed;

    ghost Value = { FactsRoom };

    ghost coded = { facts_room_code held.the_row.coded peer.the_row.coded listed.the_row.coded };

    ghost view = { λ f. record {
      content = record {
        criteria = f.criteria;
        entries = f.entries.entries;
        peers = f.peers.items;
        publishers = f.publishers.items;
        today = f.today;
      };
      room = record {
        entries = f.entries.room;
        peers = f.peers.room;
        packages = f.publishers.room;
      };
    } };
}

impl EntryFacts {
    /// The built-in criteria, no entries, no peers, no publisher records and no day. Refused: `NoMemory`.
    pub fn new(alloc: Global) -> Result<EntryFacts, Refusal>
        ensures ok { IfOk result (λ f. f.content ≡ no_facts) }
        ensures table { IfOk result (λ f. IsTable f.content.criteria) }
        ensures memory { IfErr result (λ e. e ≡ Refusal.NoMemory) }
    {
        Ok(EntryFacts {
            criteria: CriteriaTable::new(alloc)?,
            entries: ByPackage::new(alloc),
            peers: Keyed::new(alloc),
            publishers: PublisherRecords::new(alloc),
            today: None,
        })
    }

    /// The facts with this table of criteria and these own entries, numbered from 1, and without peers, publisher
    /// records or a register's day. Refused: `NoMemory`.
    pub fn of(
        alloc: Global,
        criteria: CriteriaTable,
        entries: Vec<Entry>,
    ) -> Result<EntryFacts, Refusal>
        ensures ok { IfOk result (λ f. f.content ≡ record {
          criteria = criteria;
          entries = numbered 1 entries.items;
          peers = [];
          publishers = [];
          today = None;
        }) }
        ensures memory { IfErr result (λ e. e ≡ Refusal.NoMemory) }
    {
        Ok(EntryFacts {
            criteria,
            entries: ByPackage::of(alloc, numbered(alloc, entries)?)?,
            peers: Keyed::new(alloc),
            publishers: PublisherRecords::new(alloc),
            today: None,
        })
    }

    /// The facts with this table of criteria, these own entries in the order of their numbers, these peers in the order
    /// of their names, these publisher records of packages in the order of their names, and this register's day, if
    /// any. Takes a time of n log n. Refused: `NoMemory`.
    pub fn of_parts(
        alloc: Global,
        criteria: CriteriaTable,
        entries: Vec<HeldEntry>,
        peers: Vec<HeldPeer>,
        publishers: Vec<PackagePublishers>,
        today: Option<Day>,
    ) -> Result<EntryFacts, Refusal>
        requires by_number { AreByNumber entries.items }
        requires peers { IsByKey (slice_cmp nat_cmp) peer_name peers.items }
        requires publishers { IsByName publishers.items }
        requires counted { records_total publishers.items < 2 ^ 64 }
        ensures ok { IfOk result (λ f. f.content ≡ record {
          criteria = criteria;
          entries = entries.items;
          peers = peers.items;
          publishers = publishers.items;
          today = today;
        }) }
        ensures table { IfOk result (λ f. IsTable f.content.criteria) }
        ensures memory { IfErr result (λ e. e ≡ Refusal.NoMemory) }
    {
        let _ = criteria.names();
        let entries = ByPackage::of(alloc, entries)?;
        let peers = Keyed::of(alloc, peers)?;
        let publishers = PublisherRecords::of(alloc, publishers)?;
        Ok(EntryFacts {
            criteria,
            entries,
            peers,
            publishers,
            today,
        })
    }

    /// The table of criteria.
    pub fn criteria(&self) -> &CriteriaTable
        ensures value { result.now ≡ self.now.content.criteria }
        ensures table { IsTable self.now.content.criteria }
    {
        let _ = self.criteria.names();
        &self.criteria
    }

    /// One's own entries in the order of their numbers.
    pub fn entries(&self) -> &[HeldEntry]
        ensures value { result.now ≡ self.now.content.entries }
        ensures by_number { AreByNumber self.now.content.entries }
    {
        self.entries.entries()
    }

    /// The number of the last day of each of one's own entries, if it has one. Costs nothing.
    pub fn last_days(&self) -> &[Option<i32>]
        ensures { result.now ≡ map held_last_number self.now.content.entries }
    {
        self.entries.last_days()
    }

    /// The register's day, if it has one.
    pub fn today(&self) -> Option<Day>
        ensures { result ≡ self.now.content.today }
    {
        self.today
    }

    /// The peers in the order of their names.
    pub fn peers(&self) -> &[HeldPeer]
        ensures value { result.now ≡ self.now.content.peers }
        ensures by_name { IsByKey (slice_cmp nat_cmp) peer_name self.now.content.peers }
    {
        self.peers.items()
    }

    /// The peer with a name, if it is held. Costs a binary search among the peers.
    pub fn peer(&self, name: &Name) -> Option<&HeldPeer>
        ensures { option_copied result ≡ peer_of self.now.content.peers name.now }
    {
        self.peers.get(name)
    }

    /// The number of entries of all sources. Asks that it is below 2^64. Costs a look at each peer.
    pub fn entries_total(&self) -> usize
        requires { entries_total self.now.content < 2 ^ 64 }
        ensures { result ≡ entries_total self.now.content }
    {
        let mut total = self.entries().len();
        'peers: for peer in self.peers() {
            total += peer.content.entries().len();
        }
        total
    }

    /// The number of entries of all sources except the peer with a name. Asks that the number for all sources is below
    /// 2^64. Costs a look at each peer.
    pub fn entries_beside(&self, name: &Name) -> usize
        requires { entries_total self.now.content < 2 ^ 64 }
        ensures { result
            ≡ length self.now.content.entries + entries_of_peers (without_peer name.now self.now.content.peers) }
    {
        let _ = self.peers();
        self.entries_total() - self.entries_of(name)
    }

    // The number of entries of the peer with a name, or 0 if it is not held.
    fn entries_of(&self, name: &Name) -> usize
        ensures { result ≡ length (holding_or_none (peer_of self.now.content.peers name.now)).entries }
    {
        match self.peers.get(name) {
            Some(peer) => peer.content.entries().len(),
            None => 0,
        }
    }

    /// The packages that have publisher records, in the order of their names.
    pub fn publishers(&self) -> &[PackagePublishers]
        ensures value { result.now ≡ self.now.content.publishers }
        ensures by_name { IsByName self.now.content.publishers }
    {
        self.publishers.packages()
    }

    /// The publisher records of a package, in their order. Costs a binary search among the packages that have
    /// some.
    pub fn records_of(&self, package: &PackageName) -> &[Publisher]
        ensures value { result.now ≡ records_of self.now.content.publishers «package».now }
        ensures in_order { IsInOrder result.now }
    {
        self.publishers.records_of(package)
    }

    /// The number of publisher records of all packages.
    pub fn records_total(&self) -> usize
        ensures { result ≡ records_total self.now.content.publishers }
    {
        self.publishers.total()
    }

    // The places of a package's own entries, in rising order.
    pub(crate) fn places_of(&self, package: &PackageName) -> &[usize]
        ensures within { All (λ place. place < length self.now.content.entries) result.now }
        ensures entries { gathered self.now.content.entries result.now
            ≡ filter (is_of «package».now) self.now.content.entries }
    {
        self.entries.places_of(package)
    }

    /// The number of the own entry that equals this one taken as an own one, if there is one. Costs a binary search
    /// among the own entries, and a look at each of the package's.
    pub fn number_of(&self, entry: &Entry) -> Option<u64>
        ensures { result ≡ number_of self.now.content.entries entry.now }
    {
        let entries = self.entries();
        for place in self.places_of(&entry.package) {
            let held = &entries[*place];
            if held.entry.is_as_own(entry) {
                return Some(held.number);
            }
        }
        None
    }

    /// The place among one's own entries of the one with a number, if there is one. Costs a binary search.
    pub fn place_of(&self, number: u64) -> Option<usize>
        ensures { result ≡ place_of self.now.content.entries number }
    {
        self.entries.place_of(number)
    }

    /// Whether an own entry names a criterion, or the map of a peer leads to it. A peer's own words do not count. Costs
    /// a look at each own entry and each item of a map, up to the first that names it.
    pub fn names_criterion(&self, name: &Name) -> bool
        ensures { result ≡ is_named self.now.content name.now }
    {
        if names(self.entries(), name) {
            return true;
        }
        leads_to(self.peers(), name)
    }

    /// The number of own exemptions with a last day. Costs a look at each own entry. Takes no memory.
    pub fn dated_count(&self) -> usize
        ensures { result ≡ length (filter is_dated self.now.content.entries) }
    {
        dated_count(self.entries())
    }

    /// Whether an own exemption with a last day names a criterion that a table lacks. Costs a look at each own entry.
    /// Takes no memory.
    pub fn has_dated_beyond(&self, table: &CriteriaTable) -> bool
        ensures { result ≡ list_any (is_dated_beyond table.now) self.now.content.entries }
    {
        has_dated_beyond(self.entries(), table)
    }

    /// Whether there would be more than `most` publisher records in all if these were set for a package. Costs a binary
    /// search among the packages that have some.
    pub fn records_would_pass(
        &self,
        most: usize,
        package: &PackageName,
        publishers: &Publishers,
    ) -> bool
        ensures { result ≡ nat_lt most
            (records_total (with_records «package».now publishers.now self.now.content.publishers)) }
    {
        records_after_setting(&self.publishers, package, publishers);
        let others = self.records_total() - self.records_of(package).len();
        if publishers.len() > most {
            return true;
        }
        others > most - publishers.len()
    }

    /// If publisher records are set, the packages stay in the order of their names. The records are in order too. Does
    /// nothing.
    pub fn records_stay_in_order(&self, package: &PackageName, publishers: &Publishers)
        ensures by_name { IsByName
            (with_records «package».now publishers.now self.now.content.publishers) }
        ensures in_order { IsInOrder publishers.now }
    {
        records_after_setting(&self.publishers, package, publishers);
        let _ = publishers.as_slice();
    }
}
