//! The criteria of one's own table that one's own words and those of each peer stand for.
//!
//! **The local criteria of an entry are those of the definition: those of a peer's entry are closed by the peer's own
//! criteria, then mapped, and the result is closed here.**
//!
//! For each criterion of a peer, all that it implies there is found once, and so is all that these criteria stand for
//! here. A name that the peer does not define implies nothing there, so only the map says what it stands for. An entry
//! then costs a lookup for each name, and one closure. Nothing is computed for a peer until an entry of that peer is
//! looked at.
ghost use Rattle.std.specs.Prelude.{◌≡◌, ◌<◌, ℕ, None, Some, [], length, replicate, slice_index_or, IfOk, IfErr};
ghost use Rattle.std.specs.FinMap as table;
ghost use Rattle.std.specs.FinSet as set;
ghost use Rattle.vet_base.specs.Closures.{AreClosures};
ghost use Rattle.vet_base.specs.Criteria.{closure_of, placed};
ghost use Rattle.vet_base.specs.Names.{members};
ghost use Rattle.vet_entries.specs.LocalCriteria.{AreLocal, AreWords, HoldsWords, all_beyond, direct, mapped_beyond};
ghost use Rattle.vet_entries.specs.LocalCriteria.{stands_for};
ghost use Rattle.vet_entries.specs.Mapped.{mapped, mapped_name};
ghost use Rattle.vet_entries.specs.PeerWords.{local_criteria};
ghost use Rattle.vet_entries.specs.declared.held_peer.HeldPeer.{HeldPeer};

use crate::criteria_map::CriteriaMap;
use crate::facts::EntryFacts;
use crate::held_peer::HeldPeer;
use std::alloc::{AllocError, Global};
use std::boxed::Box;
use vet_base::closures::{Closures, union_at};
use vet_base::criteria_set::CriteriaSet;
use vet_base::criteria_table::{CriteriaTable, is_built_in};
use vet_base::definitions::Definitions;
use vet_base::limits::MOST_CRITERIA;
use vet_base::name::Name;
use vet_base::names::Names;
use vet_base::refusal::Refusal;

/// The criteria of one's own table that one's own words and those of each peer stand for, found once for many packages.
/// One's own are found immediately, and those of a peer when they are first asked for. A change of the table or of a
/// peer makes them void.
pub struct LocalCriteria {
    own: Closures,
    peers: Vec<Option<PeerWords>>,
}

impl Drop for LocalCriteria {
    fn drop(self) {
        let LocalCriteria { own: _, peers: _ } = self;
    }
}

// The criteria that each criterion of a peer stands for with all that it implies there, by its place among the peer's
// names. They are not yet closed in one's own table. They are on the heap, so that the slot of a peer that no entry
// needs is small.
#[derive(Drop)]
struct PeerWords {
    stands: Box<[CriteriaSet; MOST_CRITERIA]>,
}

impl LocalCriteria {
    /// The closures of one's own table, and an empty slot for the words of each peer. Costs the closures of one's own
    /// table. Refused: `NoMemory`.
    pub fn of(alloc: Global, facts: &EntryFacts) -> Result<LocalCriteria, Refusal>
        ensures ok { IfOk result (AreLocal facts.now.content) }
        ensures memory { IfErr result (λ e. e ≡ Refusal.NoMemory) }
    {
        Ok(LocalCriteria {
            own: facts.criteria().closures(),
            peers: empty_slots(alloc, facts.peers().len())?,
        })
    }

    /// The closures of one's own table. Takes no memory.
    pub fn own(&self) -> &Closures
        ensures { result.now ≡ self.now.own }
    {
        &self.own
    }

    /// The local criteria of some names of one's own. Takes no memory.
    pub(crate) fn of_own(&self, facts: &EntryFacts, names: &Names) -> CriteriaSet
        requires { AreLocal facts.now.content self.now }
        ensures { result ≡ local_criteria facts.now.content.criteria None names.now }
    {
        self.own.close(&facts.criteria().set_of(names))
    }

    /// The local criteria of some names of the peer at a place. Costs a lookup for each name. The first time it also
    /// costs the closures of the peer's criteria, a lookup in the peer's map for each name that they imply, and the
    /// memory of a set for each criterion that a table may have. Fails only if memory runs out.
    pub(crate) fn of_peer(
        &mut self,
        alloc: Global,
        facts: &EntryFacts,
        place: usize,
        names: &Names,
    ) -> Result<CriteriaSet, AllocError>
        requires local { AreLocal facts.now.content self.old }
        requires place { place < length facts.now.content.peers }
        ensures criteria { IfOk result (λ set. (d : HeldPeer) → set ≡ local_criteria facts.now.content.criteria
            (Some (slice_index_or facts.now.content.peers place d)) names.now) }
        ensures local { AreLocal facts.now.content self.new }
    {
        let criteria = facts.criteria();
        let peer = &facts.peers()[place];
        let stands = stand_by(alloc, &mut self.peers[place], criteria, peer, names)?;
        Ok(self.own.close(&stands))
    }
}

// As many empty slots as asked for.
fn empty_slots<T: Drop>(alloc: Global, count: usize) -> Result<Vec<Option<T>>, AllocError>
    ensures { IfOk result (λ slots. slots.items ≡ replicate count None) }
{
    let mut slots = Vec::with_capacity(alloc, count)?;
    'slots: for _place in 0..count {
        slots.push(None)?;
    }
    Ok(slots)
}

// The criteria that some names of a peer stand for with all that they imply there, by the words in the peer's slot. If
// the slot is empty, the words are found and put there.
fn stand_by(
    alloc: Global,
    slot: &mut Option<PeerWords>,
    criteria: &CriteriaTable,
    peer: &HeldPeer,
    names: &Names,
) -> Result<CriteriaSet, AllocError>
    requires { HoldsWords criteria.now peer.now slot.old }
    ensures stands { IfOk result (λ set. set ≡ placed criteria.now
        (mapped peer.now.settings.map (closure_of peer.now.content.table names.now))) }
    ensures words { HoldsWords criteria.now peer.now slot.new }
{
    if let Some(words) = &*slot {
        return Ok(words.of_names(criteria, peer, names));
    }
    let words = PeerWords::of(alloc, criteria, peer)?;
    let stands = words.of_names(criteria, peer, names);
    *slot = Some(words);
    Ok(stands)
}

/// The own criteria that a peer's violation names, closed neither by the peer nor here. Takes no memory.
pub(crate) fn mapped_set(criteria: &CriteriaTable, map: &CriteriaMap, names: &Names) -> CriteriaSet
    ensures { result ≡ placed criteria.now (mapped map.now names.now) }
{
    let mut set = CriteriaSet::empty();
    for name in names.as_slice() {
        set = set.union(&word(criteria, map, name));
    }
    set
}

impl PeerWords {
    // The criteria that each criterion of a peer stands for.
    fn of(alloc: Global, criteria: &CriteriaTable, peer: &HeldPeer) -> Result<PeerWords, AllocError>
        ensures { IfOk result (AreWords criteria.now peer.now) }
    {
        let definitions = peer.content.definitions();
        let direct = direct_words(criteria, &peer.settings.map, definitions);
        let closures = definitions.closures();
        let count = definitions.names().len();
        let mut stands = [CriteriaSet::empty(); MOST_CRITERIA];
        for place in 0..count {
            let reached = closures.close(&CriteriaSet::empty().with(place));
            stands[place] = union_at(&direct, &reached);
        }
        Ok(PeerWords {
            stands: Box::new(alloc, stands)?,
        })
    }

    // The criteria that some names of the peer stand for with all that they imply there.
    fn of_names(&self, criteria: &CriteriaTable, peer: &HeldPeer, names: &Names) -> CriteriaSet
        requires { AreWords criteria.now peer.now self.now }
        ensures { result ≡ placed criteria.now
            (mapped peer.now.settings.map (closure_of peer.now.content.table names.now)) }
    {
        let mut set = CriteriaSet::empty();
        for name in names.as_slice() {
            set = set.union(&self.of_name(criteria, peer, name));
        }
        set
    }

    // The criteria that a name of the peer stands for with all that it implies there.
    fn of_name(&self, criteria: &CriteriaTable, peer: &HeldPeer, name: &Name) -> CriteriaSet
        requires { AreWords criteria.now peer.now self.now }
        ensures { result ≡ stands_for criteria.now peer.now name.now }
    {
        match peer.content.definitions().place(name) {
            Some(place) => self.stands[place],
            None => word(criteria, &peer.settings.map, name),
        }
    }
}

// The criteria that each criterion of a peer stands for with the names that it implies and the peer does not define, by
// its place.
fn direct_words(
    criteria: &CriteriaTable,
    map: &CriteriaMap,
    definitions: &Definitions,
) -> [CriteriaSet; MOST_CRITERIA]
    ensures { (p : ℕ) → p < length (table.keys definitions.now)
        → slice_index_or result p set.empty
        ≡ placed criteria.now (direct definitions.now map.now (slice_index_or (table.keys definitions.now) p [])) }
{
    let names = definitions.names();
    let defined = definitions.criteria();
    let mut words = [CriteriaSet::empty(); MOST_CRITERIA];
    for place in 0..names.len() {
        let beyond = words_beyond(criteria, map, definitions, &defined[place].implies);
        words[place] = word(criteria, map, &names[place]).union(&beyond);
    }
    words
}

// The criteria that those of some names stand for that a peer does not define.
fn words_beyond(
    criteria: &CriteriaTable,
    map: &CriteriaMap,
    definitions: &Definitions,
    names: &Names,
) -> CriteriaSet
    ensures { result ≡ placed criteria.now (all_beyond definitions.now map.now (members names.now)) }
{
    let mut set = CriteriaSet::empty();
    for name in names.as_slice() {
        set = set.union(&word_beyond(criteria, map, definitions, name));
    }
    set
}

// The criteria that a name stands for, or none if a peer defines it.
fn word_beyond(
    criteria: &CriteriaTable,
    map: &CriteriaMap,
    definitions: &Definitions,
    name: &Name,
) -> CriteriaSet
    ensures { result ≡ placed criteria.now (mapped_beyond definitions.now map.now name.now) }
{
    if definitions.has(name) {
        return CriteriaSet::empty();
    }
    word(criteria, map, name)
}

// The criteria that a name of a peer stands for, without those that it implies there or here.
fn word(criteria: &CriteriaTable, map: &CriteriaMap, name: &Name) -> CriteriaSet
    ensures { result ≡ placed criteria.now (mapped_name map.now name.now) }
{
    if let Some(names) = map.get(name) {
        return criteria.set_of(names);
    }
    if !is_built_in(name) {
        return CriteriaSet::empty();
    }
    itself(criteria, name)
}

// The criterion of a name, or none if the table lacks it.
fn itself(criteria: &CriteriaTable, name: &Name) -> CriteriaSet
    ensures { result ≡ placed criteria.now (set.insert set.empty name.now) }
{
    match criteria.place(name) {
        Some(place) => CriteriaSet::empty().with(place),
        None => CriteriaSet::empty(),
    }
}
