//! Entries that can be found by package and by number.
//!
//! **Each entry is listed once, in the order of the numbers, and the places of a package's entries are side by side.**
//!
//! Entries are kept by source: one's own in one list, those of each peer with the peer. Each list is in the order of
//! numbers. Beside it are the places of its entries in the order of their packages. So the first entry of a package is
//! found by a binary search, with the others behind it, and no entry of a peer has to be sought among all. If the
//! entries of all sources are needed, they are gathered source by source and put in the order of numbers (`source`,
//! `package_entries`).
//!
//! There are three reasons to keep them by source. A peer is removed together with all that is held of it. An import
//! exchanges one value for another, and looks at no entry of another source. Own entries are found as if there were no
//! peers.
//!
//! A number identifies an entry for ever, and numbers increase along the list. A new entry has the greatest number, so
//! it comes last and moves none. Its place is put among those of its package, after the others. Removing an entry moves
//! those after it, and lowers the places that point to them; removing the last one is as cheap as adding it. Each of
//! the two undoes the other, so an edit can be made and undone without any memory.
//!
//! A held peer has its settings with its map (`peer_settings`, `criteria_map`), and the content imported from it
//! (`holding`). The content is the criteria as the peer defines them and such a list of entries, in the peer's own
//! words. A plan translates a peer's words to one's own criteria once (`local_criteria`), so no command has to keep the
//! two in step.
//!
//! An import (`import`) puts the held entries in order by what they say, and looks for the given ones among them. Marks
//! show which held entries come again and which given ones are new. If all held ones come again, none is new and the
//! criteria are the same, the content is held already. Otherwise the list held afterwards is made as a whole: copies of
//! the held entries that come again, with their old numbers, and then the new ones with the next numbers. So the list
//! is in the order of numbers without a sort.
ghost use Rattle.std.specs.Prelude.{◌≡◌, ◌<◌, ◌≤◌, ◌+◌, ◌-◌, [], IfOk, IsOk, OnOk, OnErr, filter, insert, length, map};
ghost use Rattle.std.specs.Prelude.{remove, slice_index_or, true, false, vec_capacity, vec_len};
ghost use Rattle.std.specs.List.{All, AllWithin, range_with_len};
ghost use Rattle.std.specs.List.Sorted.{IsNonDecreasingBy, IsPartitionPoint};
ghost use Rattle.std.specs.Ordering.{is_le, is_lt, ordering_index};
ghost use Rattle.vet_entries.specs.ByPackage.{IsByPackage, IsRange, IsSlot, down, gathered, is_of, held_last_number};
ghost use Rattle.vet_entries.specs.ByPackage.{last_number, package_at, places_of, stand, up};
ghost use Rattle.vet_entries.specs.Numbered.{AreByNumber, place_of};

use crate::facts::HeldEntry;
use crate::kind::Kind;
use std::alloc::{AllocError, Global};
use std::cmp::Ordering;
use std::marker::Model;
use vet_base::name::PackageName;

/// Entries in the order of their numbers. Beside them are their places in the order of packages, so that those of a
/// package are together, and the numbers of their last days. An entry takes 432 bytes and such a number 8, so a pass
/// over all last days reads much less memory here than in the entries.
pub(crate) struct ByPackage {
    entries: Vec<HeldEntry>,
    order: Vec<usize>,
    last_days: Vec<Option<i32>>,
}

impl Model for ByPackage {
    ghost use Rattle.std.specs.Prelude.{◌≡◌, ◌-◌, map, vec_len, vec_capacity};
    ghost use Rattle.vet_entries.specs.ByPackage.{EntriesRoom, IsByPackage, held_last_number, lesser};
    ghost use Rattle.vet_entries.specs.Encodings.{entries_room_code};
    ghost use Rattle.vet_entries.specs.Numbered.{AreByNumber};
    ghost use Rattle.vet_entries.specs.contracts.facts.HeldEntry as held;

    ghost Value = { EntriesRoom };

    ghost coded = { entries_room_code held.the_row.coded };

    ghost view = { λ b. record {
      entries = b.entries.items;
      room = lesser (vec_capacity b.last_days - vec_len b.last_days)
          (lesser (vec_capacity b.entries - vec_len b.entries) (vec_capacity b.order - vec_len b.order));
    } };

    ghost invariant = { λ b. IsByPackage b.entries.items b.order.items × AreByNumber b.entries.items
        × (b.last_days.items ≡ map held_last_number b.entries.items) };
}

impl Drop for ByPackage {
    fn drop(self) {
        let ByPackage {
            entries: _,
            order: _,
            last_days: _,
        } = self;
    }
}

impl ByPackage {
    /// No entries.
    pub(crate) fn new(alloc: Global) -> ByPackage
        ensures { result.entries ≡ [] }
    {
        ByPackage {
            entries: Vec::new(alloc),
            order: Vec::new(alloc),
            last_days: Vec::new(alloc),
        }
    }

    /// Some entries in the order of their numbers. Takes a time of n log n.
    pub(crate) fn of(alloc: Global, entries: Vec<HeldEntry>) -> Result<ByPackage, AllocError>
        requires { AreByNumber entries.items }
        ensures { IfOk result (λ b. b.entries ≡ entries.items) }
    {
        let order = sorted_places(alloc, entries.as_slice())?;
        let last_days = last_days_of(alloc, entries.as_slice())?;
        Ok(ByPackage {
            entries,
            order,
            last_days,
        })
    }

    /// The entries in the order of their numbers. Costs nothing.
    pub(crate) fn entries(&self) -> &[HeldEntry]
        ensures value { result.now ≡ self.now.entries }
        ensures by_number { AreByNumber self.now.entries }
    {
        self.entries.as_slice()
    }

    /// The number of each entry's last day, if it has one. Costs nothing.
    pub(crate) fn last_days(&self) -> &[Option<i32>]
        ensures { result.now ≡ map held_last_number self.now.entries }
    {
        self.last_days.as_slice()
    }

    /// The places of a package's entries, in rising order. Costs a binary search, and a look at each of them.
    pub(crate) fn places_of(&self, package: &PackageName) -> &[usize]
        ensures places { result.now ≡ places_of self.now.entries «package».now }
        ensures within { All (λ place. place < length self.now.entries) result.now }
        ensures entries { gathered self.now.entries result.now ≡ filter (is_of «package».now) self.now.entries }
    {
        let (low, high) = range_read(self.entries.as_slice(), self.order.as_slice(), package);
        &self.order.as_slice()[low..high]
    }

    /// The place of the entry with a number, if there is one. Costs a binary search.
    pub(crate) fn place_of(&self, number: u64) -> Option<usize>
        ensures { result ≡ place_of self.now.entries number }
    {
        match self
            .entries
            .binary_search_by(|held| held.number.cmp(&number))
        {
            Ok(place) => Some(place),
            Err(_) => None,
        }
    }

    /// Makes room for one more entry. If memory runs out, the room is as it was.
    pub(crate) fn reserve(&mut self) -> Result<(), AllocError>
        ensures entries { self.new.entries ≡ self.old.entries }
        ensures ok { OnOk result (0 < self.new.room) }
        ensures kept { self.old.room ≤ self.new.room }
        ensures err { OnErr result (self.new.room ≡ self.old.room) }
        ensures succeeds { 0 < self.old.room → IsOk result }
    {
        self.entries.reserve(1)?;
        self.order.reserve(1)?;
        self.last_days.reserve(1)?;
        Ok(())
    }

    /// Inserts an entry at a place. Costs three binary searches and a move of the places after its own in the order of
    /// packages. If other entries come after it, also costs a pass over all places and a move of those entries.
    pub(crate) fn insert(&mut self, place: usize, held: HeldEntry)
        requires place { place ≤ length self.old.entries }
        requires by_number { AreByNumber (insert self.old.entries place held) }
        requires room { 0 < self.old.room }
        ensures entries { self.new.entries ≡ insert self.old.entries place held }
        ensures room { self.new.room ≡ self.old.room - 1 }
    {
        let slot = slot_of(
            self.entries.as_slice(),
            self.order.as_slice(),
            &held.entry.package,
            place,
        );
        make_gap(&mut self.order, self.entries.len(), place);
        put(&mut self.order, slot, place);
        put(&mut self.last_days, place, last_number(&held.entry.kind));
        put(&mut self.entries, place, held);
    }

    /// Removes the entry at a place. If it is the last one, costs two binary searches and a move of the places after
    /// its own in the order of packages. Otherwise costs two passes over all places and a move of the entries after it.
    pub(crate) fn remove(&mut self, place: usize) -> HeldEntry
        requires { place < length self.old.entries }
        ensures value { result ≡ slice_index_or self.old.entries place result }
        ensures entries { self.new.entries ≡ remove self.old.entries place }
        ensures back { AreByNumber (insert self.new.entries place result) }
        ensures room { self.new.room ≡ self.old.room + 1 }
    {
        take_out(&mut self.order, self.entries.as_slice(), place);
        let _ = self.last_days.remove(place);
        self.entries.remove(place)
    }
}

// The places of all entries in the order of packages and, within a package, in rising order.
fn sorted_places(alloc: Global, entries: &[HeldEntry]) -> Result<Vec<usize>, AllocError>
    ensures { IfOk result (λ order. IsByPackage entries.now order.items) }
{
    let mut order = places_below(alloc, entries.len())?;
    order.sort_by(|a, b| package_at(entries, *a).cmp(package_at(entries, *b)))?;
    Ok(order)
}

// The places below a length.
fn places_below(alloc: Global, len: usize) -> Result<Vec<usize>, AllocError>
    ensures { IfOk result (λ places. places.items ≡ range_with_len 0 len) }
{
    let mut places = Vec::with_capacity(alloc, len)?;
    for place in 0..len {
        places.push(place)?;
    }
    Ok(places)
}

// The number of each entry's last day, if it has one.
fn last_days_of(alloc: Global, entries: &[HeldEntry]) -> Result<Vec<Option<i32>>, AllocError>
    ensures { IfOk result (λ days. days.items ≡ map held_last_number entries.now) }
{
    let mut days = Vec::with_capacity(alloc, entries.len())?;
    for held in entries {
        days.push(last_number(&held.entry.kind))?;
    }
    Ok(days)
}

// The number of a kind's last day, if it has one.
fn last_number(kind: &Kind) -> Option<i32>
    ensures { result ≡ last_number kind.now }
{
    match kind.last_day() {
        Some(day) => Some(day.number()),
        None => None,
    }
}

// The package of the entry at a place, or an empty text if there is no entry.
fn package_at(entries: &[HeldEntry], place: usize) -> &str
    ensures { result.now ≡ package_at entries.now place }
{
    match entries.get(place) {
        Some(held) => held.entry.package.as_str(),
        None => "",
    }
}

// Compares the package of the entry at a place with a name. It is greater if there is no entry.
fn stand(entries: &[HeldEntry], name: &PackageName, place: usize) -> Ordering
    ensures { result ≡ stand entries.now name.now place }
{
    match entries.get(place) {
        Some(held) => held.entry.package.cmp(name),
        None => Ordering::Greater,
    }
}

// The number of places before those of a package.
fn lower(entries: &[HeldEntry], order: &[usize], name: &PackageName) -> usize
    requires { IsNonDecreasingBy (λ place. ordering_index (stand entries.now name.now place)) order.now }
    ensures bound { result ≤ length order.now }
    ensures point { IsPartitionPoint (λ place. is_lt (stand entries.now name.now place) ≡ true)
        (λ place. is_lt (stand entries.now name.now place) ≡ false) order.now result }
{
    order.partition_point(|place| stand(entries, name, *place).is_lt())
}

// The number of places before those that follow a package's.
fn upper(entries: &[HeldEntry], order: &[usize], name: &PackageName) -> usize
    requires { IsNonDecreasingBy (λ place. ordering_index (stand entries.now name.now place)) order.now }
    ensures bound { result ≤ length order.now }
    ensures point { IsPartitionPoint (λ place. is_le (stand entries.now name.now place) ≡ true)
        (λ place. is_le (stand entries.now name.now place) ≡ false) order.now result }
{
    order.partition_point(|place| stand(entries, name, *place).is_le())
}

// The number of places before those that follow a package's, counted on from those before its own.
fn upper_from(entries: &[HeldEntry], order: &[usize], name: &PackageName, low: usize) -> usize
    requires rising { IsNonDecreasingBy (λ place. ordering_index (stand entries.now name.now place)) order.now }
    requires bound { low ≤ length order.now }
    requires low { AllWithin (λ place. is_lt (stand entries.now name.now place) ≡ true) order.now 0 low }
    ensures bound { result ≤ length order.now }
    ensures point { IsPartitionPoint (λ place. is_le (stand entries.now name.now place) ≡ true)
        (λ place. is_le (stand entries.now name.now place) ≡ false) order.now result }
{
    let mut high = low;
    'places: while high < order.len() {
        if !stand(entries, name, order[high]).is_le() {
            return high;
        }
        high += 1;
    }
    high
}

// The start and the end of a package's places in the order. Looks at each of the places, which costs less than a second
// search if they are read next.
fn range_read(entries: &[HeldEntry], order: &[usize], name: &PackageName) -> (usize, usize)
    requires by_package { IsByPackage entries.now order.now }
    ensures { IsRange entries.now name.now order.now result.0 result.1 }
{
    let low = lower(entries, order, name);
    (low, upper_from(entries, order, name, low))
}

// The start and the end of a package's places in the order.
fn range_of(entries: &[HeldEntry], order: &[usize], name: &PackageName) -> (usize, usize)
    requires by_package { IsByPackage entries.now order.now }
    ensures { IsRange entries.now name.now order.now result.0 result.1 }
{
    (lower(entries, order, name), upper(entries, order, name))
}

// The slot of the order at which the place of a package's entry belongs.
fn slot_of(entries: &[HeldEntry], order: &[usize], name: &PackageName, place: usize) -> usize
    requires by_package { IsByPackage entries.now order.now }
    ensures { IsSlot entries.now name.now place order.now result }
{
    let (low, high) = range_of(entries, order, name);
    low + order[low..high].partition_point(|other| *other < place)
}

// Raises by one the places from the given one on. Asks that all are below a length.
fn make_gap(order: &mut Vec<usize>, len: usize, place: usize)
    requires { All (λ other. other < len) order.old.items }
    ensures items { order.new.items ≡ map (up place) order.old.items }
    ensures len { vec_len order.new ≡ vec_len order.old }
    ensures capacity { vec_capacity order.new ≡ vec_capacity order.old }
{
    if place < len {
        move_up(order, len, place);
    }
}

fn move_up(order: &mut Vec<usize>, len: usize, place: usize)
    requires { All (λ other. other < len) order.old.items }
    ensures items { order.new.items ≡ map (up place) order.old.items }
    ensures len { vec_len order.new ≡ vec_len order.old }
    ensures capacity { vec_capacity order.new ≡ vec_capacity order.old }
{
    for i in 0..order.len() {
        order[i] = up(place, order[i], len);
    }
}

// Removes the place of an entry from the order, and lowers the places after it.
fn take_out(order: &mut Vec<usize>, entries: &[HeldEntry], place: usize)
    requires by_package { IsByPackage entries.now order.old.items }
    requires place { place < length entries.now }
    ensures by_package { IsByPackage (remove entries.now place) order.new.items }
    ensures len { vec_len order.new ≡ vec_len order.old - 1 }
    ensures capacity { vec_capacity order.new ≡ vec_capacity order.old }
{
    if place + 1 == entries.len() {
        take_out_last(order, entries, place);
    } else {
        order.retain(|other| *other != place);
        close_gap(order, place);
    }
}

// Removes the last entry's place from the order. It is the greatest, so it is the last of its package's, and no other
// place is lowered.
fn take_out_last(order: &mut Vec<usize>, entries: &[HeldEntry], last: usize)
    requires by_package { IsByPackage entries.now order.old.items }
    requires last { last + 1 ≡ length entries.now }
    ensures by_package { IsByPackage (remove entries.now last) order.new.items }
    ensures len { vec_len order.new ≡ vec_len order.old - 1 }
    ensures capacity { vec_capacity order.new ≡ vec_capacity order.old }
{
    let (_, behind) = range_of(entries, order.as_slice(), &entries[last].entry.package);
    let _ = order.remove(behind - 1);
}

// Lowers by one the places after the given one.
fn close_gap(order: &mut Vec<usize>, place: usize)
    ensures items { order.new.items ≡ map (down place) order.old.items }
    ensures len { vec_len order.new ≡ vec_len order.old }
    ensures capacity { vec_capacity order.new ≡ vec_capacity order.old }
{
    for i in 0..order.len() {
        order[i] = down(place, order[i]);
    }
}

// The place to which a place below a length moves if an entry is inserted at another.
fn up(at: usize, place: usize, len: usize) -> usize
    requires { place < len }
    ensures { result ≡ up at place }
{
    if at <= place { place + 1 } else { place }
}

// The place to which a place moves if the entry at another is removed.
fn down(at: usize, place: usize) -> usize
    ensures { result ≡ down at place }
{
    if at < place { place - 1 } else { place }
}

// Inserts an item at a place. Asks that there is room, and so takes no memory.
fn put<T: Drop>(items: &mut Vec<T>, place: usize, item: T)
    requires place { place ≤ vec_len items.old }
    requires room { vec_len items.old < vec_capacity items.old }
    ensures items { items.new.items ≡ insert items.old.items place item }
    ensures len { vec_len items.new ≡ vec_len items.old + 1 }
    ensures capacity { vec_capacity items.new ≡ vec_capacity items.old }
{
    let _ = items.insert(place, item);
}
