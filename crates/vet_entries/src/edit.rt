//! Edits of the facts about packages.
//!
//! **Making an edit changes the facts in place, and returns the edit that undoes it.**
//!
//! `EntryFacts` holds the table of criteria, the own entries, the peers by name, the publisher records by package, and
//! the register's day. Only an `Edit` changes it. Each `edit_..` call returns the edit that it names, and reserves the
//! room for it. `apply` takes no memory and cannot fail. Values that belong together are exchanged as a whole: the
//! records of a package, a peer's settings, a peer's content.
//!
//! To plan a change, a caller makes the edit, looks at the result, and makes the edit that undoes it, whether or not
//! memory ran out. So the facts are never copied, and the edit that comes back is the one that will be made for good.
//!
//! Room is the number of own entries, peers, and packages with records that can still be added without memory: the
//! capacity of a list less its length. The model has it beside what is held. Only this file knows how much of it an
//! edit takes. Elsewhere, one room includes another (`HoldsRoomOf`), and an edit that fits still fits then.
ghost use Rattle.std.specs.List.{All};
ghost use Rattle.std.specs.Prelude.{◌≡◌, ◌<◌, ◌^◌, ◌++◌, ◌∷◌, [], IfErr, IfOk, IsOk, IsTrue, OnErr, Some, length};
ghost use Rattle.std.specs.Prelude.{remove};
ghost use Rattle.vet_entries.specs.Facts.{Facts, Fits, HoldsRoomOf, IsHeld, edited, keeps_criteria, room_after};
ghost use Rattle.vet_entries.specs.HeldPeer.{with_content, with_settings, without_peer};
ghost use Rattle.vet_entries.specs.PublisherRecords.{records_of, records_total, with_records};

use crate::entry::Entry;
use crate::facts::{Edit, EntryFacts, HeldEntry};
use crate::held_peer::HeldPeer;
use crate::holding::Holding;
use crate::peer_settings::PeerSettings;
use crate::peers::{exchange_content, exchange_settings};
use crate::publishers::Publishers;
use std::alloc::Global;
use vet_base::criteria_table::CriteriaTable;
use vet_base::day::Day;
use vet_base::name::{Name, PackageName};
use vet_base::refusal::Refusal;

impl Edit {
    /// Whether the edit leaves the table of criteria as it is, whatever is held. Takes no memory.
    pub fn keeps_criteria(&self) -> bool
        ensures value { result ≡ keeps_criteria self.now }
        ensures kept { IsTrue result → (facts : Facts) → (edited self.now facts).criteria ≡ facts.criteria }
    {
        match self {
            Edit::Criteria(_) => false,
            Edit::Insert(..)
            | Edit::Remove(_)
            | Edit::Peer(_)
            | Edit::Settings(_)
            | Edit::Content(..)
            | Edit::Publishers(_)
            | Edit::Today(_) => true,
        }
    }
}

impl EntryFacts {
    /// The edit that adds an own entry with this number after all others, and room for it. Asks that the number is
    /// higher than theirs. Costs nothing if there is room; otherwise it moves all entries to twice the room. Refused:
    /// `NoMemory`.
    pub fn edit_adding(&mut self, number: u64, entry: Entry) -> Result<Edit, Refusal>
        requires { All (λ h. h.number < number) self.old.content.entries }
        ensures edit { IfOk result (λ e. edited e self.old.content ≡ record self.old.content {
          entries = self.old.content.entries ++ (record { number = number; entry = entry }) ∷ [];
        }) }
        ensures fits { IfOk result (λ e. Fits e self.new) }
        ensures content { self.new.content ≡ self.old.content }
        ensures kept { HoldsRoomOf self.old.room self.new.room }
        ensures err { OnErr result (self.new.room ≡ self.old.room) }
        ensures succeeds { 0 < self.old.room.entries → IsOk result }
        ensures memory { IfErr result (λ e. e ≡ Refusal.NoMemory) }
    {
        self.entries.reserve()?;
        let place = self.entries.entries().len();
        Ok(Edit::Insert(place, HeldEntry { number, entry }))
    }

    /// The edit that removes the own entry at a place. Asks that there is one. Takes no memory.
    pub fn edit_dropping(&self, at: usize) -> Edit
        requires { at < length self.now.content.entries }
        ensures edit { edited result self.now.content ≡ record self.now.content {
          entries = remove self.now.content.entries at;
        } }
        ensures fits { Fits result self.now }
    {
        Edit::Remove(at)
    }

    /// The edit that puts a table of criteria in place of the one held. Takes no memory.
    pub fn edit_of_criteria(&self, criteria: CriteriaTable) -> Edit
        ensures edit { edited result self.now.content ≡ record self.now.content { criteria = criteria } }
        ensures fits { Fits result self.now }
    {
        Edit::Criteria(criteria)
    }

    /// The edit that puts these settings in place of those of the peer with their name, or adds the peer with nothing
    /// imported, and room for it. Costs a binary search among the peers; for a new peer another one, and sometimes a
    /// move of all peers to twice the room. Refused: `NoMemory`, and never if the peer is held.
    pub fn edit_of_settings(
        &mut self,
        alloc: Global,
        settings: PeerSettings,
    ) -> Result<Edit, Refusal>
        ensures edit { IfOk result (λ e. edited e self.old.content ≡ record self.old.content {
          peers = with_settings settings self.old.content.peers;
        }) }
        ensures fits { IfOk result (λ e. Fits e self.new) }
        ensures content { self.new.content ≡ self.old.content }
        ensures kept { HoldsRoomOf self.old.room self.new.room }
        ensures memory { IfErr result (λ e. e ≡ Refusal.NoMemory) }
        ensures held { IsHeld settings.name self.old.content → IsOk result }
    {
        if self.peers.has(&settings.name) {
            return Ok(Edit::Settings(settings));
        }
        self.peers.reserve()?;
        let content = Holding::new(alloc)?;
        Ok(Edit::Peer(self.peers.edit_setting(HeldPeer { settings, content })))
    }

    /// The edit that removes the peer with a name, with all that was imported from it. Asks that it is held. Takes no
    /// memory.
    pub fn edit_dropping_peer(&self, name: &Name) -> Edit
        requires { IsHeld name.now self.now.content }
        ensures edit { edited result self.now.content ≡ record self.now.content {
          peers = without_peer name.now self.now.content.peers;
        } }
        ensures fits { Fits result self.now }
    {
        match self.peers.edit_dropping(name) {
            Some(edit) => Edit::Peer(edit),
            None => unreachable!(),
        }
    }

    /// The edit that puts a content in place of that of the peer with a name. Asks that the peer is held. Takes no
    /// memory.
    pub fn edit_of_content(&self, name: Name, content: Holding) -> Edit
        requires { IsHeld name self.now.content }
        ensures edit { edited result self.now.content ≡ record self.now.content {
          peers = with_content name content self.now.content.peers;
        } }
        ensures fits { Fits result self.now }
    {
        let _ = content.entries();
        Edit::Content(name, content)
    }

    /// The edit that puts these publisher records in place of those of a package, and room for it. Asks that at least
    /// one of the two has records, and that all records together are fewer than 2^64. Costs two binary searches among
    /// the packages that have records, and a copy of the new records; for a new package sometimes a move of all
    /// packages to twice the room. Refused: `NoMemory`.
    pub fn publishers_edit(
        &mut self,
        package: &PackageName,
        publishers: &Publishers,
    ) -> Result<Edit, Refusal>
        requires some { records_of self.old.content.publishers «package».now ≡ []
            → publishers.now ≡ [] → ⊥ }
        requires counted { records_total
            (with_records «package».now publishers.now self.old.content.publishers) < 2 ^ 64 }
        ensures edit { IfOk result (λ e. edited e self.old.content ≡ record self.old.content {
          publishers = with_records «package».now publishers.now self.old.content.publishers;
        }) }
        ensures fits { IfOk result (λ e. Fits e self.new) }
        ensures content { self.new.content ≡ self.old.content }
        ensures kept { HoldsRoomOf self.old.room self.new.room }
        ensures memory { IfErr result (λ e. e ≡ Refusal.NoMemory) }
    {
        let change = self.publishers.edit_for(package, publishers)?;
        Ok(Edit::Publishers(change))
    }

    /// The edit that sets the register's day. Takes no memory.
    pub fn edit_of_today(&self, day: Day) -> Edit
        ensures edit { edited result self.now.content ≡ record self.now.content { today = Some day } }
        ensures fits { Fits result self.now }
    {
        Edit::Today(Some(day))
    }

    /// Makes an edit, and returns the one that undoes it. Asks that the edit fits. Takes no memory.
    ///
    /// Adding an entry after all others costs three binary searches and a move of the places after its own in the order
    /// of packages, which are numbers; removing the last entry costs two searches and such a move. Elsewhere both go
    /// over the places of all entries, and move the entries that follow. The records of a package are exchanged as a
    /// whole. Adding or removing a package or a peer moves those that follow it, and so does exchanging a peer's
    /// settings or content.
    pub fn apply(&mut self, edit: Edit) -> Edit
        requires { Fits edit self.old }
        ensures content { self.new.content ≡ edited edit self.old.content }
        ensures room { self.new.room ≡ room_after edit self.old.room }
        ensures fits { Fits result self.new }
        ensures back { edited result self.new.content ≡ self.old.content }
        ensures room_back { room_after result self.new.room ≡ self.old.room }
    {
        match edit {
            Edit::Criteria(table) => Edit::Criteria(std::mem::replace(&mut self.criteria, table)),
            Edit::Insert(place, held) => {
                self.entries.insert(place, held);
                Edit::Remove(place)
            }
            Edit::Remove(place) => Edit::Insert(place, self.entries.remove(place)),
            Edit::Peer(change) => Edit::Peer(self.peers.apply(change)),
            Edit::Settings(settings) => Edit::Settings(exchange_settings(
                &mut self.peers,
                settings,
            )),
            Edit::Content(name, content) => {
                let content = exchange_content(&mut self.peers, &name, content);
                Edit::Content(name, content)
            }
            Edit::Publishers(change) => Edit::Publishers(self.publishers.apply(change)),
            Edit::Today(day) => Edit::Today(std::mem::replace(&mut self.today, day)),
        }
    }
}
