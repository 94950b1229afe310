//! Laws of the facts about packages. Each does nothing.
ghost use Rattle.vet_entries.specs.Facts.{FitsWithMoreRoom, RoomHoldsItself, RoomHoldsOnward};
ghost use Rattle.vet_entries.specs.SameOfLaws.{ContentKeepsOthers, ContentKeepsSameEntries, DayCondemnsTheSame};
ghost use Rattle.vet_entries.specs.SameOfLaws.{DayKeepsSteps, EntryAddedKeepsOthers, EntryDroppedKeepsOthers};
ghost use Rattle.vet_entries.specs.SameOfLaws.{ExclusionsKeepOthers, PeerDroppedKeepsOthers};
ghost use Rattle.vet_entries.specs.SameOfLaws.{PeerKeepsWhatIsWordedTheSame, RecordsKeepOthers, SameByItself};
ghost use Rattle.vet_entries.specs.SameOfLaws.{SameHasSameSteps, SameIsCondemnedTheSame, SameOnward};
ghost use Rattle.vet_entries.specs.SameOfLaws.{SettingsKeepOthers};

/// An edit that fits still fits if the facts are the same and no room is lost. No room is lost if nothing changes, or
/// by two changes of which neither loses any. Does nothing.
pub fn edits_fit_with_more_room()
    ensures fits { FitsWithMoreRoom }
    ensures itself { RoomHoldsItself }
    ensures onward { RoomHoldsOnward }
{}

/// If a package has the same entries in the same wording and the same publisher records, and the table and the
/// register's day are the same, it has the same steps and the same condemned versions. Does nothing.
pub fn same_packages_have_same_steps()
    ensures steps { SameHasSameSteps }
    ensures condemned { SameIsCondemnedTheSame }
    ensures itself { SameByItself }
    ensures onward { SameOnward }
{}

/// Another register's day leaves the steps of a package as they are if each of its entries has lapsed on both days or
/// on neither, and never changes which versions are condemned. Does nothing.
pub fn another_day_keeps_steps()
    ensures steps { DayKeepsSteps }
    ensures condemned { DayCondemnsTheSame }
{}

/// Adding or removing an own entry leaves all packages except its own the same. So does setting the publisher records
/// of one package. Does nothing.
pub fn entries_keep_other_packages()
    ensures added { EntryAddedKeepsOthers }
    ensures dropped { EntryDroppedKeepsOthers }
    ensures records { RecordsKeepOthers }
{}

/// A peer that is added, changed or removed leaves the same each package of which it has no entry. Other settings with
/// the map as it was leave the same each package that is excluded as before. Another content with the same criteria
/// leaves the same each package that has the same entries there. Does nothing.
pub fn peers_keep_other_packages()
    ensures peer { PeerKeepsWhatIsWordedTheSame }
    ensures settings { SettingsKeepOthers }
    ensures exclusions { ExclusionsKeepOthers }
    ensures content { ContentKeepsOthers }
    ensures entries { ContentKeepsSameEntries }
    ensures dropped { PeerDroppedKeepsOthers }
{}
