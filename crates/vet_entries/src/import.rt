//! Imports of a peer's content, and the replacement of one's own entries by those of files.
//!
//! **After an import the content's entries are held, each once: those that were held keep their numbers, and the new
//! ones get the next numbers in the order of reading. The same holds for one's own entries when files replace them,
//! except that exemptions with a last day remain too.**
ghost use Rattle.std.specs.BTreeMap.{get};
ghost use Rattle.std.specs.List.{All, list_all, list_any};
ghost use Rattle.std.specs.Option.{unwrap_or};
ghost use Rattle.std.specs.Prelude.{◌≡◌, ◌==◌, ◌<◌, ◌+◌, ◌^◌, ◌++◌, ◌&&◌, ◌||◌, Bool, IfErr, IfOk, None, OnOk, Some};
ghost use Rattle.std.specs.Prelude.{false, filter, if◌then◌else◌, is_none, is_some, length, map, not, option_map, true};
ghost use Rattle.vet_base.specs.Defined.{defined};
ghost use Rattle.vet_base.specs.Definitions.{criteria_eq};
ghost use Rattle.vet_entries.specs.declared.entry.Entry.{Entry};
ghost use Rattle.vet_entries.specs.declared.entry.Source.TheVariants.{Own, Peer};
ghost use Rattle.vet_entries.specs.declared.facts.HeldEntry.{HeldEntry};
ghost use Rattle.vet_entries.specs.Entry.{entry_eq, of_source, own};
ghost use Rattle.vet_entries.specs.EntryOrder.{entry_cmp};
ghost use Rattle.vet_entries.specs.HeldPeer.{imported};
ghost use Rattle.vet_entries.specs.Import.{compared, compared_own};
ghost use Rattle.vet_entries.specs.ImportLaws.{ImportHoldsEachOnce, ImportHoldsItsContent, ImportKeepsNumbers};
ghost use Rattle.vet_entries.specs.ImportLaws.{ImportKeepsOrder, ImportTakesEntries, SameItemsAreSame};
ghost use Rattle.vet_entries.specs.Numbered.{numbered};
ghost use Rattle.vet_entries.specs.Replaced.{as_of, entries_after, is_dated};

use crate::entry::{Entry, Source};
use crate::facts::HeldEntry;
use crate::holding::Holding;
use crate::peer_content::PeerContent;
use crate::said::Said;
use std::alloc::{AllocError, Global};
use std::collections::BTreeMap;
use std::marker::Model;
use vet_base::definitions::Definitions;
use vet_base::name::Name;
use vet_base::refusal::Refusal;

/// A comparison of some entries with those held of a source: which held ones remain, and which of the given ones are
/// new.
pub struct Comparison {
    again: Vec<bool>,
    fresh: Vec<bool>,
    new_count: usize,
    is_same: bool,
}

impl Model for Comparison {
    ghost use Rattle.vet_entries.specs.Import.{ComparisonValue};
    ghost use Rattle.vet_entries.specs.FactsEncodings.{comparison_code};

    ghost Value = { ComparisonValue };

    ghost coded = { comparison_code };

    ghost view = { λ c. record {
      again = c.again.items;
      fresh = c.fresh.items;
      new_count = c.new_count;
      is_same = c.is_same;
    } };
}

impl Drop for Comparison {
    fn drop(self) {
        let Comparison {
            again: _,
            fresh: _,
            new_count: _,
            is_same: _,
        } = self;
    }
}

impl Comparison {
    /// How many entries are new.
    pub fn new_count(&self) -> usize
        ensures { result ≡ self.now.new_count }
    {
        self.new_count
    }

    /// Whether nothing changes: for a peer the same criteria and the same entries; for one's own the same entries,
    /// apart from exemptions with a last day. The order does not matter.
    pub fn is_same(&self) -> bool
        ensures { result ≡ self.now.is_same }
    {
        self.is_same
    }
}

/// Compares a content with what is held of a peer. Costs two searches among the held entries for each held one, and one
/// for each of the content; copies the criteria, but no entry. Refused: `NoMemory`.
pub fn compare(
    alloc: Global,
    name: &Name,
    held: &Holding,
    content: &PeerContent,
) -> Result<Comparison, Refusal>
    requires { All (λ h. h.entry.source ≡ Peer name.now) held.now.entries }
    ensures ok { IfOk result (λ c. c ≡ compared name.now held.now content.now) }
    ensures memory { IfErr result (λ e. e ≡ Refusal.NoMemory) }
{
    let mut seen = unseen(alloc, held.entries())?;
    let fresh = see(alloc, &mut seen, content.entries())?;
    let again = seen_again(alloc, &seen, held.entries())?;
    let new_count = count(fresh.as_slice());
    let is_same = is_same(alloc, held, content, again.as_slice(), new_count)?;
    Ok(Comparison {
        again,
        fresh,
        new_count,
        is_same,
    })
}

/// Returns what is held of the peer after an import, given the next number. Costs a copy of each entry that remains or
/// is new, and a time of n log n. Refused: `NoMemory`.
pub fn holding_after(
    alloc: Global,
    name: &Name,
    next: u64,
    held: &Holding,
    content: &PeerContent,
    comparison: &Comparison,
) -> Result<Holding, Refusal>
    requires compared { comparison.now ≡ compared name.now held.now content.now }
    requires below { All (λ h. h.number < next) held.now.entries }
    requires numbers { next + comparison.now.new_count < 2 ^ 64 }
    ensures ok { IfOk result (λ h. h ≡ imported name.now next content.now held.now) }
    ensures memory { IfErr result (λ e. e ≡ Refusal.NoMemory) }
{
    let coming = content.entries();
    let mut entries = Vec::with_capacity(alloc, coming.len())?;
    keep(&mut entries, held.entries(), comparison.again.as_slice())?;
    let fresh = comparison.fresh.as_slice();
    let source = source_of(name)?;
    add(&mut entries, &source, next, coming, fresh)?;
    Holding::of(alloc, definitions_of(alloc, content)?, entries)
}

/// Compares the entries of files, as own ones, with the own entries that are held. Exemptions with a last day remain in
/// any case. Costs two searches among the held entries for each held one, and one for each of the files; copies no
/// entry. Refused: `NoMemory`.
pub fn compare_own(
    alloc: Global,
    held: &[HeldEntry],
    entries: &[Entry],
) -> Result<Comparison, Refusal>
    requires { All (λ h. h.entry.source ≡ Own) held.now }
    ensures ok { IfOk result (λ c. c ≡ compared_own held.now entries.now) }
    ensures memory { IfErr result (λ e. e ≡ Refusal.NoMemory) }
{
    let mut seen = unseen(alloc, held)?;
    let fresh = see(alloc, &mut seen, entries)?;
    let again = remaining(alloc, &seen, held)?;
    let new_count = count(fresh.as_slice());
    let is_same = are_all(again.as_slice()) && new_count == 0;
    Ok(Comparison {
        again,
        fresh,
        new_count,
        is_same,
    })
}

/// One's own entries after files replace them, given the next number. Costs a copy of each entry that remains or is
/// new. Refused: `NoMemory`.
pub fn own_entries_after(
    alloc: Global,
    next: u64,
    held: &[HeldEntry],
    entries: &[Entry],
    comparison: &Comparison,
) -> Result<Vec<HeldEntry>, Refusal>
    requires compared { comparison.now ≡ compared_own held.now entries.now }
    requires numbers { next + comparison.now.new_count < 2 ^ 64 }
    ensures ok { IfOk result (λ v. v.items ≡ entries_after is_dated Own next held.now entries.now) }
    ensures memory { IfErr result (λ e. e ≡ Refusal.NoMemory) }
{
    let mut after = Vec::with_capacity(alloc, entries.len())?;
    keep(&mut after, held, comparison.again.as_slice())?;
    let fresh = comparison.fresh.as_slice();
    add(&mut after, &Source::Own, next, entries, fresh)?;
    Ok(after)
}

/// A content is the one held exactly if it has the same criteria and the same entries, in any order.
pub fn same_items_are_same()
    ensures { SameItemsAreSame }
{}

/// After an import the content is held: the same entries, as the peer's, and its criteria.
pub fn import_holds_its_content()
    ensures { ImportHoldsItsContent }
{}

/// If no two held entries are the same, no two are the same after an import, and there are as many as in the content.
pub fn import_holds_each_once()
    ensures { ImportHoldsEachOnce }
{}

/// If the numbers increase and are below the next one, so are those after an import, below the next one after it.
pub fn import_keeps_order()
    ensures { ImportKeepsOrder }
{}

/// Each entry after an import was held with its number, or has a new number.
pub fn import_keeps_numbers()
    ensures { ImportKeepsNumbers }
{}

/// Each entry after an import is one of the content, as the peer's.
pub fn import_takes_entries()
    ensures { ImportTakesEntries }
{}

// The held entries by what they say, none of them seen yet.
fn unseen<'a>(alloc: Global, held: &'a [HeldEntry]) -> Result<BTreeMap<Said<'a>, bool>, AllocError>
    ensures { IfOk result (λ seen. (q : Entry)
        → get entry_cmp seen q ≡ (if list_any (λ h. entry_eq (own h.entry) q) held.now then Some false else None)) }
{
    let mut seen = BTreeMap::new(alloc);
    'entries: for entry in held {
        seen.insert(Said::of(&entry.entry), false)?;
    }
    Ok(seen)
}

// Marks some entries as seen, and returns for each whether it is not held.
fn see<'a>(
    alloc: Global,
    seen: &mut BTreeMap<Said<'a>, bool>,
    entries: &'a [Entry],
) -> Result<Vec<bool>, AllocError>
    ensures fresh { IfOk result (λ fresh.
        fresh.items ≡ map (λ e. is_none (get entry_cmp seen.old (own e))) entries.now) }
    ensures seen { OnOk result ((q : Entry) → get entry_cmp seen.new q
        ≡ option_map (λ before. before || list_any (λ e. entry_eq (own e) q) entries.now) (get entry_cmp seen.old q)) }
{
    let mut fresh = Vec::new(alloc);
    'entries: for entry in entries {
        let is_held = see_one(seen, entry);
        fresh.push(!is_held)?;
    }
    Ok(fresh)
}

// Marks an entry as seen, and returns whether it is held.
fn see_one<'a>(seen: &mut BTreeMap<Said<'a>, bool>, entry: &'a Entry) -> bool
    ensures held { result ≡ is_some (get entry_cmp seen.old (own entry.now)) }
    ensures seen { (q : Entry) → get entry_cmp seen.new q
        ≡ option_map (λ before. before || entry_eq (own entry.now) q) (get entry_cmp seen.old q) }
{
    match seen.get_mut(&Said::of(entry)) {
        Some(mark) => {
            *mark = true;
            true
        }
        None => false,
    }
}

// For each held entry, whether it was seen.
fn seen_again<'a>(
    alloc: Global,
    seen: &BTreeMap<Said<'a>, bool>,
    held: &'a [HeldEntry],
) -> Result<Vec<bool>, AllocError>
    ensures { IfOk result (λ again. again.items
        ≡ map (λ h. unwrap_or (get entry_cmp seen.now (own h.entry)) false) held.now) }
{
    let mut again = Vec::new(alloc);
    'entries: for entry in held {
        again.push(was_seen(seen, entry))?;
    }
    Ok(again)
}

// Whether a held entry was seen.
fn was_seen<'a>(seen: &BTreeMap<Said<'a>, bool>, held: &'a HeldEntry) -> bool
    ensures { result ≡ unwrap_or (get entry_cmp seen.now (own held.now.entry)) false }
{
    match seen.get(&Said::of(&held.entry)) {
        Some(seen) => *seen,
        None => false,
    }
}

// For each held entry, whether it is an exemption with a last day, or was seen.
fn remaining<'a>(
    alloc: Global,
    seen: &BTreeMap<Said<'a>, bool>,
    held: &'a [HeldEntry],
) -> Result<Vec<bool>, AllocError>
    ensures { IfOk result (λ again. again.items
        ≡ map (λ h. is_dated h || unwrap_or (get entry_cmp seen.now (own h.entry)) false) held.now) }
{
    let mut again = Vec::new(alloc);
    'entries: for entry in held {
        again.push(remains(seen, entry))?;
    }
    Ok(again)
}

// Whether a held entry is an exemption with a last day, or was seen.
fn remains<'a>(seen: &BTreeMap<Said<'a>, bool>, held: &'a HeldEntry) -> bool
    ensures { result
        ≡ (is_dated held.now || unwrap_or (get entry_cmp seen.now (own held.now.entry)) false) }
{
    if held.entry.kind.has_last_day() {
        return true;
    }
    was_seen(seen, held)
}

// The number of answers that are yes.
fn count(answers: &[bool]) -> usize
    ensures { result ≡ length (filter (λ b. b) answers.now) }
{
    answers.iter().filter(|answer| **answer).count()
}

// Whether all answers are yes.
fn are_all(answers: &[bool]) -> bool
    ensures { result ≡ list_all (λ b. b) answers.now }
{
    answers.iter().all(|answer| *answer)
}

// Whether all held entries come again, none is new, and the criteria are the same.
fn is_same(
    alloc: Global,
    held: &Holding,
    content: &PeerContent,
    again: &[bool],
    new_count: usize,
) -> Result<bool, Refusal>
    ensures ok { IfOk result (λ is_same. is_same ≡ (list_all (λ b. b) again.now
        && ((new_count == 0) && criteria_eq (defined content.now.criteria) held.now.table))) }
    ensures memory { IfErr result (λ e. e ≡ Refusal.NoMemory) }
{
    if !are_all(again) {
        return Ok(false);
    }
    if new_count > 0 {
        return Ok(false);
    }
    has_criteria_of(alloc, held, content)
}

// Whether the criteria held are those of a content.
fn has_criteria_of(alloc: Global, held: &Holding, content: &PeerContent) -> Result<bool, Refusal>
    ensures ok { IfOk result (λ is_same. is_same ≡ criteria_eq (defined content.now.criteria) held.now.table) }
    ensures memory { IfErr result (λ e. e ≡ Refusal.NoMemory) }
{
    Ok(definitions_of(alloc, content)? == *held.definitions())
}

// The criteria of a content, and the built-in ones.
fn definitions_of(alloc: Global, content: &PeerContent) -> Result<Definitions, Refusal>
    ensures ok { IfOk result (λ d. d ≡ defined content.now.criteria) }
    ensures memory { IfErr result (λ e. e ≡ Refusal.NoMemory) }
{
    let criteria = content.criteria().to_vec(alloc)?;
    Definitions::of(alloc, criteria)
}

// Adds copies of those held entries that come again.
fn keep(entries: &mut Vec<HeldEntry>, held: &[HeldEntry], again: &[bool]) -> Result<(), AllocError>
    requires { length again.now ≡ length held.now }
    ensures { OnOk result ((keeps : HeldEntry → Bool) → again.now ≡ map keeps held.now
        → entries.new.items ≡ entries.old.items ++ filter keeps held.now) }
{
    'held: for place in 0..held.len() {
        if again[place] {
            entries.push(copied(&held[place])?)?;
        }
    }
    Ok(())
}

// A copy of a held entry.
fn copied(held: &HeldEntry) -> Result<HeldEntry, AllocError>
    ensures { IfOk result (λ h. h ≡ held.now) }
{
    Ok(HeldEntry {
        number: held.number,
        entry: held.entry.clone()?,
    })
}

// The peer with a name, as a source.
fn source_of(name: &Name) -> Result<Source, AllocError>
    ensures { IfOk result (λ s. s ≡ Peer name.now) }
{
    Ok(Source::Peer(name.clone()?))
}

// Adds the new entries as those of a source, with numbers from this one on.
fn add(
    held: &mut Vec<HeldEntry>,
    source: &Source,
    next: u64,
    entries: &[Entry],
    fresh: &[bool],
) -> Result<(), AllocError>
    requires fresh { length fresh.now ≡ length entries.now }
    requires numbers { next + length (filter (λ b. b) fresh.now) < 2 ^ 64 }
    ensures { OnOk result ((is_new : Entry → Bool) → fresh.now ≡ map is_new (as_of source.now entries.now)
        → held.new.items ≡ held.old.items ++ numbered next (filter is_new (as_of source.now entries.now))) }
{
    let mut number = next;
    'entries: for place in 0..entries.len() {
        if fresh[place] {
            let entry = copied_as(&entries[place], source)?;
            held.push(HeldEntry { number, entry })?;
            number += 1;
        }
    }
    Ok(())
}

// A copy of an entry as that of a source.
fn copied_as(entry: &Entry, source: &Source) -> Result<Entry, AllocError>
    ensures { IfOk result (λ e. e ≡ of_source source.now entry.now) }
{
    entry.copied_for(source.clone()?)
}
