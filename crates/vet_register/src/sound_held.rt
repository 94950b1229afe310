//! Whether everything that is held is sound, and the desk too.
//!
//! **It passes exactly if it is sound.** Anything that the types of its parts say of each of their values is not
//! checked again: the order of criteria, entries, peers, records, policies and projects, and that the table is a table
//! of criteria.
ghost use Rattle.std.specs.Cmp.Lexicographic.{slice_cmp};
ghost use Rattle.std.specs.List.{All};
ghost use Rattle.std.specs.Ordering.{nat_cmp};
ghost use Rattle.std.specs.Prelude.{◌≡◌, ◌↔◌, ◌≤◌, IsTrue, length};
ghost use Rattle.vet_base.specs.Keyed.{IsByKey};
ghost use Rattle.vet_desk.specs.SoundDesk.{HaveEntriesGiven, IsEntryGiven};
ghost use Rattle.vet_entries.specs.Facts.{entries_of_peers, entries_total};
ghost use Rattle.vet_entries.specs.HeldPeer.{peer_name};
ghost use Rattle.vet_entries.specs.Publishers.{IsInOrder};
ghost use Rattle.vet_register.specs.Checks.{Checks};
ghost use Rattle.vet_register.specs.Sound.{ArePeers, ArePolicies, AreProjects, ArePublishers, AreSound};
ghost use Rattle.vet_register.specs.Sound.{IsSoundAtDesk};

use crate::sound_entries::{check_entries, check_known};
use crate::sound_numbers::check_apart;
use crate::sound_peers::check_each_peer;
use std::alloc::Global;
use vet_base::criteria_table::CriteriaTable;
use vet_base::keyed::Keyed;
use vet_base::limits::{MOST_ENTRIES, MOST_PEERS, MOST_POLICIES, MOST_PROJECTS, MOST_PUBLISHERS};
use vet_base::refusal::Refusal;
use vet_demand::policies::KeyedPolicy;
use vet_demand::policy_names::are_known;
use vet_demand::project::NamedProject;
use vet_desk::desk::Desk;
use vet_desk::laws::open_criteria_stay_known;
use vet_desk::review::{Review, ReviewState};
use vet_entries::entry::Source;
use vet_entries::facts::EntryFacts;
use vet_entries::held_peer::HeldPeer;
use vet_entries::publisher_records::PackagePublishers;

/// Whether facts of packages are sound, given the next number. Costs a search and a look-up by a hash for each entry.
/// Refused: `NotARegister` if they are not; `NoMemory`.
pub(crate) fn check_facts(alloc: Global, facts: &EntryFacts, next: u64) -> Result<(), Refusal>
    ensures { Checks (AreSound facts.now.content next) result }
{
    let _ = facts.criteria();
    check_few(facts)?;
    check_known(facts)?;
    check_publishers(facts)?;
    check_entries(alloc, &Source::Own, facts.entries(), next)?;
    check_peers(alloc, facts.peers(), next)?;
    check_apart(alloc, facts, next)
}

/// Whether policies name only criteria of the table, and are within their limit.
pub(crate) fn check_policies(
    criteria: &CriteriaTable,
    policies: &Keyed<KeyedPolicy>,
) -> Result<(), Refusal>
    ensures { Checks (ArePolicies criteria.now policies.now.items) result }
{
    let items = policies.items();
    if items.len() > MOST_POLICIES {
        return Err(Refusal::NotARegister);
    }
    if !are_known(items, criteria) {
        return Err(Refusal::NotARegister);
    }
    Ok(())
}

/// Whether projects are within their limit.
pub(crate) fn check_projects(projects: &Keyed<NamedProject>) -> Result<(), Refusal>
    ensures { Checks (AreProjects projects.now.items) result }
{
    if projects.items().len() > MOST_PROJECTS {
        return Err(Refusal::NotARegister);
    }
    Ok(())
}

/// Whether the reviews that aren't closed name only criteria of the table, and the entry of each finished one has a
/// number below the next one.
pub(crate) fn check_desk(criteria: &CriteriaTable, desk: &Desk, next: u64) -> Result<(), Refusal>
    ensures { Checks (IsSoundAtDesk criteria.now desk.now.content next) result }
{
    open_criteria_stay_known();
    if desk.names_beyond(criteria) {
        return Err(Refusal::NotARegister);
    }
    if !have_entries_given(desk.reviews(), next) {
        return Err(Refusal::NotARegister);
    }
    Ok(())
}

// Whether all entries are within their limit.
fn check_few(facts: &EntryFacts) -> Result<(), Refusal>
    ensures { Checks (entries_total facts.now.content ≤ MOST_ENTRIES) result }
{
    let own = facts.entries().len();
    if own > MOST_ENTRIES {
        return Err(Refusal::NotARegister);
    }
    check_few_of_peers(facts.peers(), MOST_ENTRIES - own)
}

// Whether the entries of peers are within a limit.
fn check_few_of_peers(peers: &[HeldPeer], most: usize) -> Result<(), Refusal>
    ensures { Checks (entries_of_peers peers.now ≤ most) result }
{
    let mut left = most;
    'peers: for peer in peers {
        let entries = peer.content.entries().len();
        if entries > left {
            return Err(Refusal::NotARegister);
        }
        left -= entries;
    }
    Ok(())
}

// Whether peers are sound, and within their limit.
fn check_peers(alloc: Global, peers: &[HeldPeer], next: u64) -> Result<(), Refusal>
    requires { IsByKey (slice_cmp nat_cmp) peer_name peers.now }
    ensures { Checks (ArePeers peers.now next) result }
{
    if peers.len() > MOST_PEERS {
        return Err(Refusal::NotARegister);
    }
    check_each_peer(alloc, peers, next)
}

// Whether publisher records are within their limit.
fn check_publishers(facts: &EntryFacts) -> Result<(), Refusal>
    ensures { Checks (ArePublishers facts.now.content.publishers) result }
{
    stand_in_order(facts.publishers());
    if facts.records_total() > MOST_PUBLISHERS {
        return Err(Refusal::NotARegister);
    }
    Ok(())
}

// The records of each package are in order. Does nothing.
fn stand_in_order(packages: &[PackagePublishers])
    ensures { All (λ held. IsInOrder held.publishers) packages.now }
{
    'packages: for held in packages {
        let _ = held.publishers.as_slice();
    }
}

// Whether the entry of each finished review has a number below the next one.
fn have_entries_given(reviews: &[Review], next: u64) -> bool
    ensures { IsTrue result ↔ HaveEntriesGiven next reviews.now }
{
    'reviews: for review in reviews {
        if !is_entry_given(&review.state, next) {
            return false;
        }
    }
    true
}

// Whether the entry of a review, if that is finished, has a number below the next one.
fn is_entry_given(state: &ReviewState, next: u64) -> bool
    ensures { IsTrue result ↔ IsEntryGiven next state.now }
{
    match state {
        ReviewState::Finished(entry) => *entry < next,
        _ => true,
    }
}
