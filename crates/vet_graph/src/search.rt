//! The versions to which chains lead, by a worklist.
//!
//! A chain is a list of steps. The first starts from nothing, each later one starts where the one before it arrived,
//! and no version is arrived at twice (`specs/Chain.antt`). There can be very many chains, so the code does not list
//! them. It keeps a list of the versions reached so far, takes one after the other from it, and adds each version to
//! which an open step leads from there and that is not in the list yet. A step is open if it vouches for the criterion,
//! is not skipped, and, if condemned versions are barred, leads to none. The list is only the way to the answer, and
//! not its meaning: each contract speaks only of chains.
//!
//! **A version is in the answer exactly if a chain of open steps leads to it.**
//!
//! Why each version in the list has a chain. It was added once, by one step, and that step starts from nothing or
//! at a version that was in the list already. So its chain can be followed back to nothing, from step to step. Each
//! of these leads back to a version that was added earlier, so none comes twice. In other words, at any time each
//! version in the list has a chain *all of whose versions are in the list*. A version that is to be added is not in
//! the list, so it is on none of these chains, and such a chain with one more step to it arrives at no version twice.
//! No cycle has to be cut out of anything. A delta from a version to itself is a step to a version that is in the list
//! already, so it adds nothing.
//!
//! Why each version with a chain is in the list. When the worklist has come to its end, each open step that
//! starts from nothing, or at a version in the list, leads to a version in the list. Take the steps of a chain of
//! open steps one after the other. The first starts from nothing, so it leads into the list; the second starts
//! there, so it does too; and so on to the last. The same is true of any walk, even if it comes to a version twice.
//! So a walk leads only to versions to which a chain leads.
//!
//! Three of the four questions of a class are one search each. Is there a chain at all? Nothing is skipped, and the
//! search passes through condemned versions. Is there a clean chain? Nothing is skipped, and condemned versions are
//! closed: they are not reached, and nothing goes on from them. Is there a clean chain of reviews only? Condemned
//! versions are closed, and exempt steps are skipped.
//!
//! Why the fourth needs a search of its own. Partial at a version v asks for a clean chain whose *last* step is
//! a review. It is not enough that v is reached and that some review arrives at v from a version that is
//! reached: that version may itself be reached only through v. Suppose there are an exemption of v, a delta from v to
//! w, and one from w back to v. Then there is such a walk, but it arrives at v twice, and the only chain to v is the
//! exemption. A chain to v arrives at v once, with its last step. So none of the steps before it leads to v,
//! and the exempt steps to v are of no use to it: not as the last step, which is a review, and not before. All
//! other exempt steps may be of use, earlier in the chain. So v is partly vetted exactly if a search that skips
//! the exempt steps to v, and only these, reaches it.
//!
//! Cost. The index (`links`) is built once for a package. It gives each version a number, the place of its head, which
//! is the first step that leads to it, and files each step under the head of the version at which it starts. So the
//! steps from a version in the list are at hand, and one look at a mark shows whether a version is in the list. Each
//! version is taken from the list once, so a search looks at each step at most once. A package of s steps costs the
//! order of s log s for the index, and of s for each search.
ghost use Rattle.std.specs.Prelude.{◌≡◌, ◌≢◌, ◌<◌, ◌↔◌, IsTrue, IfOk, IfErr, false, length, replicate, take};
ghost use Rattle.std.specs.List.{All, AllPairs, Contains};
ghost use Rattle.vet_base.specs.Version.{VersionValue};
ghost use Rattle.vet_graph.specs.Links.{IsLinked};
ghost use Rattle.vet_graph.specs.Search.{IsReached, is_open, versions_at};
ghost use Rattle.vet_graph.specs.Reaching.{IsReaching, LeadsOn, StandsBefore};

use crate::guarded::GuardedStep;
use crate::links::{LinkedSteps, Links};
use crate::skip::{Skip, may_take};
use std::alloc::Global;
use vet_base::refusal::Refusal;
use vet_base::version::VetVersion;

/// The terms of a search: the conditions on the steps of a chain.
#[derive(Clone, Copy)]
pub struct Terms<'v> {
    /// The place of the criterion for which each step vouches.
    pub place: usize,
    /// Whether steps to versions that are condemned for it are barred.
    pub barred: bool,
    /// The steps that are skipped.
    pub skip: Skip<'v>,
}

fn is_open(terms: &Terms<'_>, guarded: &GuardedStep) -> bool
    ensures { result ≡ is_open terms.now guarded.now }
{
    guarded.step.criteria.has(terms.place)
        && !(terms.barred && guarded.condemned.has(terms.place))
        && may_take(&terms.skip, &guarded.step)
}

/// Whether a version is among those to which the steps at some places lead.
pub fn leads_to(steps: &[GuardedStep], places: &[usize], version: &VetVersion) -> bool
    requires { All (λ p. p < length steps.now) places.now }
    ensures { IsTrue result ↔ Contains (versions_at steps.now places.now) version.now }
{
    'places: for place in places {
        if steps[*place].step.target == *version {
            return true;
        }
    }
    false
}

/// The versions to which a chain leads on these terms: for each, once, the place of a step to it. Looks at
/// each step at most once. Refused: `NoMemory`.
pub fn search(alloc: Global, linked: &LinkedSteps, terms: &Terms<'_>) -> Result<Vec<usize>, Refusal>
    ensures within { IfOk result (λ reached. All (λ p. p < length linked.now) reached.items) }
    ensures reached { IfOk result (λ reached. (v : VersionValue)
        → Contains (versions_at linked.now reached.items) v ↔ IsReached linked.now terms.now v) }
    ensures once { IfOk result (λ reached. AllPairs (λ v w. v ≢ w) (versions_at linked.now reached.items)) }
    ensures memory { IfErr result (λ e. e ≡ Refusal.NoMemory) }
{
    reach(alloc, linked.steps(), linked.links(), terms)
}

// The heads of the versions reached so far, in the order in which they were reached, and for each place whether it is
// one of them.
#[derive(Drop)]
struct Reached {
    places: Vec<usize>,
    seen: Vec<bool>,
}

fn reach(
    alloc: Global,
    steps: &[GuardedStep],
    links: &Links,
    terms: &Terms<'_>,
) -> Result<Vec<usize>, Refusal>
    requires { IsLinked steps.now links.now }
    ensures within { IfOk result (λ reached. All (λ p. p < length steps.now) reached.items) }
    ensures reached { IfOk result (λ reached. (v : VersionValue)
        → Contains (versions_at steps.now reached.items) v ↔ IsReached steps.now terms.now v) }
    ensures once { IfOk result (λ reached. AllPairs (λ v w. v ≢ w) (versions_at steps.now reached.items)) }
    ensures memory { IfErr result (λ e. e ≡ Refusal.NoMemory) }
{
    let mut reached = Reached {
        places: Vec::new(alloc),
        seen: unseen(alloc, steps.len())?,
    };
    extend_by(steps, links, terms, links.first.as_slice(), &mut reached)?;
    let mut next = 0;
    'versions: while next < reached.places.len() {
        let from = reached.places[next];
        let places = links.after[from].as_slice();
        extend_by(steps, links, terms, places, &mut reached)?;
        next += 1;
    }
    Ok(reached.places)
}

fn unseen(alloc: Global, count: usize) -> Result<Vec<bool>, Refusal>
    ensures ok { IfOk result (λ seen. seen.items ≡ replicate count false) }
    ensures memory { IfErr result (λ e. e ≡ Refusal.NoMemory) }
{
    Ok(vec![in alloc; false; count]?)
}

// Adds the versions to which the open steps at some places lead.
fn extend_by(
    steps: &[GuardedStep],
    links: &Links,
    terms: &Terms<'_>,
    places: &[usize],
    reached: &mut Reached,
) -> Result<(), Refusal>
    requires linked { IsLinked steps.now links.now }
    requires within { All (λ p. p < length steps.now) places.now }
    requires stands { All (StandsBefore steps.now reached.old.places.items) places.now }
    requires reaching { IsReaching steps.now links.now terms.now reached.old.places.items reached.old.seen.items }
    ensures reaching { IfOk result (λ _.
        IsReaching steps.now links.now terms.now reached.new.places.items reached.new.seen.items) }
    ensures kept { IfOk result (λ _.
        take (length reached.old.places.items) reached.new.places.items ≡ reached.old.places.items) }
    ensures taken { IfOk result (λ _. All (LeadsOn steps.now terms.now reached.new.places.items) places.now) }
    ensures memory { IfErr result (λ e. e ≡ Refusal.NoMemory) }
{
    'places: for place in places {
        take_step(steps, links, terms, *place, reached)?;
    }
    Ok(())
}

// Adds the version to which a step leads, if the step is open and the version is not reached yet.
fn take_step(
    steps: &[GuardedStep],
    links: &Links,
    terms: &Terms<'_>,
    place: usize,
    reached: &mut Reached,
) -> Result<(), Refusal>
    requires linked { IsLinked steps.now links.now }
    requires place { place < length steps.now }
    requires stands { StandsBefore steps.now reached.old.places.items place }
    requires reaching { IsReaching steps.now links.now terms.now reached.old.places.items reached.old.seen.items }
    ensures reaching { IfOk result (λ _.
        IsReaching steps.now links.now terms.now reached.new.places.items reached.new.seen.items) }
    ensures kept { IfOk result (λ _.
        take (length reached.old.places.items) reached.new.places.items ≡ reached.old.places.items) }
    ensures taken { IfOk result (λ _. LeadsOn steps.now terms.now reached.new.places.items place) }
    ensures memory { IfErr result (λ e. e ≡ Refusal.NoMemory) }
{
    if !is_open(terms, &steps[place]) {
        return Ok(());
    }
    let head = links.heads[place];
    if reached.seen[head] {
        return Ok(());
    }
    reached.places.push(head)?;
    reached.seen[head] = true;
    Ok(())
}
