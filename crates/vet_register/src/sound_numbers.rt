//! Whether the numbers of entries are apart.
//!
//! **They are apart exactly if no number occurs in two sources.**
//!
//! Within a source numbers increase. So they are apart exactly if no number occurs twice among those of all sources.
ghost use Rattle.std.specs.List.{All, AllPairs};
ghost use Rattle.std.specs.Prelude.{◌≡◌, ◌≢◌, ◌↔◌, ◌++◌, IfOk, IsTrue, OnOk};
ghost use Rattle.vet_register.specs.Checks.{Checks};
ghost use Rattle.vet_register.specs.Numbers.{numbers_of, peers_numbers};
ghost use Rattle.vet_register.specs.Sound.{AreApart, IsSoundPeer};

use std::alloc::{AllocError, Global};
use std::collections::HashSet;
use vet_base::refusal::Refusal;
use vet_entries::facts::{EntryFacts, HeldEntry};
use vet_entries::held_peer::HeldPeer;

/// Whether no number occurs in two sources. Asks that peers are sound. Costs one look-up by a hash for each entry.
/// Refused: `NotARegister` if one does; `NoMemory`.
pub(crate) fn check_apart(alloc: Global, facts: &EntryFacts, next: u64) -> Result<(), Refusal>
    requires { All (IsSoundPeer next) facts.now.content.peers }
    ensures { Checks (AreApart facts.now.content) result }
{
    let mut numbers = Vec::new(alloc);
    add_numbers(&mut numbers, facts.entries())?;
    add_peers(&mut numbers, facts.peers())?;
    if !stand_once(alloc, numbers.as_slice())? {
        return Err(Refusal::NotARegister);
    }
    Ok(())
}

// Adds the numbers of the entries of some peers.
fn add_peers(numbers: &mut Vec<u64>, peers: &[HeldPeer]) -> Result<(), AllocError>
    ensures { OnOk result (numbers.new.items ≡ numbers.old.items ++ peers_numbers peers.now) }
{
    'peers: for peer in peers {
        add_numbers(numbers, peer.content.entries())?;
    }
    Ok(())
}

// Adds the numbers of some entries.
fn add_numbers(numbers: &mut Vec<u64>, entries: &[HeldEntry]) -> Result<(), AllocError>
    ensures { OnOk result (numbers.new.items ≡ numbers.old.items ++ numbers_of entries.now) }
{
    'entries: for held in entries {
        numbers.push(held.number)?;
    }
    Ok(())
}

// Whether no number occurs twice.
fn stand_once(alloc: Global, numbers: &[u64]) -> Result<bool, AllocError>
    ensures { IfOk result (λ once. IsTrue once ↔ AllPairs (λ m n. m ≢ n) numbers.now) }
{
    let different: HashSet<u64> = numbers.iter().copied().collect(alloc)?;
    Ok(different.len() == numbers.len())
}
