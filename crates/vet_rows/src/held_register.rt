//! The state of a register can be held.
//!
//! **Each name, version, text and day in a register's state reads back from its own bytes**, in every entry, peer,
//! policy, project, review and move.
//!
//! The types of these values ensure it. So the functions here only look at each thing that is held, down to the names
//! in it. They take no memory and change nothing. A contract that speaks of states that can be held (`IsHeldState`),
//! such as that of `state_of`, therefore applies to the state of each register.
ghost use Rattle.vet_item_rows.specs.ReadHeld.{AreFactsValues};
ghost use Rattle.vet_rows.specs.HeldState.{IsHeldState};

mod can_be_held;
mod demand;
mod desk;
mod entries;
mod peers;
mod values;

use crate::held_register::can_be_held::{CanBeHeld, are_held};
use crate::held_register::peers::table_is_held;
use vet_entries::facts::EntryFacts;
use vet_graph::keeper::Keeper;
use vet_register::register::Register;

/// The state of a register can be held. Only looks at each thing in it.
pub fn register_is_held<K: Keeper>(register: &Register<K>)
    ensures { IsHeldState register.now.state }
{
    facts_are_held(register.facts());
    are_held(register.policies());
    are_held(register.projects());
    register.settings().is_held();
    are_held(register.desk().members());
    are_held(register.desk().reviews());
    are_held(register.moves());
}

// The facts of packages can be held. Only looks at each thing in them.
fn facts_are_held(facts: &EntryFacts)
    ensures { AreFactsValues facts.now.content }
{
    table_is_held(facts.criteria());
    are_held(facts.entries());
    are_held(facts.peers());
    are_held(facts.publishers());
    let day = facts.today();
    day.is_held();
}
