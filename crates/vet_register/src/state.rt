//! The state of a machine, as a value made of its parts.
//!
//! **The value is the state that its parts give, whatever room they have.**
//!
//! A caller that keeps a register elsewhere makes such a value from what was kept, and restores the register from it
//! (`Register::restore`).
ghost use Rattle.std.specs.Prelude.{◌≡◌};
ghost use Rattle.vet_register.specs.RegisterView.{HasKept};
ghost use Rattle.vet_register.specs.Sound.{IsSound};

use crate::flow::arrivals;
use crate::held::Held;
use crate::moves::RecordedMove;
use crate::register::Register;
use crate::tool_settings::ToolSettings;
use std::marker::Model;
use vet_base::keyed::Keyed;
use vet_demand::demand::Demand;
use vet_demand::policies::KeyedPolicy;
use vet_demand::project::NamedProject;
use vet_desk::desk::Desk;
use vet_entries::facts::EntryFacts;
use vet_graph::keeper::Keeper;
use vet_graph::standing::Counts;

/// All that a machine holds. It needn't be sound.
pub struct State {
    /// The facts of packages.
    pub facts: EntryFacts,
    pub policies: Keyed<KeyedPolicy>,
    pub projects: Keyed<NamedProject>,
    /// The settings of a config file that are for the tool only.
    pub settings: ToolSettings,
    pub desk: Desk,
    /// The number of commands that were accepted.
    pub step: u64,
    /// The number of the next entry.
    pub next_entry: u64,
    pub moves_limit: usize,
    /// The number of pairs that were in each class when the period began.
    pub first: Counts,
    /// The moves recorded since then.
    pub moves: Vec<RecordedMove>,
}

impl Model for State {
    ghost use Rattle.vet_register.specs.State as state;
    ghost use Rattle.vet_register.specs.StateEncodings.{state_code};
    ghost use Rattle.vet_entries.specs.FactsEncodings.{facts_room_code};
    ghost use Rattle.vet_entries.specs.contracts.facts.HeldEntry as entry;
    ghost use Rattle.vet_entries.specs.contracts.held_peer.HeldPeer as peer;
    ghost use Rattle.vet_entries.specs.contracts.publisher_records.PackagePublishers as listed;
    ghost use Rattle.vet_demand.specs.contracts.policies.KeyedPolicy as policy;
    ghost use Rattle.vet_demand.specs.contracts.project.NamedProject as project;
    ghost use Rattle.vet_desk.specs.Encodings.{desk_code};
    ghost use Rattle.vet_desk.specs.contracts.review.Review as review;
    ghost use Rattle.vet_graph.specs.contracts.standing.Counts as counts;
    ghost use Rattle.vet_register.specs.contracts.tool_settings.ToolSettings as tool;
    ghost use Rattle.vet_register.specs.contracts.moves.RecordedMove as recorded;

    ghost Value = { state.State };

    ghost coded = { state_code
        (facts_room_code entry.the_row.coded peer.the_row.coded listed.the_row.coded)
        policy.the_row.coded project.the_row.coded tool.the_row.coded (desk_code review.the_row.coded)
        counts.the_row.coded recorded.the_row.coded };

    ghost view = { λ s. record {
      held = record {
        facts = s.facts.content;
        policies = s.policies.items;
        projects = s.projects.items;
        settings = s.settings;
      };
      desk = s.desk.content;
      step = s.step;
      next_entry = s.next_entry;
      moves_limit = s.moves_limit;
      first = s.first;
      moves = s.moves.items;
    } };
}

impl Drop for State {
    fn drop(self) {
        let State {
            facts: _,
            policies: _,
            projects: _,
            settings: _,
            desk: _,
            step: _,
            next_entry: _,
            moves_limit: _,
            first: _,
            moves: _,
        } = self;
    }
}

impl State {
    /// The register of the state, with its demand and a keeper of its standing. Takes no memory.
    pub(crate) fn into_register<K: Keeper>(self, demand: Demand, keeper: K) -> Register<K>
        requires sound { IsSound self }
        requires kept { HasKept K.keeping keeper demand self.held }
        ensures { result.state ≡ self }
    {
        let State {
            facts,
            policies,
            projects,
            settings,
            desk,
            step,
            next_entry,
            moves_limit,
            first,
            moves,
        } = self;
        let arrived = arrivals(moves.as_slice());
        Register {
            held: Held {
                facts,
                policies,
                projects,
                settings,
            },
            desk,
            demand,
            keeper,
            step,
            next_entry,
            moves_limit,
            first,
            moves,
            arrived,
        }
    }
}
