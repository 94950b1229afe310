//! Dependency tables: what their records state, one after another.
ghost use Rattle.std.specs.Prelude.{◌≡◌, OnOk};
ghost use Rattle.std.specs.Option.{option_copied};
ghost use Rattle.std.specs.BTreeSet.{insert_key};
ghost use Rattle.vet_base.specs.Gives.{Gives};
ghost use Rattle.vet_demand.specs.DependencyRecord.{numbered_cmp};
ghost use Rattle.vet_demand.specs.DependencyTable.{double_told, edge_told, is_stated, is_third, node_told};
ghost use Rattle.vet_demand.specs.DependencyTable.{nothing_stated, record_told, with_edge, with_record};
ghost use Rattle.vet_demand.specs.Project.{edge_cmp};

use crate::dependency_record::{DependencyRecord, NumberedNode, StatedEdge};
use crate::project::{Edge, Party};
use std::alloc::Global;
use std::collections::BTreeSet;
use std::marker::Model;
use vet_base::limits::{MOST_EDGES, MOST_NODES};
use vet_base::refusal::{Limit, Refusal};

/// The nodes and edges that the records of a dependency table state, as far as they were read.
#[derive(Drop)]
pub(crate) struct DependencyTable {
    pub nodes: BTreeSet<NumberedNode>,
    pub edges: Vec<StatedEdge>,
    // The same edges, for lookups.
    known: BTreeSet<Edge>,
}

impl Model for DependencyTable {
    ghost use Rattle.vet_demand.specs.DependencyIndex.{IsTable, Knows};
    ghost use Rattle.vet_demand.specs.DependencyTable.{StatedValue};

    ghost Value = { StatedValue };

    ghost view = { λ t. record { nodes = t.nodes.keys; edges = t.edges.items } };

    ghost invariant = { λ t. IsTable t.nodes.keys t.edges.items × Knows t.edges.items t.known.keys };
}

impl DependencyTable {
    /// A table with no record read yet.
    pub(crate) fn new(alloc: Global) -> DependencyTable
        ensures { result ≡ nothing_stated }
    {
        DependencyTable {
            nodes: BTreeSet::new(alloc),
            edges: Vec::new(alloc),
            known: BTreeSet::new(alloc),
        }
    }

    /// Adds what the record of this number states. Refused: the fault of the record, and `NoMemory`.
    pub(crate) fn take(&mut self, number: u64, found: DependencyRecord) -> Result<(), Refusal>
        ensures told { Gives (λ _. tt) (record_told number self.old found) result }
        ensures taken { OnOk result (self.new ≡ with_record self.old found) }
    {
        match found {
            DependencyRecord::NodeRecord(node) => self.take_node(number, node),
            DependencyRecord::EdgeRecord(edge) => self.take_edge(edge),
        }
    }

    fn take_node(&mut self, number: u64, node: NumberedNode) -> Result<(), Refusal>
        ensures told { Gives (λ _. tt) (node_told number self.old.nodes node) result }
        ensures taken { OnOk result (self.new ≡ record {
          nodes = insert_key numbered_cmp self.old.nodes node;
          edges = self.old.edges;
        }) }
    {
        self.judge_node(number, &node)?;
        self.nodes.insert(node)?;
        Ok(())
    }

    fn judge_node(&self, number: u64, node: &NumberedNode) -> Result<(), Refusal>
        ensures { result ≡ node_told number self.now.nodes node.now }
    {
        if node.number != self.nodes.len() {
            return Err(Refusal::CsvRefused(number));
        }
        judge_double(number, node.node.party, self.nodes.get(node))?;
        if MOST_NODES <= self.nodes.len() {
            return Err(Refusal::TooLarge(Limit::Nodes));
        }
        Ok(())
    }

    fn take_edge(&mut self, edge: StatedEdge) -> Result<(), Refusal>
        ensures told { Gives (λ _. tt) (edge_told self.old.edges edge) result }
        ensures taken { OnOk result (self.new ≡ record {
          nodes = self.old.nodes;
          edges = with_edge self.old.edges edge;
        }) }
    {
        if self.known.contains(&edge.edge) {
            return Ok(());
        }
        if MOST_EDGES <= self.edges.len() {
            return Err(Refusal::TooLarge(Limit::Edges));
        }
        self.edges.reserve(1)?;
        self.known.insert(edge.edge)?;
        self.edges.push_reserved(edge);
        Ok(())
    }
}

// Refuses a node that an earlier record gave.
fn judge_double(number: u64, party: Party, before: Option<&NumberedNode>) -> Result<(), Refusal>
    ensures { result ≡ double_told number party (option_copied before.entry) }
{
    let Some(before) = before else {
        return Ok(());
    };
    if is_third(before.node.party) == is_third(party) {
        Err(Refusal::CsvRefused(number))
    } else {
        Err(Refusal::TwoParties(number))
    }
}

fn is_third(party: Party) -> bool
    ensures { result ≡ is_third party }
{
    match party {
        Party::Root | Party::First => false,
        Party::Third => true,
    }
}
