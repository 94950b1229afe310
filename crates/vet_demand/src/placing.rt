//! The project that a dependency table states: each node at its place, and edges between places.
ghost use Rattle.std.specs.Prelude.{◌≡◌, ◌≢◌, IfOk, OnOk, map};
ghost use Rattle.std.specs.BTreeMap.{get};
ghost use Rattle.std.specs.List.{AllPairs};
ghost use Rattle.std.specs.List.Sorted.{IsStrictlySortedBy};
ghost use Rattle.std.specs.Ordering.{nat_cmp};
ghost use Rattle.vet_base.specs.Gives.{Gives};
ghost use Rattle.vet_demand.specs.DependencyRecord.{numbered_cmp};
ghost use Rattle.vet_demand.specs.DependencyTable.{edges_told, place_of, placed, stated_told};
ghost use Rattle.vet_demand.specs.Project.{edge_cmp};

use crate::dependency_record::{NumberedNode, StatedEdge};
use crate::dependency_table::DependencyTable;
use crate::project::{Edge, Node, Project};
use std::alloc::{AllocError, Global};
use std::collections::{BTreeMap, BTreeSet};
use vet_base::refusal::Refusal;

// The nodes of a project, and the place of each by its number.
#[derive(Drop)]
struct PlacedNodes {
    nodes: Vec<Node>,
    places: BTreeMap<usize, usize>,
}

/// The project that a table states. Refused: `CsvRefused` at 2 if it states no node; `UnknownNode` at the first record
/// whose edge names a number that no node has; and `NoMemory`.
pub(crate) fn project_of(alloc: Global, table: DependencyTable) -> Result<Project, Refusal>
    ensures { Gives (λ p. p) (stated_told table) result }
{
    let DependencyTable { nodes, edges, .. } = table;
    if nodes.is_empty() {
        return Err(Refusal::CsvRefused(2));
    }
    let placed = placed_nodes(alloc, nodes)?;
    let edges = placed_edges(alloc, &placed.places, edges.as_slice())?;
    Ok(Project::of(placed.nodes, edges))
}

fn placed_nodes(alloc: Global, nodes: BTreeSet<NumberedNode>) -> Result<PlacedNodes, AllocError>
    requires { AllPairs (λ a b. a.number ≢ b.number) nodes.keys }
    ensures nodes { IfOk result (λ placed. placed.nodes.items ≡ map (λ n. n.node) nodes.keys) }
    ensures places { IfOk result (λ placed. get nat_cmp placed.places ≡ place_of nodes.keys) }
    ensures ordered { OnOk result (IsStrictlySortedBy numbered_cmp nodes.keys) }
{
    let mut placed = PlacedNodes {
        nodes: Vec::new(alloc),
        places: BTreeMap::new(alloc),
    };
    'nodes: for numbered in nodes {
        let place = placed.nodes.len();
        placed.places.insert(numbered.number, place)?;
        placed.nodes.push(numbered.node)?;
    }
    Ok(placed)
}

fn placed_edges(
    alloc: Global,
    places: &BTreeMap<usize, usize>,
    edges: &[StatedEdge],
) -> Result<Vec<Edge>, Refusal>
    ensures ordered { IfOk result (λ v. IsStrictlySortedBy edge_cmp v.items) }
    ensures told { Gives (λ v. v.items) (edges_told (get nat_cmp places.now) edges.now) result }
{
    let mut between = BTreeSet::new(alloc);
    'edges: for stated in edges {
        let Some(edge) = placed(places, stated.edge) else {
            return Err(Refusal::UnknownNode(stated.record_number));
        };
        between.insert(edge)?;
    }
    let list = edge_list(alloc, between)?;
    Ok(list)
}

// The edge between the places of the two nodes that it names, if both exist.
fn placed(places: &BTreeMap<usize, usize>, edge: Edge) -> Option<Edge>
    ensures { result ≡ placed (get nat_cmp places.now) edge }
{
    let from = places.get(&edge.from).copied()?;
    let to = places.get(&edge.to).copied()?;
    Some(Edge {
        from,
        to,
        kind: edge.kind,
    })
}

fn edge_list(alloc: Global, edges: BTreeSet<Edge>) -> Result<Vec<Edge>, AllocError>
    ensures value { IfOk result (λ list. list.items ≡ edges.keys) }
    ensures ordered { OnOk result (IsStrictlySortedBy edge_cmp edges.keys) }
{
    let mut list = Vec::new(alloc);
    'edges: for edge in edges {
        list.push(edge)?;
    }
    Ok(list)
}
