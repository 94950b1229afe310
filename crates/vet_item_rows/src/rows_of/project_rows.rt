//! The rows of projects.
ghost use Rattle.std.specs.Prelude.{◌≡◌, ◌++◌, IfOk, OnOk, length, pos};
ghost use Rattle.std.specs.List.{flat_map};
ghost use Rattle.vet_demand.specs.Project.{IsWithin, kind_place, party_place};
ghost use Rattle.vet_item_rows.specs.ProjectRows.{edge_row, edge_rows, node_row, node_rows};

use crate::rows_of::columns::version_column;
use std::alloc::{AllocError, Global};
use vet_base::name::PackageName;
use vet_demand::project::{Edge, EdgeKind, NamedProject, Node, Party};
use vet_tables::cell::Cell;
use vet_tables::sequence::{Row, Sequence};

/// The row of a node of a project. Fails only if memory runs out.
pub fn node_row(alloc: Global, project: &PackageName, node: &Node) -> Result<Row, AllocError>
    ensures { IfOk result (λ row. row ≡ node_row project.now node.now) }
{
    let cells = vec![in alloc;
        Cell::text(alloc, project.as_str())?,
        Cell::text(alloc, node.package.as_str())?,
        Cell::Text(version_column(alloc, &node.version)?),
        Cell::Int(party_number(node.party)),
    ]?;
    Ok(Sequence::of(cells))
}

/// The row of an edge of a project with these nodes. Asks that the edge is between two of them. Fails only if memory
/// runs out.
pub fn edge_row(
    alloc: Global,
    project: &PackageName,
    nodes: &[Node],
    edge: Edge,
) -> Result<Row, AllocError>
    requires { IsWithin (length nodes.now) edge }
    ensures { IfOk result (λ row. row ≡ edge_row project.now nodes.now edge) }
{
    let from = &nodes[edge.from];
    let to = &nodes[edge.to];
    let cells = vec![in alloc;
        Cell::text(alloc, project.as_str())?,
        Cell::text(alloc, from.package.as_str())?,
        Cell::Text(version_column(alloc, &from.version)?),
        Cell::text(alloc, to.package.as_str())?,
        Cell::Text(version_column(alloc, &to.version)?),
        Cell::Int(kind_number(edge.kind)),
    ]?;
    Ok(Sequence::of(cells))
}

// The number of a party, 0 to 2.
fn party_number(party: Party) -> i64
    ensures { result ≡ pos (party_place party) }
{
    match party {
        Party::Root => 0,
        Party::First => 1,
        Party::Third => 2,
    }
}

// The number of a kind of edges, 0 to 2.
fn kind_number(kind: EdgeKind) -> i64
    ensures { result ≡ pos (kind_place kind) }
{
    match kind {
        EdgeKind::Normal => 0,
        EdgeKind::Build => 1,
        EdgeKind::Dev => 2,
    }
}

/// The rows of the nodes of some projects. Fails only if memory runs out.
pub fn all_nodes(alloc: Global, projects: &[NamedProject]) -> Result<Vec<Row>, AllocError>
    ensures { IfOk result (λ rows. rows.items ≡ flat_map node_rows projects.now) }
{
    let mut rows = Vec::new(alloc);
    'projects: for named in projects {
        push_nodes(alloc, &mut rows, named)?;
    }
    Ok(rows)
}

/// Adds the rows of a project's nodes after those of others. Fails only if memory runs out.
pub fn push_nodes(
    alloc: Global,
    rows: &mut Vec<Row>,
    named: &NamedProject,
) -> Result<(), AllocError>
    ensures { OnOk result (rows.new.items ≡ rows.old.items ++ node_rows named.now) }
{
    'nodes: for node in named.project.nodes() {
        rows.push(node_row(alloc, &named.name, node)?)?;
    }
    Ok(())
}

/// The rows of the edges of some projects. Fails only if memory runs out.
pub fn all_edges(alloc: Global, projects: &[NamedProject]) -> Result<Vec<Row>, AllocError>
    ensures { IfOk result (λ rows. rows.items ≡ flat_map edge_rows projects.now) }
{
    let mut rows = Vec::new(alloc);
    'projects: for named in projects {
        push_edges(alloc, &mut rows, named)?;
    }
    Ok(rows)
}

/// Adds the rows of a project's edges after those of others. Fails only if memory runs out.
pub fn push_edges(
    alloc: Global,
    rows: &mut Vec<Row>,
    named: &NamedProject,
) -> Result<(), AllocError>
    ensures { OnOk result (rows.new.items ≡ rows.old.items ++ edge_rows named.now) }
{
    let nodes = named.project.nodes();
    'edges: for edge in named.project.edges() {
        rows.push(edge_row(alloc, &named.name, nodes, *edge)?)?;
    }
    Ok(())
}
