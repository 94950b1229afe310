//! Reading projects from the rows of nodes and edges.
//!
//! Nodes and edges are filed under the names of their projects. Within a project the nodes are put in order, so that a
//! binary search finds the place of each end of an edge.
ghost use Rattle.std.specs.Cmp.Lexicographic.{slice_cmp};
ghost use Rattle.std.specs.List.{All, flat_map, slice_get};
ghost use Rattle.std.specs.Ordering.{nat_cmp};
ghost use Rattle.std.specs.Prelude.{◌≡◌, ◌<◌, ◌+◌, ℕ, List, [], IfErr, IfOk, MatchResult, Ok, Some, length, map, pos};
ghost use Rattle.vet_base.specs.Items.{SameItems};
ghost use Rattle.vet_base.specs.Keyed.{IsByKey, all_set};
ghost use Rattle.vet_base.specs.Version.{version_text};
ghost use Rattle.vet_base.specs.Words.{Name};
ghost use Rattle.vet_demand.specs.NamedProject.{project_name};
ghost use Rattle.vet_demand.specs.Needs.{node_at};
ghost use Rattle.vet_demand.specs.Project.{AreInNodeOrder, IsProject, kind_place, party_place};
ghost use Rattle.vet_demand.specs.declared.project.Edge.{Edge as EdgeValue};
ghost use Rattle.vet_demand.specs.declared.project.EdgeKind.{EdgeKind as KindValue};
ghost use Rattle.vet_demand.specs.declared.project.NamedProject.{NamedProject as ProjectValue};
ghost use Rattle.vet_demand.specs.declared.project.Node.{Node as NodeValue};
ghost use Rattle.vet_demand.specs.declared.project.Party.{Party as PartyValue};
ghost use Rattle.vet_item_rows.specs.HeldValues.{IsNamedProject};
ghost use Rattle.vet_item_rows.specs.ProjectRows.{edge_rows, node_rows};
ghost use Rattle.vet_item_rows.specs.ReadBack.{EachStandsFor, IsReadBack, IsWritten, Reads};
ghost use Rattle.vet_item_rows.specs.ReadProjects.{AreNodesAndEdgesOf, IsEdgeOf, IsEnd, IsFiledEnds, IsFiledNode};
ghost use Rattle.vet_item_rows.specs.ReadProjects.{TellsGathered, TellsProject, end_of, filed_ends_row, filed_node_row};
ghost use Rattle.vet_item_rows.specs.declared.read.gathered.WithKey.{WithKey as WithKeyValue};
ghost use Rattle.vet_item_rows.specs.declared.read.projects.End.{End as EndValue};
ghost use Rattle.vet_item_rows.specs.declared.read.projects.EdgeEnds.{EdgeEnds as EdgeEndsValue};
ghost use Rattle.vet_tables.specs.declared.cell.Cell.TheVariants.{Text};

use crate::read::columns::{package_name, version};
use crate::read::from_row::{FromRow, read_rows};
use crate::read::gathered::{Group, WithKey, gather};
use crate::read::read_error::{ReadError, found};
use std::alloc::{AllocError, Global};
use vet_base::keyed::Keyed;
use vet_base::name::PackageName;
use vet_base::ranked::rank;
use vet_base::version::VetVersion;
use vet_demand::project::{Edge, EdgeKind, NamedProject, Node, Party, Project};
use vet_tables::cell::Cell;
use vet_tables::sequence::Row;

/// A version of a package, as an end of an edge.
pub(crate) struct End {
    pub(crate) package: PackageName,
    pub(crate) version: VetVersion,
}

impl Drop for End {
    fn drop(self) {
        let End {
            package: _,
            version: _,
        } = self;
    }
}

/// An edge, by its ends.
pub(crate) struct EdgeEnds {
    pub(crate) from: End,
    pub(crate) to: End,
    pub(crate) kind: EdgeKind,
}

impl Drop for EdgeEnds {
    fn drop(self) {
        let EdgeEnds {
            from: _,
            to: _,
            kind: _,
        } = self;
    }
}

impl FromRow for WithKey<PackageName, Node> {
    ghost stands_for = { IsWritten IsFiledNode filed_node_row };

    fn from_row(alloc: Global, row: &Row) -> Result<WithKey<PackageName, Node>, ReadError> {
        let [Cell::Text(project), ..] = row.as_slice() else {
            return Err(ReadError::NotARegister);
        };
        Ok(WithKey {
            key: package_name(alloc, project.as_str())?,
            item: node(alloc, row)?,
        })
    }
}

// The node of a row.
fn node(alloc: Global, row: &Row) -> Result<Node, ReadError>
    ensures { (f : WithKeyValue Name NodeValue) → IsWritten IsFiledNode filed_node_row row.now f → Reads result f.item }
{
    let [
        _,
        Cell::Text(package),
        Cell::Text(of_version),
        Cell::Int(of_party),
    ] = row.as_slice()
    else {
        return Err(ReadError::NotARegister);
    };
    Ok(Node {
        package: package_name(alloc, package.as_str())?,
        version: version(alloc, of_version.as_str())?,
        party: party(*of_party)?,
    })
}

impl FromRow for WithKey<PackageName, EdgeEnds> {
    ghost stands_for = { IsWritten IsFiledEnds filed_ends_row };

    fn from_row(alloc: Global, row: &Row) -> Result<WithKey<PackageName, EdgeEnds>, ReadError> {
        let [Cell::Text(project), ..] = row.as_slice() else {
            return Err(ReadError::NotARegister);
        };
        Ok(WithKey {
            key: package_name(alloc, project.as_str())?,
            item: edge_ends(alloc, row)?,
        })
    }
}

// The ends of the edge of a row.
fn edge_ends(alloc: Global, row: &Row) -> Result<EdgeEnds, ReadError>
    ensures { (f : WithKeyValue Name EdgeEndsValue) → IsWritten IsFiledEnds filed_ends_row row.now f
        → Reads result f.item }
{
    let [
        _,
        Cell::Text(from),
        Cell::Text(from_version),
        Cell::Text(to),
        Cell::Text(to_version),
        Cell::Int(of_kind),
    ] = row.as_slice()
    else {
        return Err(ReadError::NotARegister);
    };
    let kind = kind(*of_kind)?;
    Ok(EdgeEnds {
        from: read_end(alloc, from.as_str(), from_version.as_str())?,
        to: read_end(alloc, to.as_str(), to_version.as_str())?,
        kind,
    })
}

// A version of a package.
fn read_end(alloc: Global, of_package: &str, of_version: &str) -> Result<End, ReadError>
    ensures { (e : EndValue) → IsEnd e → of_package.now ≡ e.«package» → of_version.now ≡ version_text e.version
        → Reads result e }
{
    Ok(End {
        package: package_name(alloc, of_package)?,
        version: version(alloc, of_version)?,
    })
}

// The party of a node. Takes no memory.
fn party(column: i64) -> Result<Party, ReadError>
    ensures read { (p : PartyValue) → column ≡ pos (party_place p) → result ≡ Ok p }
    ensures only { IfOk result (λ p. column ≡ pos (party_place p)) }
    ensures refused { IfErr result (λ e. e ≡ ReadError.NotARegister) }
{
    match column {
        0 => Ok(Party::Root),
        1 => Ok(Party::First),
        2 => Ok(Party::Third),
        _ => Err(ReadError::NotARegister),
    }
}

// The kind of an edge. Takes no memory.
fn kind(column: i64) -> Result<EdgeKind, ReadError>
    ensures read { (k : KindValue) → column ≡ pos (kind_place k) → result ≡ Ok k }
    ensures only { IfOk result (λ k. column ≡ pos (kind_place k)) }
    ensures refused { IfErr result (λ e. e ≡ ReadError.NotARegister) }
{
    match column {
        0 => Ok(EdgeKind::Normal),
        1 => Ok(EdgeKind::Build),
        2 => Ok(EdgeKind::Dev),
        _ => Err(ReadError::NotARegister),
    }
}

/// The projects of these rows, in any order. Rows that are not those of projects give `NotARegister` or some projects,
/// and no clause says which. Takes a time of n log n. Refused: `NotARegister`, or `NoMemory`.
pub fn projects(
    alloc: Global,
    nodes: &[Row],
    edges: &[Row],
) -> Result<Keyed<NamedProject>, ReadError>
    ensures { (projects : List ProjectValue)
        → IsByKey (slice_cmp nat_cmp) project_name projects → All IsNamedProject projects
        → SameItems nodes.now (flat_map node_rows projects) → SameItems edges.now (flat_map edge_rows projects)
        → MatchResult result (λ k. k.items ≡ projects) (λ e. e ≡ ReadError.NoMemory) }
{
    let nodes = read_rows(alloc, nodes)?;
    projects_of(alloc, nodes, read_rows(alloc, edges)?)
}

// The projects of these nodes and edges.
fn projects_of(
    alloc: Global,
    nodes: Vec<WithKey<PackageName, Node>>,
    edges: Vec<WithKey<PackageName, EdgeEnds>>,
) -> Result<Keyed<NamedProject>, ReadError>
    ensures { (projects : List ProjectValue) → AreNodesAndEdgesOf nodes.items edges.items projects
        → MatchResult result (λ k. k.items ≡ projects) (λ e. e ≡ ReadError.NoMemory) }
{
    let names = names_of(alloc, nodes.as_slice())?;
    let with_nodes = gather(alloc, names.into_items(), nodes)?;
    let groups = gather(alloc, with_nodes, edges)?;
    let projects = projects_in(alloc, groups)?;
    Ok(Keyed::of(alloc, projects)?)
}

// The names of the projects of which there are nodes.
fn names_of(
    alloc: Global,
    nodes: &[WithKey<PackageName, Node>],
) -> Result<Keyed<PackageName>, AllocError>
    ensures { IfOk result (λ k. k.items ≡ all_set (slice_cmp nat_cmp) (λ n. n) [] (map (λ f. f.key) nodes.now)) }
{
    let mut names = Vec::new(alloc);
    'nodes: for node in nodes {
        names.push(node.key.clone()?)?;
    }
    Keyed::of(alloc, names)
}

// The projects of which these are the names, nodes and edges.
fn projects_in(
    alloc: Global,
    groups: Vec<Group<Group<PackageName, Node>, EdgeEnds>>,
) -> Result<Vec<NamedProject>, ReadError>
    ensures { (projects : List ProjectValue) → EachStandsFor TellsGathered groups.items projects
        → MatchResult result (λ v. v.items ≡ projects) (λ e. e ≡ ReadError.NoMemory) }
{
    let mut projects = Vec::new(alloc);
    'groups: for group in groups {
        projects.push(project_in(alloc, group)?)?;
    }
    Ok(projects)
}

// The project of which these are the name, nodes and edges.
fn project_in(
    alloc: Global,
    group: Group<Group<PackageName, Node>, EdgeEnds>,
) -> Result<NamedProject, ReadError>
    ensures { IsReadBack TellsGathered group result }
{
    let (with_nodes, edges) = group.into_parts();
    let (name, nodes) = with_nodes.into_parts();
    project(alloc, name, nodes, edges.as_slice())
}

// The project of this name, these nodes and these edges by their ends.
fn project(
    alloc: Global,
    name: PackageName,
    nodes: Vec<Node>,
    ends: &[EdgeEnds],
) -> Result<NamedProject, ReadError>
    ensures { IsReadBack (TellsProject name nodes.items) ends.now result }
{
    let nodes = rank(nodes)?;
    let edges = edges_between(alloc, nodes.as_slice(), ends)?;
    restore(name, nodes, edges)
}

// The project of this name, these nodes and these edges, which may be in any order.
fn restore(name: PackageName, nodes: Vec<Node>, edges: Vec<Edge>) -> Result<NamedProject, ReadError>
    ensures { (p : ProjectValue) → IsProject p.project → name ≡ p.name → nodes.items ≡ p.project.nodes
        → SameItems edges.items p.project.edges → Reads result p }
{
    let edges = rank(edges)?;
    Ok(NamedProject {
        name,
        project: found(Project::restore(nodes, edges))?,
    })
}

// The edges of these ends, each end by its place among the nodes.
fn edges_between(alloc: Global, nodes: &[Node], ends: &[EdgeEnds]) -> Result<Vec<Edge>, ReadError>
    ensures { (edges : List EdgeValue) → AreInNodeOrder nodes.now → EachStandsFor (IsEdgeOf nodes.now) ends.now edges
        → MatchResult result (λ v. v.items ≡ edges) (λ e. e ≡ ReadError.NoMemory) }
{
    let mut edges = Vec::new(alloc);
    'ends: for pair in ends {
        edges.push(edge_between(nodes, pair)?)?;
    }
    Ok(edges)
}

// The edge of these ends. Takes no memory.
fn edge_between(nodes: &[Node], ends: &EdgeEnds) -> Result<Edge, ReadError>
    ensures { (e : EdgeValue) → AreInNodeOrder nodes.now → IsEdgeOf nodes.now ends.now e → result ≡ Ok e }
{
    Ok(Edge {
        from: found(place_of(nodes, &ends.from))?,
        to: found(place_of(nodes, &ends.to))?,
        kind: ends.kind,
    })
}

// The place of a node. Takes no memory, and a time of log n.
fn place_of(nodes: &[Node], end: &End) -> Option<usize>
    ensures { AreInNodeOrder nodes.now → (place : ℕ) → place < length nodes.now
        → end.now ≡ end_of (node_at nodes.now place) → result ≡ Some place }
{
    let found = nodes.binary_search_by(|node| node
        .package
        .cmp(&end.package)
        .then(node.version.cmp(&end.version)));
    found.ok()
}
