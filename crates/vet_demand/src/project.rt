//! Projects: nodes and the dependencies between them.
ghost use Rattle.std.specs.Prelude.{◌≡◌, ◌↔◌, ◌<◌, ◌≤◌, IfSome, IsSome, IsTrue, length, refl};
ghost use Rattle.std.specs.List.{All};
ghost use Rattle.std.specs.Cmp.{decided, eq_by_cmp_equiv, partial_equiv_from_equiv, partial_order_from_total};
ghost use Rattle.std.specs.Ordering.{as_partial_cmp};
ghost use Rattle.vet_demand.specs.Project.{AreInEdgeOrder, AreInNodeOrder, IsProject, IsWithin, edge_cmp};
ghost use Rattle.vet_demand.specs.Project.{edge_eq, kind_eq, kind_place, node_cmp, node_eq};
ghost use Rattle.vet_demand.specs.Project.{party_eq, party_place, project_eq};
ghost use Rattle.vet_demand.specs.ProjectLaws.{edge_total, kind_eq-Decides, node_eq-Decides};
ghost use Rattle.vet_demand.specs.ProjectLaws.{node_total, party_eq-Decides};
ghost use Rattle.vet_demand.specs.ProjectLaws.{project_eq-Decides};

use std::alloc::AllocError;
use std::cmp::Ordering;
use std::marker::Model;
use vet_base::keyed::{ExactItem, HasKey};
use vet_base::limits::{MOST_EDGES, MOST_NODES};
use vet_base::name::PackageName;
use vet_base::ranked::{Ranked, are_ranked};
use vet_base::version::VetVersion;

/// The party to which a package belongs. `Root` and `First` are both first-party: policies say what is asked of these
/// packages.
#[derive(Clone, Copy)]
pub enum Party {
    /// A package of the project from which dependencies start.
    Root,
    /// Another package of the project.
    First,
    /// A package from outside the project.
    Third,
}

/// The purpose of a dependency (The Cargo Book, dependencies).
#[derive(Clone, Copy)]
pub enum EdgeKind {
    /// For everything that the package does.
    Normal,
    /// For its build script.
    Build,
    /// For its tests, examples and benches.
    Dev,
}

/// A version of a package in a project, with its party.
pub struct Node {
    pub package: PackageName,
    pub version: VetVersion,
    pub party: Party,
}

/// A dependency of one node on another. Nodes are named by their places, from 0, among the nodes of the project. Edges
/// are ordered by the place `from`, then the place `to`, then the kind: normal, build, dev.
#[derive(Clone, Copy)]
pub struct Edge {
    pub from: usize,
    pub to: usize,
    pub kind: EdgeKind,
}

/// A graph of dependencies: 1 to 10,000 nodes in the order of their names' bytes and their versions, each name and
/// version once, and at most 100,000 edges in their order, each once. Nodes may depend on each other in cycles.
pub struct Project {
    nodes: Vec<Node>,
    edges: Vec<Edge>,
}

/// A project with its name, which has the form of a package's name.
pub struct NamedProject {
    pub name: PackageName,
    pub project: Project,
}

impl Model for Project {
    ghost use Rattle.vet_demand.specs.contracts.project.Edge as edge;
    ghost use Rattle.vet_demand.specs.contracts.project.Node as node;
    ghost use Rattle.vet_demand.specs.Project.{IsProject, ProjectValue};
    ghost use Rattle.vet_demand.specs.Encodings.{project_code};

    ghost Value = { ProjectValue };

    ghost coded = { project_code node.the_row.coded edge.the_row.coded };

    ghost view = { λ p. record { nodes = p.nodes.items; edges = p.edges.items } };

    ghost invariant = { λ p. IsProject (record { nodes = p.nodes.items; edges = p.edges.items }) };
}

impl Project {
    /// The project of these nodes and edges. `None` exactly if they do not form one: if there is no node or more than
    /// 10,000, or more than 100,000 edges, if nodes or edges are not in their order, each once, or if an edge names a
    /// place that no node has. Takes no memory, and looks at each once.
    pub fn restore(nodes: Vec<Node>, edges: Vec<Edge>) -> Option<Project>
        ensures is { IsSome result ↔ IsProject (record { nodes = nodes.items; edges = edges.items }) }
        ensures value { IfSome result (λ p. p ≡ record { nodes = nodes.items; edges = edges.items }) }
    {
        if are_few(nodes.as_slice(), edges.as_slice())
            && stand(nodes.as_slice(), edges.as_slice())
        {
            Some(Project { nodes, edges })
        } else {
            None
        }
    }

    // The project of these nodes and edges. Takes no memory.
    pub(crate) fn of(nodes: Vec<Node>, edges: Vec<Edge>) -> Project
        requires { IsProject (record { nodes = nodes.items; edges = edges.items }) }
        ensures { result ≡ record { nodes = nodes.items; edges = edges.items } }
    {
        Project { nodes, edges }
    }

    /// The nodes, in the order of their names' bytes, then by version.
    pub fn nodes(&self) -> &[Node]
        ensures value { result.now ≡ self.now.nodes }
        ensures is_project { IsProject self.now }
    {
        self.nodes.as_slice()
    }

    /// The edges, in their order. Each is between places of nodes.
    pub fn edges(&self) -> &[Edge]
        ensures value { result.now ≡ self.now.edges }
        ensures is_project { IsProject self.now }
    {
        self.edges.as_slice()
    }
}

impl Party {
    // The party's place in the order of parties.
    fn place(self) -> u8
        ensures { result ≡ party_place self }
    {
        match self {
            Party::Root => 0,
            Party::First => 1,
            Party::Third => 2,
        }
    }
}

impl PartialEq for Party {
    ghost eq = { party_eq };

    ghost laws = { partial_equiv_from_equiv (decided party_eq party_eq-Decides) };

    fn eq(&self, other: &Party) -> bool
        ensures value { result ≡ party_eq self.now other.now }
        ensures same { IsTrue result ↔ (self.now ≡ other.now) }
    {
        self.place() == other.place()
    }
}

impl Eq for Party {
    ghost laws = { decided party_eq party_eq-Decides };
}

impl EdgeKind {
    // The kind's place in the order of kinds.
    fn place(self) -> u8
        ensures { result ≡ kind_place self }
    {
        match self {
            EdgeKind::Normal => 0,
            EdgeKind::Build => 1,
            EdgeKind::Dev => 2,
        }
    }
}

impl PartialEq for EdgeKind {
    ghost eq = { kind_eq };

    ghost laws = { partial_equiv_from_equiv (decided kind_eq kind_eq-Decides) };

    fn eq(&self, other: &EdgeKind) -> bool
        ensures value { result ≡ kind_eq self.now other.now }
        ensures same { IsTrue result ↔ (self.now ≡ other.now) }
    {
        self.place() == other.place()
    }
}

impl Eq for EdgeKind {
    ghost laws = { decided kind_eq kind_eq-Decides };
}

impl Node {
    /// Compares it with another by the bytes of the package's name, then by version. Takes no memory.
    pub fn cmp_place(&self, other: &Node) -> Ordering
        ensures { result ≡ node_cmp self.now other.now }
    {
        self.package
            .cmp(&other.package)
            .then(self.version.cmp(&other.version))
    }
}

impl Ranked for Node {
    ghost rank_cmp = { node_cmp };

    ghost rank_total = { node_total };

    fn cmp_rank(&self, other: &Node) -> Ordering {
        self.cmp_place(other)
    }
}

impl Drop for Node {
    fn drop(self) {
        let Node {
            package: _,
            version: _,
            party: _,
        } = self;
    }
}

impl Clone for Node {
    ghost is_clone = { λ a b. b ≡ a };

    fn clone(&self) -> Result<Node, AllocError> {
        Ok(Node {
            package: self.package.clone()?,
            version: self.version.clone()?,
            party: self.party,
        })
    }
}

impl PartialEq for Node {
    ghost eq = { node_eq };

    ghost laws = { partial_equiv_from_equiv (decided node_eq node_eq-Decides) };

    fn eq(&self, other: &Node) -> bool
        ensures value { result ≡ node_eq self.now other.now }
        ensures same { IsTrue result ↔ (self.now ≡ other.now) }
    {
        self.package == other.package && self.version == other.version && self.party == other.party
    }
}

impl Eq for Node {
    ghost laws = { decided node_eq node_eq-Decides };
}

impl PartialEq for Edge {
    ghost eq = { edge_eq };

    ghost laws = { partial_equiv_from_equiv (eq_by_cmp_equiv edge_total) };

    // An edge ties only with itself.
    fn eq(&self, other: &Edge) -> bool
        ensures value { result ≡ edge_eq self.now other.now }
        ensures same { IsTrue result ↔ (self.now ≡ other.now) }
    {
        self.cmp(other).is_eq()
    }
}

impl Eq for Edge {
    ghost laws = { eq_by_cmp_equiv edge_total };
}

impl PartialOrd for Edge {
    ghost partial_cmp = { as_partial_cmp edge_cmp };

    ghost laws = { partial_order_from_total edge_total };

    fn partial_cmp(&self, other: &Edge) -> Option<Ordering> {
        Some(self.cmp(other))
    }
}

impl Ord for Edge {
    ghost cmp = { edge_cmp };

    ghost total = { edge_total };

    ghost matches_partial_cmp = { λ a b. refl };

    ghost matches_eq = { λ a b. refl };

    fn cmp(&self, other: &Edge) -> Ordering {
        self.from
            .cmp(&other.from)
            .then(self.to.cmp(&other.to))
            .then(self.kind.place().cmp(&other.kind.place()))
    }
}

impl Ranked for Edge {
    ghost rank_cmp = { edge_cmp };

    ghost rank_total = { edge_total };

    fn cmp_rank(&self, other: &Edge) -> Ordering {
        self.cmp(other)
    }
}

impl Drop for Project {
    fn drop(self) {
        let Project { nodes: _, edges: _ } = self;
    }
}

impl Clone for Project {
    ghost is_clone = { λ a b. b ≡ a };

    fn clone(&self) -> Result<Project, AllocError> {
        Ok(Project {
            nodes: self.nodes.clone()?,
            edges: self.edges.clone()?,
        })
    }
}

impl PartialEq for Project {
    ghost eq = { project_eq };

    ghost laws = { partial_equiv_from_equiv (decided project_eq project_eq-Decides) };

    // Two tables that differ only in numbering are equal as projects, since nodes are in order.
    fn eq(&self, other: &Project) -> bool
        ensures value { result ≡ project_eq self.now other.now }
        ensures same { IsTrue result ↔ (self.now ≡ other.now) }
    {
        are_same(self, other)
    }
}

impl Eq for Project {
    ghost laws = { decided project_eq project_eq-Decides };
}

impl Drop for NamedProject {
    fn drop(self) {
        let NamedProject {
            name: _,
            project: _,
        } = self;
    }
}

impl Clone for NamedProject {
    ghost is_clone = { λ a b. b ≡ a };

    fn clone(&self) -> Result<NamedProject, AllocError> {
        Ok(NamedProject {
            name: self.name.clone()?,
            project: self.project.clone()?,
        })
    }
}

impl PartialEq for NamedProject {
    ghost use Rattle.vet_demand.specs.NamedProject.{named_project_eq};
    ghost use Rattle.vet_demand.specs.NamedProjectLaws.{named_project_eq-Decides};

    ghost eq = { named_project_eq };

    ghost laws = { partial_equiv_from_equiv (decided named_project_eq named_project_eq-Decides) };

    fn eq(&self, other: &NamedProject) -> bool
        ensures value { result ≡ named_project_eq self.now other.now }
        ensures same { IsTrue result ↔ (self.now ≡ other.now) }
    {
        self.name == other.name && self.project == other.project
    }
}

impl Eq for NamedProject {
    ghost use Rattle.vet_demand.specs.NamedProject.{named_project_eq};
    ghost use Rattle.vet_demand.specs.NamedProjectLaws.{named_project_eq-Decides};

    ghost laws = { decided named_project_eq named_project_eq-Decides };
}

impl HasKey for NamedProject {
    ghost use Rattle.vet_demand.specs.NamedProject.{project_name};

    type Key = PackageName;

    ghost key_of = { project_name };

    fn key(&self) -> &PackageName {
        &self.name
    }
}

impl ExactItem for NamedProject {
    ghost use Rattle.vet_demand.specs.NamedProjectLaws.{named_project_eq-Decides};

    ghost only_copies = { λ a b h. h };

    ghost only_itself = { named_project_eq-Decides };
}

// Whether there is at least one node, and neither too many nodes nor too many edges.
fn are_few(nodes: &[Node], edges: &[Edge]) -> bool
    ensures { IsTrue result ↔ ((0 < length nodes.now) × (length nodes.now ≤ MOST_NODES)
        × (length edges.now ≤ MOST_EDGES)) }
{
    !nodes.is_empty() && nodes.len() <= MOST_NODES && edges.len() <= MOST_EDGES
}

// Whether nodes and edges are in their order, and each edge is between two nodes.
fn stand(nodes: &[Node], edges: &[Edge]) -> bool
    ensures { IsTrue result ↔ (AreInNodeOrder nodes.now × AreInEdgeOrder edges.now
        × All (IsWithin (length nodes.now)) edges.now) }
{
    are_ranked(nodes) && are_ranked(edges) && are_within(nodes.len(), edges)
}

// Whether each edge is between two of this many nodes.
fn are_within(many: usize, edges: &[Edge]) -> bool
    ensures { IsTrue result ↔ All (IsWithin many) edges.now }
{
    edges.iter().all(|edge| edge.from < many && edge.to < many)
}

// Whether two projects have the same nodes and edges.
fn are_same(a: &Project, b: &Project) -> bool
    ensures { result ≡ project_eq a.now b.now }
{
    a.nodes == b.nodes && a.edges == b.edges
}
