//! The writer of dependency tables.
ghost use Rattle.std.specs.Prelude.{◌≡◌, ◌<◌, ◌++◌, Ok, IfOk, IfErr, OnOk, map, string_bytes};
ghost use Rattle.std.specs.List.{All};
ghost use Rattle.vet_demand.specs.DependencyTable.{project_of_bytes};
ghost use Rattle.vet_demand.specs.WrittenProject.{IsNamed, edge_fields, kind_word, line, lines, node_fields};
ghost use Rattle.vet_demand.specs.WrittenProject.{node_records, party_word, written_text};

use crate::project::{Edge, EdgeKind, Node, Party, Project};
use std::alloc::{AllocError, Global};
use vet_base::refusal::Refusal;
use vet_base::version::version_text_reads_back;

/// The dependency table of a project, as CSV (RFC 4180): the header `what,n,p,q,r`; then a record
/// `node,N,NAME,VERSION,PARTY` for each node in order, where N is its place, from 0; then a record
/// `edge,FROM,TO,KIND,` for each edge in order. Each line ends with a line feed, and no field needs quotes.
/// **It is read as the same project again.** Costs one walk over the project. Refused: `NoMemory`.
pub fn write_project(alloc: Global, project: &Project) -> Result<String, Refusal>
    ensures text { IfOk result (λ text. string_bytes text ≡ written_text project.now) }
    ensures read_again { IfOk result (λ text. project_of_bytes (string_bytes text) ≡ Ok project.now) }
    ensures memory { IfErr result (λ e. e ≡ Refusal.NoMemory) }
{
    let mut text = "what,n,p,q,r\n".to_string(alloc)?;
    write_nodes(project.nodes(), &mut text)?;
    write_edges(project.edges(), &mut text)?;
    Ok(text)
}

// Adds the lines of a project's nodes.
fn write_nodes(nodes: &[Node], text: &mut String) -> Result<(), AllocError>
    ensures lines { OnOk result (string_bytes text.new ≡ string_bytes text.old ++ lines (node_records 0 nodes.now)) }
    ensures named { OnOk result (All IsNamed nodes.now) }
{
    'nodes: for place in 0..nodes.len() {
        write_node(place, &nodes[place], text)?;
    }
    Ok(())
}

fn write_node(place: usize, node: &Node, text: &mut String) -> Result<(), AllocError>
    ensures line { OnOk result (string_bytes text.new ≡ string_bytes text.old ++ line (node_fields place node.now)) }
    ensures named { OnOk result (IsNamed node.now) }
{
    version_text_reads_back(&node.version);
    let name = node.package.as_str();
    let version = &node.version;
    let party = party_word(node.party);
    writeln!(text, "node,{place},{name},{version},{party}")
}

// Adds the lines of a project's edges.
fn write_edges(edges: &[Edge], text: &mut String) -> Result<(), AllocError>
    ensures { OnOk result (string_bytes text.new ≡ string_bytes text.old ++ lines (map edge_fields edges.now)) }
{
    'edges: for edge in edges {
        write_edge(*edge, text)?;
    }
    Ok(())
}

fn write_edge(edge: Edge, text: &mut String) -> Result<(), AllocError>
    ensures { OnOk result (string_bytes text.new ≡ string_bytes text.old ++ line (edge_fields edge)) }
{
    let from = edge.from;
    let to = edge.to;
    let kind = kind_word(edge.kind);
    writeln!(text, "edge,{from},{to},{kind},")
}

fn party_word(party: Party) -> &'static str
    ensures { result.now ≡ party_word party }
{
    match party {
        Party::Root => "root",
        Party::First => "first",
        Party::Third => "third",
    }
}

fn kind_word(kind: EdgeKind) -> &'static str
    ensures { result.now ≡ kind_word kind }
{
    match kind {
        EdgeKind::Normal => "normal",
        EdgeKind::Build => "build",
        EdgeKind::Dev => "dev",
    }
}
