//! Words that write a project, and lines that ask what a dependency table states.
//!
//! `NAME TABLE` write a project by its name and the text of its dependency table. The line `project TABLE` prints what
//! a table of any bytes states: a line for each node, with its party, and then one for each edge, with its two ends and
//! its kind.

use crate::fault::Fault;
use crate::line::{bytes_of, two};
use std::alloc::Global;
use vet_base::name::PackageName;
use vet_demand::project::{Edge, EdgeKind, NamedProject, Node, Party, Project};
use vet_demand::table_reader::read_project;

/// The project that some words write, with its name. Refused: what they are refused for, and `NoMemory`.
pub fn named_project(alloc: Global, words: &[String]) -> Result<NamedProject, Fault> {
    let (name, table) = two(words)?;
    Ok(NamedProject {
        name: PackageName::parse(alloc, name)?,
        project: read_project(alloc, table.as_bytes())?,
    })
}

/// The word of a table for which a line asks, if it asks for one.
pub fn table_word(line: &str) -> Option<&str> {
    let word = line.strip_prefix("project ")?;
    if word.contains(' ') {
        return None;
    }
    Some(word)
}

/// The project that the table of a word states. Refused: what the table is refused for, and `NoMemory`.
pub fn project(alloc: Global, word: &str) -> Result<String, Fault> {
    let table = bytes_of(alloc, word)?;
    project_text(alloc, &read_project(alloc, table.as_slice())?)
}

fn project_text(alloc: Global, project: &Project) -> Result<String, Fault> {
    let mut told = String::new(alloc);
    for node in project.nodes() {
        push_node(alloc, &mut told, node)?;
    }
    for edge in project.edges() {
        push_edge(alloc, &mut told, project.nodes(), edge)?;
    }
    Ok(told)
}

fn push_node(alloc: Global, told: &mut String, node: &Node) -> Result<(), Fault> {
    if !told.is_empty() {
        told.push_str("\n")?;
    }
    let party = party_word(node.party);
    let line = format!(in alloc; "node {} {} {party}", node.package, node.version)?;
    told.push_str(line.as_str())?;
    Ok(())
}

fn push_edge(alloc: Global, told: &mut String, nodes: &[Node], edge: &Edge) -> Result<(), Fault> {
    let Some(from) = nodes.get(edge.from) else {
        return Err(Fault::NotUnderstood);
    };
    let Some(to) = nodes.get(edge.to) else {
        return Err(Fault::NotUnderstood);
    };
    let kind = kind_word(edge.kind);
    let line = format!(in alloc;
        "\nedge {} {} {} {} {kind}",
        from.package, from.version, to.package, to.version
    )?;
    told.push_str(line.as_str())?;
    Ok(())
}

/// The word of a party.
pub fn party_word(party: Party) -> &'static str {
    match party {
        Party::Root => "root",
        Party::First => "first",
        Party::Third => "third",
    }
}

/// The word of a kind of edges.
pub fn kind_word(kind: EdgeKind) -> &'static str {
    match kind {
        EdgeKind::Normal => "normal",
        EdgeKind::Build => "build",
        EdgeKind::Dev => "dev",
    }
}
