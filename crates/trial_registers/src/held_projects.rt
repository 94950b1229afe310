//! Prints the policies and the projects that are held. Printing takes no memory.
//!
//! A policy is a line of the words that set it. After the line of a project come one for each node, with its party, and
//! one for each edge, with its two ends and its kind.

use crate::held::{print_flag, print_optional_text};
use std::io;
use trial_values::projects::{kind_word, party_word};
use vet_base::name::Name;
use vet_base::names::Names;
use vet_demand::dependency_criteria::DependencyItem;
use vet_demand::policies::KeyedPolicy;
use vet_demand::policy::Policy;
use vet_demand::project::{Edge, EdgeKind, NamedProject, Node, Project};

/// Prints some policies.
pub fn print_policies(rt: &impl Print, policies: &[KeyedPolicy]) -> io::Result<()> {
    for held in policies {
        print!(rt; "policy {}", held.key)?;
        print_policy(rt, &held.policy)?;
        println!(rt; "")?;
    }
    Ok(())
}

/// Prints some projects.
pub fn print_projects(rt: &impl Print, projects: &[NamedProject]) -> io::Result<()> {
    for held in projects {
        println!(rt; "project {}", held.name)?;
        print_project(rt, &held.project)?;
    }
    Ok(())
}

fn print_policy(rt: &impl Print, policy: &Policy) -> io::Result<()> {
    print_list(rt, "criteria", &policy.criteria)?;
    print_list(rt, "dev-criteria", &policy.dev_criteria)?;
    print_dependencies(rt, policy.dependency_criteria.items())?;
    print_flag(rt, "audit-as-crates-io", policy.audit_as_crates_io)?;
    print_optional_text(rt, "notes", &policy.notes)
}

/// Prints a list, if there is one, after its key; an empty one has nothing after the equals sign.
pub fn print_list(rt: &impl Print, key: &str, names: &Option<Names>) -> io::Result<()> {
    match names {
        Some(names) => {
            print!(rt; " {key}=")?;
            print_names_between_commas(rt, names.as_slice())
        }
        None => Ok(()),
    }
}

fn print_names_between_commas(rt: &impl Print, names: &[Name]) -> io::Result<()> {
    let mut separator = "";
    for name in names {
        print!(rt; "{separator}{name}")?;
        separator = ",";
    }
    Ok(())
}

fn print_dependencies(rt: &impl Print, items: &[DependencyItem]) -> io::Result<()> {
    let mut separator = " dependency-criteria=";
    for item in items {
        print!(rt; "{separator}{}=", item.package)?;
        print_names_between_commas(rt, item.criteria.as_slice())?;
        separator = ";";
    }
    Ok(())
}

fn print_project(rt: &impl Print, project: &Project) -> io::Result<()> {
    for node in project.nodes() {
        let party = party_word(node.party);
        println!(rt; "node {} {} {party}", node.package, node.version)?;
    }
    print_edges(rt, project.nodes(), project.edges())
}

fn print_edges(rt: &impl Print, nodes: &[Node], edges: &[Edge]) -> io::Result<()> {
    for edge in edges {
        if let (Some(from), Some(to)) = (nodes.get(edge.from), nodes.get(edge.to)) {
            print_edge(rt, from, to, edge.kind)?;
        }
    }
    Ok(())
}

fn print_edge(rt: &impl Print, from: &Node, to: &Node, kind: EdgeKind) -> io::Result<()> {
    let kind = kind_word(kind);
    println!(rt;
        "edge {} {} {} {} {kind}",
        from.package, from.version, to.package, to.version
    )
}
