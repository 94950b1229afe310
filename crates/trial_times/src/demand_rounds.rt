//! Rounds of computing what projects demand.

use crate::workspace::workspace_of;
use std::time::{Clock, Instant};
use trial_values::fault::Fault;
use trial_values::workspace::Workspace;
use vet_demand::project::NamedProject;

/// Prints how much each project of a text has, and times what they demand.
pub fn run_demands(
    rt: &(impl Clock + AllocGlobal + Print),
    rounds: usize,
    text: &str,
) -> Result<(), Fault> {
    let workspace = workspace_of(rt.alloc(), text)?;
    run_rounds(rt, rounds, &workspace)
}

fn run_rounds(
    rt: &(impl Clock + AllocGlobal + Print),
    rounds: usize,
    workspace: &Workspace,
) -> Result<(), Fault> {
    print_sizes(rt, workspace.projects.items())?;
    for _round in 0..rounds {
        run_round(rt, workspace)?;
    }
    Ok(())
}

fn print_sizes(
    rt: &(impl Clock + AllocGlobal + Print),
    projects: &[NamedProject],
) -> Result<(), Fault> {
    for named in projects {
        let nodes = named.project.nodes().len();
        let edges = named.project.edges().len();
        println!(rt; "read {nodes} {edges}")?;
    }
    Ok(())
}

// Computes what the projects demand, and prints how long that took and how many pairs there are.
fn run_round(rt: &(impl Clock + AllocGlobal + Print), workspace: &Workspace) -> Result<(), Fault> {
    let begun = Instant::now(rt)?;
    let found = workspace.demand(rt.alloc())?;
    let nanos = begun.elapsed(rt)?.as_nanos();
    let count = found.len();
    println!(rt; "demand {nanos} {count}")?;
    Ok(())
}
