//! A run that asks what projects demand.
//!
//! - `set-criterion NAME [IMPLIED ..]` sets a criterion, as in a command;
//! - `set-policy` with the words of a policy sets it, and `drop-policy KEY` drops it;
//! - `load-project` with the words of a project sets it, and `drop-project NAME` drops it;
//! - `demand` prints how many pairs are demanded, and each pair, a line each, in the order of reports;
//! - `anew` drops all that was set.
//!
//! Only `demand` and what is refused print anything.

use crate::ending::{Ending, ItemResult, print_fault, refused};
use crate::fault::Fault;
use crate::known::check_policies;
use crate::line::{is_remark, one, words_of};
use crate::name_lists::names;
use crate::policies::keyed_policy;
use crate::projects::named_project;
use std::alloc::Global;
use std::io;
use vet_base::criteria_table::CriteriaTable;
use vet_base::criterion::Criterion;
use vet_base::keyed::Keyed;
use vet_base::name::{Name, PackageName};
use vet_base::refusal::Refusal;
use vet_demand::demand::Demand;
use vet_demand::demand_of::demand;
use vet_demand::policies::KeyedPolicy;
use vet_demand::policy_key::PolicyKey;
use vet_demand::project::NamedProject;

/// What a demand is asked of.
pub struct Workspace {
    pub criteria: CriteriaTable,
    pub policies: Keyed<KeyedPolicy>,
    pub projects: Keyed<NamedProject>,
}

impl Drop for Workspace {
    fn drop(self) {
        let Workspace {
            criteria: _,
            policies: _,
            projects: _,
        } = self;
    }
}

/// Gives the lines in their order, up to one for which memory runs out, and prints the answers.
pub fn run_workspace(rt: &impl Print, alloc: Global, text: &str) -> io::Result<Ending> {
    match Workspace::new(alloc) {
        Ok(mut workspace) => give_all(rt, alloc, &mut workspace, text),
        Err(fault) => refused(rt, &fault),
    }
}

fn give_all(
    rt: &impl Print,
    alloc: Global,
    workspace: &mut Workspace,
    text: &str,
) -> io::Result<Ending> {
    for (place, line) in text.lines().enumerate() {
        if !is_remark(line) {
            match give(rt, alloc, workspace, line)? {
                ItemResult::Answered => {}
                ItemResult::NoMemory => return Ok(Ending::Refused),
                ItemResult::NotUnderstood => return Ok(Ending::Line(place.saturating_add(1))),
            }
        }
    }
    Ok(Ending::Whole)
}

fn give(
    rt: &impl Print,
    alloc: Global,
    workspace: &mut Workspace,
    line: &str,
) -> io::Result<ItemResult> {
    if line == "demand" {
        return give_demand(rt, alloc, workspace);
    }
    match set(alloc, workspace, line) {
        Ok(()) => Ok(ItemResult::Answered),
        Err(fault) => print_fault(rt, &fault),
    }
}

fn give_demand(rt: &impl Print, alloc: Global, workspace: &Workspace) -> io::Result<ItemResult> {
    match workspace.demand(alloc) {
        Ok(demand) => {
            print_demand(rt, &demand)?;
            Ok(ItemResult::Answered)
        }
        Err(fault) => print_fault(rt, &fault),
    }
}

fn print_demand(rt: &impl Print, demand: &Demand) -> io::Result<()> {
    println!(rt; "demanded {}", demand.len())?;
    for pair in demand.pairs() {
        println!(rt; "pair {} {} {}", pair.package, pair.version, pair.criterion)?;
    }
    Ok(())
}

fn set(alloc: Global, workspace: &mut Workspace, line: &str) -> Result<(), Fault> {
    let words = words_of(alloc, line)?;
    set_by(alloc, workspace, words.as_slice())
}

fn set_by(alloc: Global, workspace: &mut Workspace, words: &[String]) -> Result<(), Fault> {
    let [word, texts @ ..] = words else {
        return Err(Fault::NotUnderstood);
    };
    match word.as_str() {
        "set-criterion" => set_criterion(alloc, workspace, texts),
        "set-policy" => set_policy(alloc, workspace, texts),
        "drop-policy" => drop_policy(alloc, workspace, texts),
        "load-project" => load_project(alloc, workspace, texts),
        "drop-project" => drop_project(alloc, workspace, texts),
        "anew" => begin_anew(alloc, workspace, texts),
        _ => Err(Fault::NotUnderstood),
    }
}

fn set_criterion(alloc: Global, workspace: &mut Workspace, texts: &[String]) -> Result<(), Fault> {
    let [name, implied @ ..] = texts else {
        return Err(Fault::NotUnderstood);
    };
    workspace.criteria.set(Criterion {
        name: Name::parse(alloc, name.as_str())?,
        description: None,
        url: None,
        implies: names(alloc, implied)?,
    })?;
    Ok(())
}

fn set_policy(alloc: Global, workspace: &mut Workspace, texts: &[String]) -> Result<(), Fault> {
    let policy = keyed_policy(alloc, texts)?;
    Ok(workspace.policies.insert(policy)?)
}

fn load_project(alloc: Global, workspace: &mut Workspace, texts: &[String]) -> Result<(), Fault> {
    let project = named_project(alloc, texts)?;
    Ok(workspace.projects.insert(project)?)
}

fn drop_policy(alloc: Global, workspace: &mut Workspace, texts: &[String]) -> Result<(), Fault> {
    let key = PolicyKey::parse(alloc, one(texts)?)?;
    match workspace.policies.take(&key) {
        Some(_) => Ok(()),
        None => Err(Fault::Refused(Refusal::UnknownPolicy)),
    }
}

fn drop_project(alloc: Global, workspace: &mut Workspace, texts: &[String]) -> Result<(), Fault> {
    let name = PackageName::parse(alloc, one(texts)?)?;
    match workspace.projects.take(&name) {
        Some(_) => Ok(()),
        None => Err(Fault::Refused(Refusal::UnknownProject)),
    }
}

fn begin_anew(alloc: Global, workspace: &mut Workspace, texts: &[String]) -> Result<(), Fault> {
    if !texts.is_empty() {
        return Err(Fault::NotUnderstood);
    }
    *workspace = Workspace::new(alloc)?;
    Ok(())
}

impl Workspace {
    // Nothing but the built-in criteria.
    fn new(alloc: Global) -> Result<Workspace, Fault> {
        Ok(Workspace {
            criteria: CriteriaTable::new(alloc)?,
            policies: Keyed::new(alloc),
            projects: Keyed::new(alloc),
        })
    }

    /// What its projects demand. Refused: `UnknownCriterion` that a policy names, and `NoMemory`.
    pub fn demand(&self, alloc: Global) -> Result<Demand, Fault> {
        check_policies(&self.criteria, self.policies.items())?;
        Ok(demand(alloc, self.projects.items(), &self.policies, &self.criteria)?)
    }
}
