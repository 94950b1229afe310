//! A register in memory that prepares each command of a list before it installs the change of the one before.
//!
//! What was prepared on a state can still be installed, whatever else is prepared on it.

ghost use Rattle.vet_register.specs.Machine.{CommandValue};
ghost use Rattle.vet_register.specs.RegisterView.{IsPrepared};

use crate::runs::Runs;
use std::alloc::Global;
use vet_base::refusal::Refusal;
use vet_graph::keeper::Keeper;
use vet_graph::touched::Touched;
use vet_register::change::{Change, Prepared};
use vet_register::command::{Command, Outcome};
use vet_register::register::Register;

/// A register that looks one command ahead.
#[derive(Drop)]
pub struct AheadRegister<K: Keeper> {
    register: Register<K>,
}

impl<K: Keeper> AheadRegister<K> {
    /// A register to which no command was given.
    pub fn of(register: Register<K>) -> AheadRegister<K> {
        AheadRegister { register }
    }
}

impl<K: Keeper> Runs<K> for AheadRegister<K> {
    fn run_command(&mut self, alloc: Global, command: &Command) -> Result<Outcome, Refusal> {
        self.register.run(alloc, command)
    }

    fn run_commands(
        &mut self,
        alloc: Global,
        commands: &[Command],
    ) -> Result<Vec<Result<Outcome, Refusal>>, Refusal> {
        let mut answers = Vec::new(alloc);
        for (place, command) in commands.iter().enumerate() {
            let next = commands.get(place.saturating_add(1));
            let answer = run_before(&mut self.register, alloc, command, next);
            answers.push(answer)?;
        }
        Ok(answers)
    }

    fn shown(&self) -> &Register<K> {
        &self.register
    }

    fn touched(&self) -> Option<&Touched> {
        None
    }
}

// Runs a command, and prepares the next one, if there is one, before it installs the change of this one.
fn run_before<K: Keeper>(
    register: &mut Register<K>,
    alloc: Global,
    command: &Command,
    next: Option<&Command>,
) -> Result<Outcome, Refusal> {
    match register.prepare(alloc, command)? {
        Prepared::Already(number) => Ok(Outcome::Already(number)),
        Prepared::Change(change) => {
            let outcome = change.outcome();
            match next {
                Some(next) => install_behind(register, alloc, change, next),
                None => register.install(change),
            }
            Ok(outcome)
        }
    }
}

// Prepares the next command, installs a change that was prepared before it, and drops what the next one would change.
fn install_behind<K: Keeper>(
    register: &mut Register<K>,
    alloc: Global,
    change: Change<K>,
    next: &Command,
)
    requires { (command : CommandValue) × IsPrepared K.keeping register.old command change }
{
    let _ahead = register.prepare(alloc, next);
    register.install(change);
}
