//! A register in memory that notes which packages a command touches.

use crate::runs::Runs;
use std::alloc::Global;
use vet_base::refusal::Refusal;
use vet_graph::keeper::Keeper;
use vet_graph::touched::Touched;
use vet_register::change::Prepared;
use vet_register::command::{Command, Outcome};
use vet_register::register::Register;

/// A register, and what the last command touches, if it was done.
#[derive(Drop)]
pub struct NotingRegister<K: Keeper> {
    register: Register<K>,
    touched: Option<Touched>,
}

impl<K: Keeper> NotingRegister<K> {
    /// A register to which no command was given.
    pub fn of(register: Register<K>) -> NotingRegister<K> {
        NotingRegister {
            register,
            touched: None,
        }
    }
}

impl<K: Keeper> Runs<K> for NotingRegister<K> {
    fn run_command(&mut self, alloc: Global, command: &Command) -> Result<Outcome, Refusal> {
        self.touched = None;
        match self.register.prepare(alloc, command)? {
            Prepared::Already(number) => Ok(Outcome::Already(number)),
            Prepared::Change(change) => {
                let touched = change.touched().clone()?;
                let outcome = change.outcome();
                self.register.install(change);
                self.touched = Some(touched);
                Ok(outcome)
            }
        }
    }

    fn run_commands(
        &mut self,
        alloc: Global,
        commands: &[Command],
    ) -> Result<Vec<Result<Outcome, Refusal>>, Refusal> {
        self.register.run_all(alloc, commands)
    }

    fn shown(&self) -> &Register<K> {
        &self.register
    }

    fn touched(&self) -> Option<&Touched> {
        self.touched.as_ref()
    }
}
