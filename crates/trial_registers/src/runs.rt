//! What runs commands: a register in memory, or a store that writes one to a database.

use std::alloc::Global;
use vet_base::refusal::Refusal;
use vet_graph::keeper::Keeper;
use vet_graph::touched::Touched;
use vet_register::command::{Command, Outcome};
use vet_register::register::Register;

/// Runs commands, and shows the register that they leave.
pub trait Runs<K: Keeper> {
    /// Runs a command. After a refusal the register is as it was.
    fn run_command(&mut self, alloc: Global, command: &Command) -> Result<Outcome, Refusal>;

    /// Runs commands one after the other, whatever the outcome of each. Refused, with nothing run: `NoMemory`.
    fn run_commands(
        &mut self,
        alloc: Global,
        commands: &[Command],
    ) -> Result<Vec<Result<Outcome, Refusal>>, Refusal>;

    /// The register.
    fn shown(&self) -> &Register<K>;

    /// The packages that the last command touches, if it was done and this is noted.
    fn touched(&self) -> Option<&Touched>;
}

impl<K: Keeper> Runs<K> for Register<K> {
    fn run_command(&mut self, alloc: Global, command: &Command) -> Result<Outcome, Refusal> {
        self.run(alloc, command)
    }

    fn run_commands(
        &mut self,
        alloc: Global,
        commands: &[Command],
    ) -> Result<Vec<Result<Outcome, Refusal>>, Refusal> {
        self.run_all(alloc, commands)
    }

    fn shown(&self) -> &Register<K> {
        self
    }

    fn touched(&self) -> Option<&Touched> {
        None
    }
}
