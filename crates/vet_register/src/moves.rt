//! Moves as they are recorded.
ghost use Rattle.std.specs.Prelude.{◌≡◌, ◌++◌, ◌-◌, ◌≤◌, IfOk, IfErr, length, map, vec_len, vec_capacity};
ghost use Rattle.vet_register.specs.Changes.{FitsMoves, first_by, moves_by};
ghost use Rattle.vet_register.specs.Machine.{recorded};

use std::alloc::Global;
use vet_base::day::Day;
use vet_base::refusal::Refusal;
use vet_graph::moves::Move;
use vet_graph::standing::Counts;

/// A move, with the step and the day of the command that made it.
pub struct RecordedMove {
    pub step: u64,
    pub day: Day,
    pub change: Move,
}

impl Drop for RecordedMove {
    fn drop(self) {
        let RecordedMove {
            step: _,
            day: _,
            change: _,
        } = self;
    }
}

/// A change of the recorded moves.
#[derive(Drop)]
pub enum Recording {
    /// These are added after those recorded.
    Behind(Vec<RecordedMove>),
    /// No move is recorded any more, and these are the first counts.
    Anew(Counts),
}

/// Copies of some moves, with a step and a day. Refused: `NoMemory`.
pub(crate) fn record(
    alloc: Global,
    step: u64,
    day: Day,
    moves: &[Move],
) -> Result<Vec<RecordedMove>, Refusal>
    ensures ok { IfOk result (λ r. r.items ≡ map (recorded step day) moves.now) }
    ensures memory { IfErr result (λ e. e ≡ Refusal.NoMemory) }
{
    let mut records = Vec::new(alloc);
    for change in moves {
        records.push(RecordedMove {
            step,
            day,
            change: change.clone()?,
        })?;
    }
    Ok(records)
}

/// Makes a recording, for which there is room. Takes no memory.
pub(crate) fn make_recording(
    moves: &mut Vec<RecordedMove>,
    first: &mut Counts,
    recording: Recording,
)
    requires { FitsMoves recording (vec_capacity moves.old - vec_len moves.old) }
    ensures moves { moves.new.items ≡ moves_by recording moves.old.items }
    ensures first { first.new ≡ first_by recording first.old }
{
    match recording {
        Recording::Behind(more) => append_reserved(moves, more),
        Recording::Anew(counts) => {
            moves.clear();
            *first = counts;
        }
    }
}

// Adds moves to those recorded, for which there is room.
fn append_reserved(moves: &mut Vec<RecordedMove>, mut more: Vec<RecordedMove>)
    requires { length more.items ≤ vec_capacity moves.old - vec_len moves.old }
    ensures { moves.new.items ≡ moves.old.items ++ more.items }
{
    let _ = moves.append(&mut more);
}
