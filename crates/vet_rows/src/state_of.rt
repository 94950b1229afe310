//! The state of rows.
//!
//! **Rows of a sound state in tables of either version, in any order, give that state.**
//!
//! Other rows give `NotARegister` or some state, and no clause says which. A caller that has to know compares the rows
//! of that state with those that it passed in. The rows of `standing` are ignored, since they follow from the others.
ghost use Rattle.std.specs.Prelude.{◌≡◌, ◌⊎◌, IfErr, MatchResult, map};
ghost use Rattle.std.specs.List.{All};
ghost use Rattle.vet_base.specs.Gives.{found_or};
ghost use Rattle.vet_base.specs.Items.{SameItems};
ghost use Rattle.vet_desk.specs.Desk.{DeskState};
ghost use Rattle.vet_desk.specs.SoundDesk.{IsSoundDesk};
ghost use Rattle.vet_item_rows.specs.DeskRows.{member_row, review_row};
ghost use Rattle.vet_item_rows.specs.HeldValues.{IsReview};
ghost use Rattle.vet_item_rows.specs.ReadBack.{Reads};
ghost use Rattle.vet_item_rows.specs.Values.{IsName};
ghost use Rattle.vet_register.specs.Sound.{IsSound};
ghost use Rattle.vet_register.specs.State as machine;
ghost use Rattle.vet_rows.specs.HeldState.{IsHeldState, SameButStanding};
ghost use Rattle.vet_rows.specs.ReadState.{state_in};
ghost use Rattle.vet_rows.specs.RowsOf.{rows_by};
ghost use Rattle.vet_tables.specs.Cells.{rows_in};
ghost use Rattle.vet_tables.specs.declared.version.TablesVersion.{TablesVersion as Version};

use crate::meta::Meta;
use crate::read::meta::read_meta;
use crate::read::moves::moves;
use std::alloc::Global;
use vet_base::keyed::Keyed;
use vet_base::refusal::Refusal;
use vet_demand::policies::KeyedPolicy;
use vet_demand::project::NamedProject;
use vet_desk::desk::Desk;
use vet_entries::facts::EntryFacts;
use vet_item_rows::read::facts::facts_of;
use vet_item_rows::read::lists::{members, policies, reviews};
use vet_item_rows::read::projects::projects;
use vet_item_rows::read::read_error::{ReadError, found};
use vet_register::moves::RecordedMove;
use vet_register::state::State;
use vet_tables::rows::Rows;
use vet_tables::table_name::{DemandTable, DeskTable, TableName};

/// The state of which these are the rows in tables of either version, in any order; those of `standing` are ignored.
/// Takes a time of n log n. Refused: `NotARegister`, only if they are the rows of no sound state, and `NoMemory`.
pub fn state_of(alloc: Global, rows: &Rows) -> Result<State, Refusal>
    ensures back { (version : Version) (s : machine.State) → IsSound s → IsHeldState s
        → SameButStanding (rows_in rows.now) (rows_by version s)
        → MatchResult result (λ found. found ≡ s) (λ e. e ≡ Refusal.NoMemory) }
    ensures refused { IfErr result (λ e. (e ≡ Refusal.NoMemory) ⊎ (e ≡ Refusal.NotARegister)) }
{
    Ok(read_state(alloc, rows)?)
}

/// What was found of a register in its tables, or `NotARegister` if nothing was. Takes no memory.
pub fn found_register<T>(found: Option<T>) -> Result<T, Refusal>
    ensures { result ≡ found_or Refusal.NotARegister found }
{
    found.ok_or(Refusal::NotARegister)
}

// The state of which these are the rows.
fn read_state(alloc: Global, rows: &Rows) -> Result<State, ReadError>
    ensures { (version : Version) (s : machine.State) → IsSound s → IsHeldState s
        → SameButStanding (rows_in rows.now) (rows_by version s) → Reads result s }
{
    let meta = read_meta(alloc, rows.of(TableName::Meta))?;
    let facts = facts_of(alloc, rows)?;
    let policies = policies(alloc, rows.of(TableName::Demand(DemandTable::Policies)))?;
    let projects = projects(
        alloc,
        rows.of(TableName::Demand(DemandTable::Nodes)),
        rows.of(TableName::Demand(DemandTable::Edges)),
    )?;
    let desk = read_desk(alloc, rows, meta.numbers.next_review)?;
    let moves = moves(alloc, rows.of(TableName::Moves))?;
    Ok(made(meta, facts, policies, projects, desk, moves))
}

// The desk of which these are the rows.
fn read_desk(alloc: Global, rows: &Rows, next_review: u64) -> Result<Desk, ReadError>
    ensures { (d : DeskState) → IsSoundDesk d → All IsName d.members → All IsReview d.reviews
        → SameItems (rows_in rows.now (TableName.Desk DeskTable.Members)) (map member_row d.members)
        → SameItems (rows_in rows.now (TableName.Desk DeskTable.Reviews)) (map review_row d.reviews)
        → next_review ≡ d.next_review
        → MatchResult result (λ desk. desk.content ≡ d) (λ e. e ≡ ReadError.NoMemory) }
{
    let members = members(alloc, rows.of(TableName::Desk(DeskTable::Members)))?;
    let reviews = reviews(alloc, rows.of(TableName::Desk(DeskTable::Reviews)))?;
    found(Desk::restored(members, reviews, next_review))
}

// The state of these parts. Takes no memory.
fn made(
    meta: Meta,
    facts: EntryFacts,
    policies: Keyed<KeyedPolicy>,
    projects: Keyed<NamedProject>,
    desk: Desk,
    moves: Vec<RecordedMove>,
) -> State
    ensures { result
        ≡ state_in meta facts.content policies.items projects.items desk.content moves.items }
{
    let Meta {
        version: _,
        numbers,
        first,
        settings,
    } = meta;
    State {
        facts,
        policies,
        projects,
        settings,
        desk,
        step: numbers.step,
        next_entry: numbers.next_entry,
        moves_limit: numbers.moves_limit,
        first,
        moves,
    }
}
