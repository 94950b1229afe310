//! What changes of some packages.
ghost use Rattle.std.specs.Prelude.{◌≡◌, ◌+◌, ◌-◌, ◌^◌, ◌++◌, ◌∷◌, [], OnOk, IfErr, min};
ghost use Rattle.vet_graph.specs.Moves.{moves_between};

use crate::kept::Searched;
use crate::packages::KeptChange;
use crate::standing::Changed;
use std::alloc::Global;
use vet_base::name::PackageName;
use vet_base::refusal::Refusal;
use vet_graph::moves::{Move, differences};
use vet_graph::standing::Stand;

// What stands of some packages after a change, what is then kept of each, the moves, and how many looks were made; the
// count stays at its type's end.
#[derive(Drop)]
pub(crate) struct Changes {
    pub(crate) stands: Vec<Changed>,
    pub(crate) kept: Vec<KeptChange>,
    pub(crate) moves: Vec<Move>,
    pub(crate) looks: u128,
}

impl Changes {
    // Nothing changes.
    pub(crate) fn nothing(alloc: Global) -> Changes
        ensures stands { result.stands.items ≡ [] }
        ensures kept { result.kept.items ≡ [] }
        ensures moves { result.moves.items ≡ [] }
        ensures looks { result.looks ≡ 0 }
    {
        Changes {
            stands: Vec::new(alloc),
            kept: Vec::new(alloc),
            moves: Vec::new(alloc),
            looks: 0,
        }
    }

    // Adds a package: what stands of it before and after, and what is then kept of it.
    pub(crate) fn add(
        &mut self,
        alloc: Global,
        package: &PackageName,
        before: &[Stand],
        after: Vec<Stand>,
        searched: Searched,
    ) -> Result<(), Refusal>
        ensures stands { OnOk result (self.new.stands.items
            ≡ self.old.stands.items ++ record { «package» = «package».now; stands = after } ∷ []) }
        ensures kept { OnOk result (self.new.kept.items
            ≡ self.old.kept.items
            ++ record { «package» = «package».now; kept = searched.kept; looks = searched.looks } ∷ []) }
        ensures moves { OnOk result (self.new.moves.items
            ≡ self.old.moves.items ++ moves_between before.now after.items) }
        ensures looks { OnOk result (self.new.looks ≡ min (self.old.looks + searched.looks) (2 ^ 128 - 1)) }
        ensures memory { IfErr result (λ e. e ≡ Refusal.NoMemory) }
    {
        let moves = differences(alloc, before, after.as_slice())?;
        add_all(&mut self.moves, moves)?;
        self.stands.push(Changed {
            package: package.clone()?,
            stands: after,
        })?;
        let Searched { kept, looks } = searched;
        self.kept.push(KeptChange {
            package: package.clone()?,
            kept,
            looks,
        })?;
        self.looks = self.looks.saturating_add(looks);
        Ok(())
    }
}

// Adds moves behind others.
fn add_all(moves: &mut Vec<Move>, more: Vec<Move>) -> Result<(), Refusal>
    ensures moves { OnOk result (moves.new.items ≡ moves.old.items ++ more.items) }
    ensures memory { IfErr result (λ e. e ≡ Refusal.NoMemory) }
{
    'moves: for change in more {
        moves.push(change)?;
    }
    Ok(())
}
