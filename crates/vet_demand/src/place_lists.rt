//! Lists of places: for each place, those to which it leads.
ghost use Rattle.std.specs.Prelude.{◌≡◌, ◌<◌, ◌++◌, ◌∷◌, [], IfErr, IfOk, get_or, length, replicate, set};
ghost use Rattle.vet_demand.specs.Spread.{lists_in};

use std::alloc::Global;
use vet_base::refusal::Refusal;

/// This many empty lists. Refused: `NoMemory`.
pub fn empty_lists(alloc: Global, count: usize) -> Result<Vec<Vec<usize>>, Refusal>
    ensures ok { IfOk result (λ lists. lists_in lists.items ≡ replicate count []) }
    ensures memory { IfErr result (λ e. e ≡ Refusal.NoMemory) }
{
    let mut lists = Vec::new(alloc);
    'lists: for _place in 0..count {
        lists.push(Vec::new(alloc))?;
    }
    Ok(lists)
}

/// Appends a place to one of some lists. Refused: `NoMemory`.
pub fn push_at(lists: &mut Vec<Vec<usize>>, at: usize, place: usize) -> Result<(), Refusal>
    requires { at < length lists.old.items }
    ensures ok { IfOk result (λ _. lists_in lists.new.items
        ≡ set (lists_in lists.old.items) at (get_or (lists_in lists.old.items) at [] ++ place ∷ [])) }
    ensures memory { IfErr result (λ e. e ≡ Refusal.NoMemory) }
{
    let list = &mut lists[at];
    list.push(place)?;
    Ok(())
}
