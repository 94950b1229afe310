//! The criteria besides the built-in ones.
ghost use Rattle.std.specs.Prelude.{◌≡◌, ◌++◌, IfOk, OnOk, filter};
ghost use Rattle.vet_base.specs.FurtherCriteria.{FurtherAreDefined, further, is_further};

use crate::criteria_table::is_built_in;
use crate::criterion::Criterion;
use crate::definitions::Definitions;
use std::alloc::{AllocError, Global};

/// Copies of the criteria that are not built in, in the order of their names.
pub fn further(alloc: Global, definitions: &Definitions) -> Result<Vec<Criterion>, AllocError>
    ensures { IfOk result (λ criteria. criteria.items ≡ further definitions.now) }
{
    further_among(alloc, definitions.criteria())
}

/// Criteria with different names, none of them built in, define exactly these besides the built-in ones, each once.
pub fn further_are_defined()
    ensures { FurtherAreDefined }
{}

/// Copies of the criteria of a list that are not built in, in the same order.
pub fn further_among(alloc: Global, criteria: &[Criterion]) -> Result<Vec<Criterion>, AllocError>
    ensures { IfOk result (λ copies. copies.items ≡ filter is_further criteria.now) }
{
    let mut copies = Vec::new(alloc);
    'criteria: for criterion in criteria {
        if !is_built_in(&criterion.name) {
            copies.push(criterion.clone()?)?;
        }
    }
    Ok(copies)
}
