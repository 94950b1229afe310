//! Tables of criteria, made of the criteria that were read.
ghost use Rattle.std.specs.Prelude.{◌≡◌, IfOk, map};
ghost use Rattle.vet_base.specs.Criteria.{Criteria, IsTable};
ghost use Rattle.vet_base.specs.FurtherCriteria.{further};
ghost use Rattle.vet_base.specs.Items.{SameItems};
ghost use Rattle.vet_item_rows.specs.ReadBack.{Reads};
ghost use Rattle.vet_item_rows.specs.ReadPeers.{IsPeerTable, criterion_in};

use crate::read::criteria::SourcedCriterion;
use crate::read::read_error::ReadError;
use std::alloc::{AllocError, Global};
use vet_base::criteria_table::CriteriaTable;
use vet_base::criterion::Criterion;
use vet_base::definitions::Definitions;
use vet_base::keyed::Keyed;
use vet_base::limits::MOST_PEER_CRITERIA;

/// The criteria alone. Fails only if memory runs out.
pub(crate) fn criteria_in(
    alloc: Global,
    sourced: Vec<SourcedCriterion>,
) -> Result<Vec<Criterion>, AllocError>
    ensures { IfOk result (λ criteria. criteria.items ≡ map criterion_in sourced.items) }
{
    let mut criteria = Vec::new(alloc);
    'sourced: for item in sourced {
        criteria.push(item.into_criterion())?;
    }
    Ok(criteria)
}

/// The table of the built-in criteria and of these, which may be in any order and may repeat.
pub(crate) fn table_of(alloc: Global, criteria: Vec<Criterion>) -> Result<CriteriaTable, ReadError>
    ensures { (table : Criteria) → IsTable table → SameItems criteria.items (further table) → Reads result table }
{
    let criteria = Keyed::of(alloc, criteria)?.into_items();
    Ok(CriteriaTable::of(alloc, criteria)?)
}

/// The criteria of a peer: the built-in ones and these, which may be in any order and may repeat.
pub(crate) fn definitions_of(
    alloc: Global,
    criteria: Vec<Criterion>,
) -> Result<Definitions, ReadError>
    ensures { (table : Criteria) → IsPeerTable table → SameItems criteria.items (further table)
        → Reads result table }
{
    let criteria = Keyed::of(alloc, criteria)?.into_items();
    if criteria.len() > MOST_PEER_CRITERIA {
        return Err(ReadError::NotARegister);
    }
    Ok(Definitions::of(alloc, criteria)?)
}
