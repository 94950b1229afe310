//! Reading the rows of criteria.
ghost use Rattle.std.specs.Prelude.{◌≡◌};
ghost use Rattle.vet_item_rows.specs.ReadBack.{IsWritten, Reads};
ghost use Rattle.vet_item_rows.specs.ReadFacts.{IsSourcedCriterion, sourced_criterion_row};
ghost use Rattle.vet_item_rows.specs.declared.read.criteria.SourcedCriterion.{SourcedCriterion as SourcedValue};

use crate::read::columns::{name, names, optional_text, source};
use crate::read::from_row::FromRow;
use crate::read::read_error::ReadError;
use crate::read::sourced::HasSource;
use std::alloc::Global;
use vet_base::criterion::Criterion;
use vet_entries::entry::Source;
use vet_tables::cell::Cell;
use vet_tables::sequence::Row;

/// A criterion, and whose it is.
pub(crate) struct SourcedCriterion {
    pub(crate) source: Source,
    pub(crate) criterion: Criterion,
}

impl Drop for SourcedCriterion {
    fn drop(self) {
        let SourcedCriterion {
            source: _,
            criterion: _,
        } = self;
    }
}

impl SourcedCriterion {
    /// The criterion alone. Takes no memory.
    pub(crate) fn into_criterion(self) -> Criterion
        ensures { result ≡ self.criterion }
    {
        let SourcedCriterion {
            source: _,
            criterion,
        } = self;
        criterion
    }
}

impl HasSource for SourcedCriterion {
    ghost source_of = { λ c. c.source };

    fn source(&self) -> &Source {
        &self.source
    }
}

impl FromRow for SourcedCriterion {
    ghost stands_for = { IsWritten IsSourcedCriterion sourced_criterion_row };

    fn from_row(alloc: Global, row: &Row) -> Result<SourcedCriterion, ReadError> {
        let [Cell::Text(peer), ..] = row.as_slice() else {
            return Err(ReadError::NotARegister);
        };
        Ok(SourcedCriterion {
            source: source(alloc, peer.as_str())?,
            criterion: criterion(alloc, row)?,
        })
    }
}

// The criterion of a row, whosever it is.
fn criterion(alloc: Global, row: &Row) -> Result<Criterion, ReadError>
    ensures { (c : SourcedValue) → IsWritten IsSourcedCriterion sourced_criterion_row row.now c
        → Reads result c.criterion }
{
    let [
        _,
        Cell::Text(of_name),
        Cell::Blob(about),
        Cell::Blob(url),
        Cell::Blob(implied),
    ] = row.as_slice()
    else {
        return Err(ReadError::NotARegister);
    };
    Ok(Criterion {
        name: name(alloc, of_name.as_str())?,
        description: optional_text(alloc, about.as_slice())?,
        url: optional_text(alloc, url.as_slice())?,
        implies: names(alloc, implied.as_slice())?,
    })
}
