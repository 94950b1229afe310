//! The criteria of an audits file.
ghost use Rattle.std.specs.Prelude.{◌≡◌};
ghost use Rattle.toml.specs.Data.{as_table};
ghost use Rattle.toml.specs.View.{table_view, view};
ghost use Rattle.vet_base.specs.Gives.{Gives};
ghost use Rattle.vet_files.specs.Audits.{built_in_criterion, criterion_told, further_criterion, next_criterion};
ghost use Rattle.vet_files.specs.Audits.{room_for_criterion};

use crate::field::{fault, optional};
use crate::found::Found;
use crate::keys::{DESCRIPTION, DESCRIPTION_URL, IMPLIES, TableKind, unknown_keys};
use crate::listed::Listed;
use crate::notices::Notices;
use crate::read::named_tables::{NamedTable, ReadNamed, named_table};
use crate::read::walk::ReadMember;
use crate::read::whose::Whose;
use std::alloc::Global;
use toml::{Table, Value};
use vet_base::criteria_table::is_built_in;
use vet_base::criterion::Criterion;
use vet_base::limits::MOST_PEER_CRITERIA;
use vet_base::name::Name;
use vet_base::names::Names;
use vet_base::refusal::{Limit, Refusal};

/// Reads the criteria of a file, one after the other.
#[derive(Drop)]
pub(crate) struct ReadCriteria<'a> {
    pub(crate) whose: Whose,
    pub(crate) path: &'a str,
}

impl ReadMember for ReadCriteria<'_> {
    type Found = Found<Listed<Criterion>>;

    ghost told = { λ r. next_criterion r.whose r.path.now };

    fn read(
        &self,
        alloc: Global,
        found: Found<Listed<Criterion>>,
        key: &str,
        value: &Value,
    ) -> Result<Found<Listed<Criterion>>, Refusal> {
        let Some(name) = Name::read(alloc, key)? else {
            return Err(fault(alloc, self.path, key));
        };
        if is_built_in(&name) {
            return self.pass_over(alloc, found, key, value);
        }
        self.read_further(alloc, found, name, value)
    }
}

impl ReadCriteria<'_> {
    /// Counts the table of a built-in criterion as one unknown key, without reading it.
    fn pass_over(
        &self,
        alloc: Global,
        found: Found<Listed<Criterion>>,
        key: &str,
        value: &Value,
    ) -> Result<Found<Listed<Criterion>>, Refusal>
        ensures { Gives (λ f. f)
            (built_in_criterion self.now.path.now key.now found (as_table (view value.now))) result }
    {
        if value.as_table().is_none() {
            return Err(fault(alloc, self.path, key));
        }
        Ok(Found {
            content: found.content,
            notices: found.notices.and(Notices::key())?,
        })
    }

    /// Reads a criterion that is not a built-in one.
    fn read_further(
        &self,
        alloc: Global,
        found: Found<Listed<Criterion>>,
        name: Name,
        value: &Value,
    ) -> Result<Found<Listed<Criterion>>, Refusal>
        ensures { Gives (λ f. f)
            (further_criterion self.now.whose self.now.path.now name found (as_table (view value.now))) result }
    {
        check_room(self.whose, found.content.len())?;
        let more = named_table(alloc, &ReadCriterion {}, self.path, name, value)?;
        Ok(found.with(more)?)
    }
}

/// Refuses a further criterion if a peer's file already defines as many as it may.
fn check_room(whose: Whose, defined: usize) -> Result<(), Refusal>
    ensures { result ≡ room_for_criterion whose defined }
{
    match whose {
        Whose::Ours => Ok(()),
        Whose::Peers => {
            if defined >= MOST_PEER_CRITERIA {
                return Err(Refusal::TooLarge(Limit::PeerCriteria));
            }
            Ok(())
        }
    }
}

/// Reads a criterion.
#[derive(Drop)]
struct ReadCriterion {}

impl ReadNamed for ReadCriterion {
    type Item = Criterion;

    ghost told = { λ r. criterion_told };

    fn read(&self, alloc: Global, at: NamedTable<'_>) -> Result<Found<Option<Criterion>>, Refusal> {
        let notices = unknown_keys(TableKind::Criterion, at.table)?;
        let description = optional(alloc, at.path, at.table, DESCRIPTION)?;
        let url = optional(alloc, at.path, at.table, DESCRIPTION_URL)?;
        let implies: Option<Names> = optional(alloc, at.path, at.table, IMPLIES)?;
        Ok(Found {
            notices,
            content: Some(Criterion {
                name: at.name,
                description,
                url,
                implies: implies.unwrap_or(Names::new(alloc)),
            }),
        })
    }
}
