//! The keys of command documents that the files lack, and the refusal of unknown keys.
ghost use Rattle.std.specs.Prelude.{◌≡◌, map};
ghost use Rattle.toml.specs.View.{table_view};
ghost use Rattle.vet_base.specs.Gives.{Gives};
ghost use Rattle.vet_documents.specs.DocumentField.{is_among, no_others};

use std::alloc::Global;
use toml::Table;
use vet_base::refusal::Refusal;
use vet_files::field::fault;

/// The key of the command's word, and the path of the table that a document is.
pub(crate) const COMMAND: &str = "command";

pub(crate) const CONFIG: &str = "config";

pub(crate) const CSV: &str = "csv";

pub(crate) const KIND: &str = "kind";

pub(crate) const LAST_DAY: &str = "last-day";

pub(crate) const MEMBER: &str = "member";

pub(crate) const NAME: &str = "name";

pub(crate) const NUMBER: &str = "number";

pub(crate) const PACKAGE: &str = "package";

pub(crate) const PEER: &str = "peer";

pub(crate) const PROJECT: &str = "project";

pub(crate) const RECORDS: &str = "records";

pub(crate) const REVIEW: &str = "review";

// The path of the member who gives a command.
pub(crate) const HEAD: &str = "head";

pub(crate) const VET_MEMBER: &str = "vet-member";

/// Refuses the least key of the table at a path that is not among these.
pub(crate) fn refuse_others(
    alloc: Global,
    path: &str,
    table: &Table,
    known: &[&str],
) -> Result<(), Refusal>
    ensures { Gives (λ u. u) (no_others path.now (map (λ k. k.now) known.now) (table_view table.now)) result }
{
    'keys: for (key, _value) in table.iter() {
        if !is_among(known, key.as_str()) {
            return Err(fault(alloc, path, key.as_str()));
        }
    }
    Ok(())
}

/// Whether a key is among some keys.
fn is_among(known: &[&str], key: &str) -> bool
    ensures { result ≡ is_among (map (λ k. k.now) known.now) key.now }
{
    'known: for name in known {
        if *name == key {
            return true;
        }
    }
    false
}
