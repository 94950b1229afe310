//! The own entry that finishes a review.
ghost use Rattle.std.specs.Prelude.{◌≡◌, IfErr, IfOk};
ghost use Rattle.vet_desk.specs.Desk.{audit_by, entry_by, kind_by};

use crate::command::Reviewed;
use crate::review::Review;
use std::alloc::Global;
use vet_base::name::Name;
use vet_base::refusal::Refusal;
use vet_base::text::Text;
use vet_base::texts::Texts;
use vet_entries::entry::{Entry, Source};
use vet_entries::kind::{Audit, Kind};

/// The entry that finishes a review, for the version or delta that this member reviewed. Refused: `NoMemory`.
pub(crate) fn entry_by(
    alloc: Global,
    member: &Name,
    reviewed: &Reviewed,
    review: &Review,
) -> Result<Entry, Refusal>
    ensures ok { IfOk result (λ e. e ≡ entry_by member.now reviewed.now review.now) }
    ensures memory { IfErr result (λ e. e ≡ Refusal.NoMemory) }
{
    Ok(Entry {
        source: Source::Own,
        package: review.package.clone()?,
        criteria: review.criteria.clone()?,
        notes: None,
        kind: kind_by(alloc, member, reviewed)?,
    })
}

fn kind_by(alloc: Global, member: &Name, reviewed: &Reviewed) -> Result<Kind, Refusal>
    ensures ok { IfOk result (λ k. k ≡ kind_by member.now reviewed.now) }
    ensures memory { IfErr result (λ e. e ≡ Refusal.NoMemory) }
{
    let audit = audit_by(alloc, member)?;
    match reviewed {
        Reviewed::Version(version) => Ok(Kind::Full(version.clone()?, audit)),
        Reviewed::Delta(delta) => Ok(Kind::Delta(delta.clone()?, audit)),
    }
}

// An audit by one member, without the flag `importable`.
fn audit_by(alloc: Global, member: &Name) -> Result<Audit, Refusal>
    ensures ok { IfOk result (λ a. a ≡ audit_by member.now) }
    ensures memory { IfErr result (λ e. e ≡ Refusal.NoMemory) }
{
    let text = text_of(alloc, member)?;
    let mut who = Texts::new(alloc);
    who.insert(text)?;
    Ok(Audit {
        who,
        importable: None,
    })
}

// The text of a name.
fn text_of(alloc: Global, name: &Name) -> Result<Text, Refusal>
    ensures ok { IfOk result (λ text. text ≡ name.now) }
    ensures memory { IfErr result (λ e. e ≡ Refusal.NoMemory) }
{
    Text::parse(alloc, name.as_str())
}
