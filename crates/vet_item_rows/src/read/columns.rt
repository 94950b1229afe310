//! Values read from columns. **What was written of a value is read as that value, unless memory runs out.**
//!
//! Any other number gives `NotARegister`. Any other text or bytes give `NotARegister` or some value, and no clause says
//! which. The functions that take an allocator may also return `NoMemory`.
ghost use Rattle.std.specs.Prelude.{◌≡◌, ℕ, Bool, IfErr, IfOk, Ok, Option, Some, map, pos};
ghost use Rattle.vet_base.specs.Day.{DayValue, day_number};
ghost use Rattle.vet_base.specs.Req.{IsReq};
ghost use Rattle.vet_base.specs.Version.{IsVersion, version_text};
ghost use Rattle.vet_demand.specs.PolicyKey.{key_text, read_key};
ghost use Rattle.vet_demand.specs.declared.policy_key.PolicyKey.{PolicyKey as KeyValue};
ghost use Rattle.vet_item_rows.specs.Columns.{flag, packed_names, packed_names_option, peer_of_source};
ghost use Rattle.vet_item_rows.specs.ReadColumns.{items_of_names};
ghost use Rattle.vet_item_rows.specs.Packed.{packed_option};
ghost use Rattle.vet_item_rows.specs.ReadBack.{IsReadBack, IsWritten, in_list};
ghost use Rattle.vet_item_rows.specs.Values.{AreNames, ArePackages, AreTexts, IsDay, IsName, IsPackage, IsSource};
ghost use Rattle.vet_item_rows.specs.Values.{IsText, IsUser, MayBe};

use crate::packed::read_items;
use crate::packed_item::unpack;
use crate::packed_names::{unpack_names, unpack_packages, unpack_texts};
use crate::read::read_error::{ReadError, found};
use std::alloc::Global;
use vet_base::day::Day;
use vet_base::name::{Name, PackageName};
use vet_base::names::Names;
use vet_base::package_names::PackageNames;
use vet_base::req::Req;
use vet_base::text::Text;
use vet_base::texts::Texts;
use vet_base::version::VetVersion;
use vet_demand::policy_key::PolicyKey;
use vet_entries::entry::Source;
use vet_entries::user::User;

/// A name.
pub fn name(alloc: Global, text: &str) -> Result<Name, ReadError>
    ensures { IsReadBack (IsWritten IsName (λ n. n)) text.now result }
{
    found(Name::read(alloc, text)?)
}

/// A name of a package.
pub fn package_name(alloc: Global, text: &str) -> Result<PackageName, ReadError>
    ensures { IsReadBack (IsWritten IsPackage (λ n. n)) text.now result }
{
    found(PackageName::read(alloc, text)?)
}

/// A version.
pub fn version(alloc: Global, text: &str) -> Result<VetVersion, ReadError>
    ensures { IsReadBack (IsWritten IsVersion version_text) text.now result }
{
    found(VetVersion::read(alloc, text)?)
}

/// A requirement of versions.
pub(crate) fn requirement(alloc: Global, text: &str) -> Result<Req, ReadError>
    ensures { IsReadBack (IsWritten IsReq (λ r. r)) text.now result }
{
    found(Req::read(alloc, text)?)
}

/// The key of a policy.
pub(crate) fn policy_key(alloc: Global, text: &str) -> Result<PolicyKey, ReadError>
    ensures { IsReadBack (IsWritten (λ (k : KeyValue). read_key (key_text k) ≡ Some k) key_text) text.now result }
{
    found(PolicyKey::read(alloc, text)?)
}

/// A text that may be missing.
pub fn optional_text(alloc: Global, bytes: &[u8]) -> Result<Option<Text>, ReadError>
    ensures { IsReadBack (IsWritten (MayBe IsText) packed_option) bytes.now result }
{
    let texts = found(unpack::<Text>(alloc, bytes)?)?;
    at_most_one(texts)
}

// The only one of some values, or none. More than one give `NotARegister`.
fn at_most_one<X: Drop>(mut values: Vec<X>) -> Result<Option<X>, ReadError>
    ensures { (o : Option X) → values.items ≡ in_list o → result ≡ Ok o }
{
    let Some(last) = values.pop() else {
        return Ok(None);
    };
    if !values.is_empty() {
        return Err(ReadError::NotARegister);
    }
    Ok(Some(last))
}

/// A set of texts.
pub(crate) fn texts(alloc: Global, bytes: &[u8]) -> Result<Texts, ReadError>
    ensures { IsReadBack (IsWritten AreTexts packed_names) bytes.now result }
{
    found(unpack_texts(alloc, bytes)?)
}

/// A set of names.
pub(crate) fn names(alloc: Global, bytes: &[u8]) -> Result<Names, ReadError>
    ensures { IsReadBack (IsWritten AreNames packed_names) bytes.now result }
{
    found(unpack_names(alloc, bytes)?)
}

/// A set of packages.
pub(crate) fn packages(alloc: Global, bytes: &[u8]) -> Result<PackageNames, ReadError>
    ensures { IsReadBack (IsWritten ArePackages packed_names) bytes.now result }
{
    found(unpack_packages(alloc, bytes)?)
}

/// A set of names that may be missing.
pub fn optional_names(alloc: Global, bytes: &[u8]) -> Result<Option<Names>, ReadError>
    ensures { IsReadBack (IsWritten (MayBe AreNames) packed_names_option) bytes.now result }
{
    let items = found(read_items(alloc, bytes)?)?;
    names_in(alloc, items.as_slice())
}

// The names in the only one of some items, or none. More than one give `NotARegister`.
fn names_in(alloc: Global, items: &[&[u8]]) -> Result<Option<Names>, ReadError>
    ensures { IsReadBack (IsWritten (MayBe AreNames) items_of_names) (map (λ item. item.now) items.now) result }
{
    if items.is_empty() {
        return Ok(None);
    }
    if items.len() > 1 {
        return Err(ReadError::NotARegister);
    }
    Ok(Some(names(alloc, items[0])?))
}

/// A boolean that may be missing: -1 if it is, otherwise 0 or 1. Takes no memory.
pub(crate) fn flag(number: i64) -> Result<Option<bool>, ReadError>
    ensures read { (said : Option Bool) → number ≡ flag said → result ≡ Ok said }
    ensures only { IfOk result (λ said. number ≡ flag said) }
    ensures refused { IfErr result (λ e. e ≡ ReadError.NotARegister) }
{
    if number == -1 {
        return Ok(None);
    }
    match number {
        0 => Ok(Some(false)),
        1 => Ok(Some(true)),
        _ => Err(ReadError::NotARegister),
    }
}

/// A number, which is not negative. Takes no memory.
pub fn number(column: i64) -> Result<u64, ReadError>
    ensures read { (n : ℕ) → column ≡ pos n → result ≡ Ok n }
    ensures only { IfOk result (λ n. column ≡ pos n) }
    ensures refused { IfErr result (λ e. e ≡ ReadError.NotARegister) }
{
    if column < 0 {
        return Err(ReadError::NotARegister);
    }
    Ok(column as u64)
}

/// A user. Takes no memory.
pub(crate) fn user(column: i64) -> Result<User, ReadError>
    ensures read { (u : ℕ) → column ≡ pos u → IsUser u → result ≡ Ok u }
    ensures only { IfOk result (λ u. column ≡ pos u) }
    ensures refused { IfErr result (λ e. e ≡ ReadError.NotARegister) }
{
    found(User::new(number(column)?))
}

/// A day. Takes no memory.
pub fn day(column: i64) -> Result<Day, ReadError>
    ensures read { (d : DayValue) → column ≡ day_number d → IsDay d → result ≡ Ok d }
    ensures only { IfOk result (λ d. column ≡ day_number d) }
    ensures refused { IfErr result (λ e. e ≡ ReadError.NotARegister) }
{
    found(Day::of_number(column))
}

/// Whose something is: a peer's, by its name, or one's own if the name is empty.
pub(crate) fn source(alloc: Global, peer: &str) -> Result<Source, ReadError>
    ensures { IsReadBack (IsWritten IsSource peer_of_source) peer.now result }
{
    if peer.is_empty() {
        return Ok(Source::Own);
    }
    Ok(Source::Peer(name(alloc, peer)?))
}
