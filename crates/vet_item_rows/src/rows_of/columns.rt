//! What columns hold for values.
ghost use Rattle.std.specs.Prelude.{◌≡◌, IfOk, [], ◌∷◌, option_map};
ghost use Rattle.vet_base.specs.Version.{version_text};
ghost use Rattle.vet_base.specs.Words.{Bytes};
ghost use Rattle.vet_demand.specs.PolicyKey.{key_text};
ghost use Rattle.vet_item_rows.specs.Columns.{class_number, class_or_none, flag, packed_names, packed_names_option};
ghost use Rattle.vet_item_rows.specs.Columns.{peer_of_source};
ghost use Rattle.vet_item_rows.specs.Packed.{packed, packed_option};

use crate::packed::push_item;
use crate::packed_names::{pack_names, pack_packages, pack_texts};
use std::alloc::{AllocError, Global};
use vet_base::names::Names;
use vet_base::package_names::PackageNames;
use vet_base::text::Text;
use vet_base::texts::Texts;
use vet_base::version::VetVersion;
use vet_demand::policy_key::PolicyKey;
use vet_entries::entry::Source;
use vet_graph::class::Class;
use vet_tables::column::{BlobColumn, TextColumn};

/// The text of a version. Fails only if memory runs out.
pub fn version_column(alloc: Global, version: &VetVersion) -> Result<TextColumn, AllocError>
    ensures { IfOk result (λ column. column ≡ version_text version.now) }
{
    let text = format!(in alloc; "{version}")?;
    TextColumn::of(alloc, text.as_str())
}

/// The text of a policy's key. Fails only if memory runs out.
pub fn key_column(alloc: Global, key: &PolicyKey) -> Result<TextColumn, AllocError>
    ensures { IfOk result (λ column. column ≡ key_text key.now) }
{
    let text = format!(in alloc; "{key}")?;
    TextColumn::of(alloc, text.as_str())
}

/// The name of the peer that has an entry, empty for one's own. Fails only if memory runs out.
pub fn source_column(alloc: Global, source: &Source) -> Result<TextColumn, AllocError>
    ensures { IfOk result (λ column. column ≡ peer_of_source source.now) }
{
    match source {
        Source::Own => TextColumn::of(alloc, ""),
        Source::Peer(name) => TextColumn::of(alloc, name.as_str()),
    }
}

/// The packed list of a set of names. Fails only if memory runs out.
pub fn names_column(alloc: Global, names: &Names) -> Result<BlobColumn, AllocError>
    ensures { IfOk result (λ column. column ≡ packed_names names.now) }
{
    Ok(BlobColumn::of(pack_names(alloc, names)?))
}

/// The packed list of a set of packages. Fails only if memory runs out.
pub fn packages_column(alloc: Global, packages: &PackageNames) -> Result<BlobColumn, AllocError>
    ensures { IfOk result (λ column. column ≡ packed_names packages.now) }
{
    Ok(BlobColumn::of(pack_packages(alloc, packages)?))
}

/// The packed list of a set of texts. Fails only if memory runs out.
pub fn texts_column(alloc: Global, texts: &Texts) -> Result<BlobColumn, AllocError>
    ensures { IfOk result (λ column. column ≡ packed_names texts.now) }
{
    Ok(BlobColumn::of(pack_texts(alloc, texts)?))
}

/// A text that may be missing. Fails only if memory runs out.
pub fn text_or_none(alloc: Global, text: &Option<Text>) -> Result<BlobColumn, AllocError>
    ensures { IfOk result (λ column. column ≡ packed_option text.now) }
{
    match text {
        Some(text) => bytes_or_none(alloc, Some(text.as_str().as_bytes())),
        None => bytes_or_none(alloc, None),
    }
}

/// A set of names that may be missing. Fails only if memory runs out.
pub fn names_or_none(alloc: Global, names: &Option<Names>) -> Result<BlobColumn, AllocError>
    ensures { IfOk result (λ column. column ≡ packed_names_option names.now) }
{
    match names {
        Some(names) => {
            let bytes = pack_names(alloc, names)?;
            bytes_or_none(alloc, Some(bytes.as_slice()))
        }
        None => bytes_or_none(alloc, None),
    }
}

/// The packed list without items. Takes no memory.
pub fn no_items(alloc: Global) -> BlobColumn
    ensures { result ≡ packed [] }
{
    BlobColumn::of(Vec::new(alloc))
}

// Bytes that may be missing.
fn bytes_or_none(alloc: Global, bytes: Option<&[u8]>) -> Result<BlobColumn, AllocError>
    ensures { IfOk result (λ column. column ≡ packed_option (option_map (λ b. b.now) bytes.entry)) }
{
    match bytes {
        Some(bytes) => one_item(alloc, bytes),
        None => Ok(no_items(alloc)),
    }
}

// The packed list of one item.
fn one_item(alloc: Global, item: &[u8]) -> Result<BlobColumn, AllocError>
    ensures { IfOk result (λ column. column ≡ packed (item.now ∷ [])) }
{
    let mut bytes = Vec::new(alloc);
    push_item(alloc, &mut bytes, item)?;
    Ok(BlobColumn::of(bytes))
}

/// A boolean that may be missing: -1 if it is, 0 for false, 1 for true. Takes no memory.
pub fn flag(said: Option<bool>) -> i64
    ensures { result ≡ flag said }
{
    match said {
        None => -1,
        Some(false) => 0,
        Some(true) => 1,
    }
}

/// The number of a class, 0 to 4. Takes no memory.
pub fn class_number(class: Class) -> i64
    ensures { result ≡ class_number class }
{
    match class {
        Class::Conflicting => 0,
        Class::Full => 1,
        Class::Partial => 2,
        Class::Exempted => 3,
        Class::Unvetted => 4,
    }
}

/// The number of a class, 5 for none. Takes no memory.
pub fn class_or_none(class: Option<Class>) -> i64
    ensures { result ≡ class_or_none class }
{
    match class {
        Some(class) => class_number(class),
        None => 5,
    }
}
