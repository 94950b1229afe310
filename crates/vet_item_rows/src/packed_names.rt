//! Sets of names and of texts as packed lists: their members in the order of their bytes, each once.
ghost use Rattle.std.specs.Prelude.{◌≡◌, IfOk};
ghost use Rattle.vet_base.specs.Names.{members};
ghost use Rattle.vet_item_rows.specs.Packed.{packed};
ghost use Rattle.vet_item_rows.specs.PackedItems.{IsReadAsSet, as_text};
ghost use Rattle.vet_base.specs.Text.{read_text};
ghost use Rattle.vet_base.specs.Name.{read_name, read_package_name};

use crate::packed_item::{pack, unpack};
use std::alloc::{AllocError, Global};
use vet_base::name::{Name, PackageName};
use vet_base::names::Names;
use vet_base::package_names::PackageNames;
use vet_base::text::Text;
use vet_base::texts::Texts;

/// The packed list of a set of names. Fails only if memory runs out.
pub fn pack_names(alloc: Global, names: &Names) -> Result<Vec<u8>, AllocError>
    ensures { IfOk result (λ bytes. bytes.items ≡ packed (members names.now)) }
{
    pack(alloc, names.as_slice())
}

/// The set of the names in a packed list, or `None` if the bytes are not a packed list of names. Fails only if memory
/// runs out.
pub fn unpack_names(alloc: Global, bytes: &[u8]) -> Result<Option<Names>, AllocError>
    ensures { IfOk result (λ names. IsReadAsSet (as_text read_name) bytes.now names) }
{
    match unpack::<Name>(alloc, bytes)? {
        Some(names) => Ok(Some(Names::of(alloc, names)?)),
        None => Ok(None),
    }
}

/// The packed list of a set of packages. Fails only if memory runs out.
pub fn pack_packages(alloc: Global, packages: &PackageNames) -> Result<Vec<u8>, AllocError>
    ensures { IfOk result (λ bytes. bytes.items ≡ packed (members packages.now)) }
{
    pack(alloc, packages.as_slice())
}

/// The set of the packages in a packed list, or `None` if the bytes are not a packed list of names of packages. Fails
/// only if memory runs out.
pub fn unpack_packages(alloc: Global, bytes: &[u8]) -> Result<Option<PackageNames>, AllocError>
    ensures { IfOk result (λ packages. IsReadAsSet (as_text read_package_name) bytes.now packages) }
{
    match unpack::<PackageName>(alloc, bytes)? {
        Some(packages) => Ok(Some(PackageNames::of(alloc, packages)?)),
        None => Ok(None),
    }
}

/// The packed list of a set of texts. Fails only if memory runs out.
pub fn pack_texts(alloc: Global, texts: &Texts) -> Result<Vec<u8>, AllocError>
    ensures { IfOk result (λ bytes. bytes.items ≡ packed (members texts.now)) }
{
    pack(alloc, texts.as_slice())
}

/// The set of the texts in a packed list, or `None` if the bytes are not a packed list of texts. Fails only if memory
/// runs out.
pub fn unpack_texts(alloc: Global, bytes: &[u8]) -> Result<Option<Texts>, AllocError>
    ensures { IfOk result (λ texts. IsReadAsSet (as_text read_text) bytes.now texts) }
{
    match unpack::<Text>(alloc, bytes)? {
        Some(texts) => Ok(Some(Texts::of(alloc, texts)?)),
        None => Ok(None),
    }
}
