//! Names and texts as items of packed lists: each is kept as its bytes, which are UTF-8.
ghost use Rattle.std.specs.Prelude.{◌≡◌, IfOk};
ghost use Rattle.vet_base.specs.Name.{read_name, read_package_name};
ghost use Rattle.vet_base.specs.Text.{read_text};
ghost use Rattle.vet_item_rows.specs.PackedItems.{as_text};

use crate::packed_item::PackedItem;
use std::alloc::{AllocError, Global};
use vet_base::name::{Name, PackageName};
use vet_base::text::Text;

impl PackedItem for Name {
    ghost bytes_of = { λ name. name };

    ghost read_bytes = { as_text read_name };

    fn bytes(&self) -> &[u8] {
        self.as_str().as_bytes()
    }

    fn read(alloc: Global, bytes: &[u8]) -> Result<Option<Name>, AllocError> {
        match str::from_utf8(bytes) {
            Ok(text) => Name::read(alloc, text),
            Err(_) => Ok(None),
        }
    }
}

impl PackedItem for PackageName {
    ghost bytes_of = { λ name. name };

    ghost read_bytes = { as_text read_package_name };

    fn bytes(&self) -> &[u8] {
        self.as_str().as_bytes()
    }

    fn read(alloc: Global, bytes: &[u8]) -> Result<Option<PackageName>, AllocError> {
        match str::from_utf8(bytes) {
            Ok(text) => PackageName::read(alloc, text),
            Err(_) => Ok(None),
        }
    }
}

impl PackedItem for Text {
    ghost bytes_of = { λ text. text };

    ghost read_bytes = { as_text read_text };

    fn bytes(&self) -> &[u8] {
        self.as_str().as_bytes()
    }

    fn read(alloc: Global, bytes: &[u8]) -> Result<Option<Text>, AllocError> {
        match str::from_utf8(bytes) {
            Ok(text) => Text::read(alloc, text),
            Err(_) => Ok(None),
        }
    }
}
