//! Names of packages, and of criteria, peers and members.
ghost use Rattle.std.specs.Prelude.{◌≡◌, true, None, Ok, Err, IfOk};
ghost use Rattle.std.specs.Char.{is_ascii_graphic};
ghost use Rattle.std.specs.List.{list_all};
ghost use Rattle.vet_base.specs.Gives.{Gives, found_or};
ghost use Rattle.vet_base.specs.Name.{is_name, is_package_byte, is_package_name, read_name, read_package_name};

use crate::exact::Exact;
use crate::keyed::{ExactItem, HasKey};
use crate::limits::MOST_NAME_BYTES;
use crate::refusal::Refusal;
use crate::short_text::ShortText;
use std::alloc::{AllocError, Global};
use std::fmt;
use std::hash::Hash;
use std::marker::Model;

/// The name of a package or a project: 1 to 64 ASCII letters, digits, `-` and `_`. Names are compared by their
/// bytes: `-` is not `_`, and `A` is not `a`.
#[derive(Clone, Drop, PartialEq, Eq, PartialOrd, Ord, Hash)]
pub struct PackageName {
    text: ShortText,
}

impl Model for PackageName {
    ghost use Rattle.std.specs.Prelude.{◌≡◌, ℕ, List, true};
    ghost use Rattle.vet_base.specs.Name.{is_package_name};

    ghost Value = { List ℕ };

    ghost view = { λ n. n.text };

    ghost invariant = { λ n. is_package_name n.text ≡ true };

    ghost inverse = { λ t. record { text = t } };
}

impl PackageName {
    /// Reads a name. `None` if the text is not one. Fails only if memory runs out.
    pub fn read(alloc: Global, text: &str) -> Result<Option<PackageName>, AllocError>
        ensures ok { IfOk result (λ name. name ≡ read_package_name text.now) }
        ensures no_name { read_package_name text.now ≡ None → result ≡ Ok None }
    {
        if !is_package_name(text) {
            return Ok(None);
        }
        Ok(Some(PackageName {
            text: ShortText::of(alloc, text)?,
        }))
    }

    /// Reads a name. Refused: `BadName` if the text is not one, and `NoMemory`.
    pub fn parse(alloc: Global, text: &str) -> Result<PackageName, Refusal>
        ensures told { Gives (λ name. name) (found_or Refusal.BadName (read_package_name text.now)) result }
        ensures refused { read_package_name text.now ≡ None → result ≡ Err Refusal.BadName }
    {
        PackageName::read(alloc, text)?.ok_or(Refusal::BadName)
    }

    /// The name's text.
    pub fn as_str(&self) -> &str
        ensures value { result.now ≡ self.now }
        ensures name { is_package_name self.now ≡ true }
    {
        self.text.as_str()
    }
}

impl Exact for PackageName {
    ghost use Rattle.std.proofs.Common.{rules};
    ghost use Rattle.std.specs.FinMap.{nat_cmp-IsAntisymmetric, slice_cmp-IsAntisymmetric};

    ghost only_equal = { slice_cmp-IsAntisymmetric nat_cmp-IsAntisymmetric };

    ghost only_copies = { Prim.search rules };
}

impl HasKey for PackageName {
    type Key = PackageName;

    ghost key_of = { λ n. n };

    fn key(&self) -> &PackageName {
        self
    }
}

impl ExactItem for PackageName {
    ghost use Rattle.std.proofs.Common.{rules};
    ghost use Rattle.std.specs.Cmp.Lexicographic.{bytes_decides};

    ghost only_copies = { Prim.search rules };

    ghost only_itself = { bytes_decides };
}

impl fmt::Display for PackageName {
    ghost use Rattle.std.specs.Prelude.{Some};

    ghost output = { λ n. Some n };

    fn fmt<W: fmt::Write>(&self, f: &mut fmt::Formatter<W>) -> fmt::Result {
        f.write_str(self.text.as_str())
    }
}

/// The name of a criterion, a peer or a member: 1 to 64 ASCII characters from `!` to `~`. Names are compared by their
/// bytes.
#[derive(Clone, Drop, PartialEq, Eq, PartialOrd, Ord, Hash)]
pub struct Name {
    text: ShortText,
}

impl Model for Name {
    ghost use Rattle.std.specs.Prelude.{◌≡◌, ℕ, List, true};
    ghost use Rattle.vet_base.specs.Name.{is_name};

    ghost Value = { List ℕ };

    ghost view = { λ n. n.text };

    ghost invariant = { λ n. is_name n.text ≡ true };

    ghost inverse = { λ t. record { text = t } };
}

impl Name {
    /// Reads a name. `None` if the text is not one. Fails only if memory runs out.
    pub fn read(alloc: Global, text: &str) -> Result<Option<Name>, AllocError>
        ensures ok { IfOk result (λ name. name ≡ read_name text.now) }
        ensures no_name { read_name text.now ≡ None → result ≡ Ok None }
    {
        if !is_name(text) {
            return Ok(None);
        }
        Ok(Some(Name {
            text: ShortText::of(alloc, text)?,
        }))
    }

    /// Reads a name. Refused: `BadName` if the text is not one, and `NoMemory`.
    pub fn parse(alloc: Global, text: &str) -> Result<Name, Refusal>
        ensures told { Gives (λ name. name) (found_or Refusal.BadName (read_name text.now)) result }
        ensures refused { read_name text.now ≡ None → result ≡ Err Refusal.BadName }
    {
        Name::read(alloc, text)?.ok_or(Refusal::BadName)
    }

    /// The name's text.
    pub fn as_str(&self) -> &str
        ensures value { result.now ≡ self.now }
        ensures name { is_name self.now ≡ true }
    {
        self.text.as_str()
    }
}

impl Exact for Name {
    ghost use Rattle.std.proofs.Common.{rules};
    ghost use Rattle.std.specs.FinMap.{nat_cmp-IsAntisymmetric, slice_cmp-IsAntisymmetric};

    ghost only_equal = { slice_cmp-IsAntisymmetric nat_cmp-IsAntisymmetric };

    ghost only_copies = { Prim.search rules };
}

impl HasKey for Name {
    type Key = Name;

    ghost key_of = { λ n. n };

    fn key(&self) -> &Name {
        self
    }
}

impl ExactItem for Name {
    ghost use Rattle.std.proofs.Common.{rules};
    ghost use Rattle.std.specs.Cmp.Lexicographic.{bytes_decides};

    ghost only_copies = { Prim.search rules };

    ghost only_itself = { bytes_decides };
}

impl fmt::Display for Name {
    ghost use Rattle.std.specs.Prelude.{Some};

    ghost output = { λ n. Some n };

    fn fmt<W: fmt::Write>(&self, f: &mut fmt::Formatter<W>) -> fmt::Result {
        f.write_str(self.text.as_str())
    }
}

fn is_package_name(text: &str) -> bool
    ensures { result ≡ is_package_name text.now }
{
    1 <= text.len() && text.len() <= MOST_NAME_BYTES && are_package_bytes(text.as_bytes())
}

fn are_package_bytes(text: &[u8]) -> bool
    ensures { result ≡ list_all is_package_byte text.now }
{
    text.iter().all(|byte| is_package_byte(*byte))
}

fn is_package_byte(byte: u8) -> bool
    ensures { result ≡ is_package_byte byte }
{
    byte.is_ascii_alphanumeric() || byte == b'-' || byte == b'_'
}

fn is_name(text: &str) -> bool
    ensures { result ≡ is_name text.now }
{
    1 <= text.len() && text.len() <= MOST_NAME_BYTES && are_visible(text.as_bytes())
}

pub(crate) fn are_visible(text: &[u8]) -> bool
    ensures { result ≡ list_all is_ascii_graphic text.now }
{
    text.iter().all(|byte| byte.is_ascii_graphic())
}
