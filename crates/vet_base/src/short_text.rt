//! Texts that are usually short, such as names.
//!
//! A register holds and copies names by the hundred thousand. Most have some ten bytes, and allocating each would
//! cost more than everything else that a command does. So the bytes of a short text are in the value itself, and a
//! copy of it takes no memory.
ghost use Rattle.std.specs.Prelude.{◌≡◌, IfOk};
ghost use Rattle.vet_base.specs.ShortText.{bytes_of};

use arrayvec::ArrayString;
use std::alloc::{AllocError, Global};
use std::cmp::Ordering;
use std::hash::{Hash, Hasher};
use std::marker::Model;

// The place of the bytes: in the value itself, or in memory of their own.
enum Storage {
    Inline(ArrayString<24>),
    Allocated(String),
}

impl Drop for Storage {
    fn drop(self) {
        match self {
            Storage::Inline(_) => {}
            Storage::Allocated(_) => {}
        }
    }
}

/// A text, compared by its bytes. A text of up to 24 bytes takes no memory.
#[derive(Clone, Drop)]
pub(crate) struct ShortText {
    storage: Storage,
}

impl Model for ShortText {
    ghost use Rattle.std.specs.Prelude.{ℕ, List};
    ghost use Rattle.vet_base.specs.ShortText.{bytes_of};

    ghost Value = { List ℕ };

    ghost view = { λ t. bytes_of t.storage };
}

impl ShortText {
    /// A copy of a text. Fails only if memory runs out.
    pub(crate) fn of(alloc: Global, text: &str) -> Result<ShortText, AllocError>
        ensures { IfOk result (λ t. t ≡ text.now) }
    {
        Ok(ShortText {
            storage: storage_of(alloc, text)?,
        })
    }

    /// The text.
    pub(crate) fn as_str(&self) -> &str
        ensures { result.now ≡ self.now }
    {
        match &self.storage {
            Storage::Inline(text) => text.as_str(),
            Storage::Allocated(text) => text.as_str(),
        }
    }
}

impl Clone for Storage {
    ghost is_clone = { λ a b. bytes_of b ≡ bytes_of a };

    fn clone(&self) -> Result<Storage, AllocError> {
        match self {
            Storage::Inline(text) => Ok(Storage::Inline(*text)),
            Storage::Allocated(text) => Ok(Storage::Allocated(text.clone()?)),
        }
    }
}

// A copy of a text, in the value itself if it fits.
fn storage_of(alloc: Global, text: &str) -> Result<Storage, AllocError>
    ensures { IfOk result (λ p. bytes_of p ≡ text.now) }
{
    match ArrayString::<24>::from(text) {
        Ok(inline) => Ok(Storage::Inline(inline)),
        Err(_) => Ok(Storage::Allocated(String::from_str(alloc, text)?)),
    }
}

impl PartialEq for ShortText {
    ghost use Rattle.std.specs.Prelude.{nat_eq};
    ghost use Rattle.std.specs.Cmp.{partial_equiv_from_equiv};
    ghost use Rattle.std.specs.Cmp.Lexicographic.{nat_list_eq_equiv, pointwise};

    ghost eq = { pointwise nat_eq };

    ghost laws = { partial_equiv_from_equiv nat_list_eq_equiv };

    fn eq(&self, other: &ShortText) -> bool {
        self.as_str() == other.as_str()
    }
}

impl Eq for ShortText {
    ghost use Rattle.std.specs.Cmp.Lexicographic.{nat_list_eq_equiv};

    ghost laws = { nat_list_eq_equiv };
}

impl PartialOrd for ShortText {
    ghost use Rattle.std.specs.Cmp.{po};
    ghost use Rattle.std.specs.Cmp.Lexicographic.{slice_cmp, nat_list_cmp_total, texts_ties};
    ghost use Rattle.std.specs.Ordering.{as_partial_cmp, nat_cmp};

    ghost partial_cmp = { as_partial_cmp (slice_cmp nat_cmp) };

    ghost laws = { po nat_list_cmp_total texts_ties };

    fn partial_cmp(&self, other: &ShortText) -> Option<Ordering> {
        Some(self.cmp(other))
    }
}

impl Ord for ShortText {
    ghost use Rattle.std.specs.Cmp.Lexicographic.{slice_cmp, nat_list_cmp_total, texts_ties};
    ghost use Rattle.std.specs.Ordering.{nat_cmp};
    ghost use Rattle.std.specs.Prelude.{refl};

    ghost cmp = { slice_cmp nat_cmp };

    ghost total = { nat_list_cmp_total };

    ghost matches_partial_cmp = { λ a b. refl };

    ghost matches_eq = { texts_ties };

    fn cmp(&self, other: &ShortText) -> Ordering {
        self.as_str().cmp(other.as_str())
    }
}

impl Hash for ShortText {
    ghost use Rattle.std.specs.Cmp.Lexicographic.{bytes_decides};
    ghost use Rattle.std.specs.Hash as fed;

    ghost hash_input = { fed.str };

    ghost respects_eq = { (fed.same_Alike fed.str bytes_decides).fed };

    fn hash<H: Hasher>(&self, state: &mut H) {
        self.as_str().hash(state);
    }
}
