//! Free texts.
ghost use Rattle.std.specs.Prelude.{◌≡◌, ◌↔◌, ◌≤◌, ◌<◌, length, IfOk, IfErr, Err};
ghost use Rattle.vet_base.specs.Text.{read_text};

use crate::exact::Exact;
use crate::keyed::{ExactItem, HasKey};
use crate::limits::MOST_TEXT_BYTES;
use crate::refusal::{Limit, Refusal};
use std::alloc::{AllocError, Global};
use std::cmp::Ordering;
use std::fmt;
use std::hash::{Hash, Hasher};
use std::marker::Model;

/// A text of at most 65,536 bytes, compared by its bytes.
#[derive(Clone, Drop)]
pub struct Text {
    text: String,
}

impl Model for Text {
    ghost use Rattle.std.specs.Prelude.{ℕ, List, ◌≤◌, length, string_bytes};
    ghost use Rattle.vet_base.specs.declared.limits.TheConstants.{MOST_TEXT_BYTES};

    ghost Value = { List ℕ };

    ghost view = { λ t. string_bytes t.text };

    ghost invariant = { λ t. length (string_bytes t.text) ≤ MOST_TEXT_BYTES };
}

impl Text {
    /// A copy of a text of at most 65,536 bytes. Fails only if memory runs out.
    pub(crate) fn of(alloc: Global, text: &str) -> Result<Text, AllocError>
        requires { length text.now ≤ MOST_TEXT_BYTES }
        ensures { IfOk result (λ t. t ≡ text.now) }
    {
        Ok(Text {
            text: String::from_str(alloc, text)?,
        })
    }

    /// A copy of a text, if it has at most 65,536 bytes. Fails only if memory runs out.
    pub fn read(alloc: Global, text: &str) -> Result<Option<Text>, AllocError>
        ensures { IfOk result (λ found. found ≡ read_text text.now) }
    {
        if text.len() <= MOST_TEXT_BYTES {
            return Ok(Some(Text::of(alloc, text)?));
        }
        Ok(None)
    }

    /// A copy of a text. Refused: `TooLarge` of `text` if it has more than 65,536 bytes, and `NoMemory`.
    pub fn parse(alloc: Global, text: &str) -> Result<Text, Refusal>
        ensures ok { IfOk result (λ t. t ≡ text.now) }
        ensures refused { (result ≡ Err (Refusal.TooLarge Limit.Text))
            ↔ (MOST_TEXT_BYTES < length text.now) }
        ensures memory { length text.now ≤ MOST_TEXT_BYTES
            → IfErr result (λ e. e ≡ Refusal.NoMemory) }
    {
        if text.len() > MOST_TEXT_BYTES {
            return Err(Refusal::TooLarge(Limit::Text));
        }
        Ok(Text::of(alloc, text)?)
    }

    /// The text.
    pub fn as_str(&self) -> &str
        ensures value { result.now ≡ self.now }
        ensures short { length self.now ≤ MOST_TEXT_BYTES }
    {
        self.text.as_str()
    }
}

impl Exact for Text {
    ghost use Rattle.std.proofs.Common.{rules};
    ghost use Rattle.std.specs.FinMap.{nat_cmp-IsAntisymmetric, slice_cmp-IsAntisymmetric};

    ghost only_equal = { slice_cmp-IsAntisymmetric nat_cmp-IsAntisymmetric };

    ghost only_copies = { Prim.search rules };
}

impl HasKey for Text {
    type Key = Text;

    ghost key_of = { λ n. n };

    fn key(&self) -> &Text {
        self
    }
}

impl ExactItem for Text {
    ghost use Rattle.std.proofs.Common.{rules};
    ghost use Rattle.std.specs.Cmp.Lexicographic.{bytes_decides};

    ghost only_copies = { Prim.search rules };

    ghost only_itself = { bytes_decides };
}

impl fmt::Display for Text {
    ghost use Rattle.std.specs.Prelude.{Some};

    ghost output = { λ t. Some t };

    fn fmt<W: fmt::Write>(&self, f: &mut fmt::Formatter<W>) -> fmt::Result {
        f.write_str(self.text.as_str())
    }
}

impl PartialEq for Text {
    ghost use Rattle.std.specs.Prelude.{nat_eq};
    ghost use Rattle.std.specs.Cmp.{partial_equiv_from_equiv};
    ghost use Rattle.std.specs.Cmp.Lexicographic.{nat_list_eq_equiv, pointwise};

    ghost eq = { pointwise nat_eq };

    ghost laws = { partial_equiv_from_equiv nat_list_eq_equiv };

    fn eq(&self, other: &Text) -> bool {
        self.text.as_str() == other.text.as_str()
    }
}

impl Eq for Text {
    ghost use Rattle.std.specs.Cmp.Lexicographic.{nat_list_eq_equiv};

    ghost laws = { nat_list_eq_equiv };
}

impl PartialOrd for Text {
    ghost use Rattle.std.specs.Cmp.{po};
    ghost use Rattle.std.specs.Cmp.Lexicographic.{slice_cmp, nat_list_cmp_total, texts_ties};
    ghost use Rattle.std.specs.Ordering.{as_partial_cmp, nat_cmp};

    ghost partial_cmp = { as_partial_cmp (slice_cmp nat_cmp) };

    ghost laws = { po nat_list_cmp_total texts_ties };

    fn partial_cmp(&self, other: &Text) -> Option<Ordering> {
        Some(self.cmp(other))
    }
}

impl Ord for Text {
    ghost use Rattle.std.specs.Cmp.Lexicographic.{slice_cmp, nat_list_cmp_total, texts_ties};
    ghost use Rattle.std.specs.Ordering.{nat_cmp};
    ghost use Rattle.std.specs.Prelude.{refl};

    ghost cmp = { slice_cmp nat_cmp };

    ghost total = { nat_list_cmp_total };

    ghost matches_partial_cmp = { λ a b. refl };

    ghost matches_eq = { texts_ties };

    fn cmp(&self, other: &Text) -> Ordering {
        self.text.as_str().cmp(other.text.as_str())
    }
}

impl Hash for Text {
    ghost use Rattle.std.specs.Cmp.Lexicographic.{bytes_decides};
    ghost use Rattle.std.specs.Hash as fed;

    ghost hash_input = { fed.str };

    ghost respects_eq = { (fed.same_Alike fed.str bytes_decides).fed };

    fn hash<H: Hasher>(&self, state: &mut H) {
        self.text.as_str().hash(state);
    }
}
