//! Paths and keys as a refusal prints them.
ghost use Rattle.std.specs.Prelude.{◌≡◌, IfOk, true};
ghost use Rattle.vet_base.specs.KeyText.{is_visible, told_key};

use crate::limits::MOST_KEY_BYTES;
use crate::name::are_visible;
use crate::text::Text;
use std::alloc::{AllocError, Global};
use std::fmt;
use std::marker::Model;

/// The path of a table, or a key, as a refusal prints it: 1 to 200 ASCII characters from `!` to `~`. Any other
/// path or key is printed as `?`.
#[derive(Clone, Drop, PartialEq, Eq)]
pub struct KeyText {
    text: Text,
}

impl Model for KeyText {
    ghost use Rattle.std.specs.Prelude.{◌≡◌, ℕ, List, true};
    ghost use Rattle.vet_base.specs.KeyText.{is_visible};

    ghost Value = { List ℕ };

    ghost view = { λ k. k.text };

    ghost invariant = { λ k. is_visible k.text ≡ true };

    ghost inverse = { λ t. record { text = t } };
}

impl KeyText {
    /// The path or key as a refusal prints it. Fails only if memory runs out.
    pub fn told(alloc: Global, key: &str) -> Result<KeyText, AllocError>
        ensures { IfOk result (λ k. k ≡ told_key key.now) }
    {
        let shown = if is_visible(key) { key } else { "?" };
        Ok(KeyText {
            text: Text::of(alloc, shown)?,
        })
    }

    /// The printed text.
    pub fn as_str(&self) -> &str
        ensures value { result.now ≡ self.now }
        ensures visible { is_visible self.now ≡ true }
    {
        self.text.as_str()
    }
}

impl fmt::Display for KeyText {
    ghost use Rattle.std.specs.Prelude.{Some};

    ghost output = { λ k. Some k };

    fn fmt<W: fmt::Write>(&self, f: &mut fmt::Formatter<W>) -> fmt::Result {
        f.write_str(self.text.as_str())
    }
}

fn is_visible(text: &str) -> bool
    ensures { result ≡ is_visible text.now }
{
    1 <= text.len() && text.len() <= MOST_KEY_BYTES && are_visible(text.as_bytes())
}
