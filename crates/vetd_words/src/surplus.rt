//! The first extra word after a command that reads a file on standard input.
ghost use Rattle.std.specs.List.{list_any};
ghost use Rattle.std.specs.Prelude.{◌≡◌, map, option_map};
ghost use Rattle.vetd_words.specs.Surplus.{is_flag, surplus_of, words_taken};

use std::convert::AsStr;

/// The first word that such a command doesn't take, if no word looks like a flag.
pub(crate) fn surplus_word<S: AsStr>(words: &[S]) -> Option<&str>
    ensures { option_map (λ s. s.now) result ≡ surplus_of (map S.text words.now) }
{
    let name = words.first()?.as_str();
    if has_flag(words) {
        return None;
    }
    let taken = words_taken(name)?;
    let word = words.get(taken)?;
    Some(word.as_str())
}

/// The number of words, including its name, that a command takes if it reads a file on standard input.
fn words_taken(name: &str) -> Option<usize>
    ensures { result ≡ words_taken name.now }
{
    if name == "class" {
        Some(4)
    } else if name == "read" {
        Some(2)
    } else {
        None
    }
}

/// Whether some word looks like a flag.
fn has_flag<S: AsStr>(words: &[S]) -> bool
    ensures { result ≡ list_any is_flag (map S.text words.now) }
{
    'words: for word in words {
        if is_flag(word.as_str()) {
            return true;
        }
    }
    false
}

/// Whether a word looks like a flag.
fn is_flag(word: &str) -> bool
    ensures { result ≡ is_flag word.now }
{
    word.as_bytes().first() == Some(&b'-')
}
