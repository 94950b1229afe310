//! Deltas between versions.
ghost use Rattle.std.specs.Prelude.{◌≡◌, ◌↔◌, IsTrue, Some, None, Ok, Err, IfOk, option_map};
ghost use Rattle.std.specs.Cmp.{partial_equiv_from_equiv};
ghost use Rattle.vet_base.specs.Gives.{Gives, found_or};
ghost use Rattle.vet_base.specs.Version.{read_version};
ghost use Rattle.vet_base.specs.Delta.{delta_eq, delta_text, ends_of, read_delta, without_ending, without_leading};
ghost use Rattle.vet_base.specs.Delta.{without_spaces};
ghost use Rattle.vet_base.specs.DeltaLaws.{delta_eq_equiv};

use crate::refusal::Refusal;
use crate::version::{VetVersion, version_text_reads_back};
use std::alloc::{AllocError, Global};
use std::fmt;
use std::hash::Hash;

/// A delta from one version to another; either may be the greater. Its text is `FROM -> TO`, with any number of
/// spaces around each version (ours).
#[derive(Hash)]
pub struct Delta {
    /// The version that it starts at.
    pub from: VetVersion,
    /// The version that it leads to.
    pub to: VetVersion,
}

impl Drop for Delta {
    fn drop(self) {
        let Delta { from: _, to: _ } = self;
    }
}

impl Delta {
    /// Reads a delta. `None` if the text is not one. Fails only if memory runs out.
    pub fn read(alloc: Global, text: &str) -> Result<Option<Delta>, AllocError>
        ensures ok { IfOk result (λ d. d ≡ read_delta text.now) }
        ensures no_delta { read_delta text.now ≡ None → result ≡ Ok None }
    {
        let Some((from, to)) = ends_of(text) else {
            return Ok(None);
        };
        let Ok(from) = VetVersion::read(alloc, from) else {
            return without_memory(alloc, to);
        };
        let Some(from) = from else {
            return Ok(None);
        };
        let Some(to) = VetVersion::read(alloc, to)? else {
            return Ok(None);
        };
        Ok(Some(Delta { from, to }))
    }

    /// Reads a delta. Refused: `BadDelta` if the text is not one, and `NoMemory`.
    pub fn parse(alloc: Global, text: &str) -> Result<Delta, Refusal>
        ensures told { Gives (λ d. d) (found_or Refusal.BadDelta (read_delta text.now)) result }
        ensures refused { read_delta text.now ≡ None → result ≡ Err Refusal.BadDelta }
    {
        Delta::read(alloc, text)?.ok_or(Refusal::BadDelta)
    }
}

impl fmt::Display for Delta {
    ghost output = { λ d. Some (delta_text d) };

    fn fmt<W: fmt::Write>(&self, f: &mut fmt::Formatter<W>) -> fmt::Result {
        write!(f, "{} -> {}", self.from, self.to)
    }
}

/// The text of a delta is read back as that delta.
pub fn delta_text_reads_back(delta: &Delta)
    ensures { read_delta (delta_text delta.now) ≡ Some delta.now }
{
    version_text_reads_back(&delta.from);
    version_text_reads_back(&delta.to);
}

impl Clone for Delta {
    ghost is_clone = { λ a b. b ≡ a };

    fn clone(&self) -> Result<Delta, AllocError> {
        Ok(Delta {
            from: self.from.clone()?,
            to: self.to.clone()?,
        })
    }
}

impl PartialEq for Delta {
    ghost eq = { delta_eq };

    ghost laws = { partial_equiv_from_equiv delta_eq_equiv };

    // A delta is equal only to itself.
    fn eq(&self, other: &Delta) -> bool
        ensures value { result ≡ delta_eq self.now other.now }
        ensures same { IsTrue result ↔ (self.now ≡ other.now) }
    {
        self.from == other.from && self.to == other.to
    }
}

impl Eq for Delta {
    ghost laws = { delta_eq_equiv };
}

#[derived]
impl Hash for Delta {
    ghost use Rattle.std.specs.Hash as fed;
    ghost use Rattle.vet_base.specs.DeltaLaws.{delta_eq-Decides};

    ghost respects_eq = { (fed.same_Alike _ delta_eq-Decides).fed };
}

// The answer if memory ran out for the first version: no delta if the second text is not a version, otherwise an error.
fn without_memory(alloc: Global, to: &str) -> Result<Option<Delta>, AllocError>
    ensures ok { IfOk result (λ d. (d ≡ None) × (read_version to.now ≡ None)) }
    ensures no_version { read_version to.now ≡ None → result ≡ Ok None }
{
    match VetVersion::read(alloc, to) {
        Ok(None) => Ok(None),
        _ => Err(AllocError),
    }
}

// The texts on both sides of the arrow, which is the only `>`, directly after a `-`. Spaces around them are removed.
fn ends_of(text: &str) -> Option<(&str, &str)>
    ensures { option_map (λ p. (p.0.now, p.1.now)) result ≡ ends_of text.now }
{
    let (before, after) = text.split_once('>')?;
    if after.contains('>') {
        return None;
    }
    let before = before.strip_suffix('-')?;
    Some((without_spaces(before), without_spaces(after)))
}

fn without_spaces(text: &str) -> &str
    ensures { result.now ≡ without_spaces text.now }
{
    without_ending(without_leading(text))
}

fn without_leading(text: &str) -> &str
    ensures { result.now ≡ without_leading text.now }
{
    text.trim_start_matches(' ')
}

fn without_ending(text: &str) -> &str
    ensures { result.now ≡ without_ending text.now }
{
    text.trim_end_matches(' ')
}
