//! Version requirements.
ghost use Rattle.std.specs.Prelude.{◌≡◌, ◌↔◌, IsTrue, Some, None, Ok, Err, IfOk, nat_eq, option_map};
ghost use Rattle.std.specs.Cmp.{partial_equiv_from_equiv};
ghost use Rattle.std.specs.Cmp.Lexicographic.{nat_list_eq_equiv, pointwise};
ghost use Rattle.std.specs.Result.{result_ok};
ghost use Rattle.semver.specs.Parse.{req_of};
ghost use Rattle.vet_base.specs.Gives.{Gives, found_or};
ghost use Rattle.vet_base.specs.Req.{IsReq, comparators_of, read_req, req_matches};

use crate::limits::MOST_REQ_BYTES;
use crate::refusal::Refusal;
use crate::version::{VetVersion, is_memory};
use semver::VersionReq;
use std::alloc::{AllocError, Global};
use std::cmp::Ordering;
use std::fmt;
use std::hash::{Hash, Hasher};
use std::marker::Model;

/// A version requirement, as Cargo reads it: comparators separated by commas, at most 256 bytes. It equals only
/// requirements with the same text, even if another text matches the same versions.
pub struct Req {
    text: String,
    req: VersionReq,
}

impl Model for Req {
    ghost use Rattle.std.specs.Prelude.{ℕ, List, string_bytes};
    ghost use Rattle.vet_base.specs.Req.{IsReadAs, IsReq};

    ghost Value = { List ℕ };

    ghost view = { λ r. string_bytes r.text };

    ghost invariant = { λ r. IsReq (string_bytes r.text) × IsReadAs (string_bytes r.text) r.req };
}

impl Drop for Req {
    fn drop(self) {
        let Req { text: _, req: _ } = self;
    }
}

impl Req {
    /// Reads a requirement. `None` if the text is not one. Fails only if memory runs out.
    pub fn read(alloc: Global, text: &str) -> Result<Option<Req>, AllocError>
        ensures ok { IfOk result (λ r. r ≡ read_req text.now) }
        ensures no_req { read_req text.now ≡ None → result ≡ Ok None }
    {
        if text.len() > MOST_REQ_BYTES {
            return Ok(None);
        }
        let Some(req) = semver_req(alloc, text)? else {
            return Ok(None);
        };
        let text = String::from_str(alloc, text)?;
        Ok(Some(Req { text, req }))
    }

    /// Reads a requirement. Refused: `BadRequirement` if the text is not one, and `NoMemory`.
    pub fn parse(alloc: Global, text: &str) -> Result<Req, Refusal>
        ensures told { Gives (λ r. r) (found_or Refusal.BadRequirement (read_req text.now)) result }
        ensures refused { read_req text.now ≡ None → result ≡ Err Refusal.BadRequirement }
    {
        Req::read(alloc, text)?.ok_or(Refusal::BadRequirement)
    }

    /// Whether the V of a version matches. A pre-release matches only if one of the comparators has the same three
    /// numbers and a pre-release of its own. The revision is ignored.
    pub fn matches(&self, version: &VetVersion) -> bool
        ensures { result ≡ req_matches self.now version.now.parts }
    {
        self.req.matches(version.semver())
    }

    /// The requirement's text.
    pub fn as_str(&self) -> &str
        ensures value { result.now ≡ self.now }
        ensures req { IsReq self.now }
    {
        self.text.as_str()
    }
}

impl fmt::Display for Req {
    ghost output = { λ r. Some r };

    fn fmt<W: fmt::Write>(&self, f: &mut fmt::Formatter<W>) -> fmt::Result {
        f.write_str(self.text.as_str())
    }
}

impl Clone for Req {
    ghost is_clone = { λ a b. b ≡ a };

    fn clone(&self) -> Result<Req, AllocError> {
        Ok(Req {
            text: self.text.clone()?,
            req: self.req.clone()?,
        })
    }
}

impl PartialEq for Req {
    ghost eq = { pointwise nat_eq };

    ghost laws = { partial_equiv_from_equiv nat_list_eq_equiv };

    fn eq(&self, other: &Req) -> bool
        ensures value { result ≡ pointwise nat_eq self.now other.now }
        ensures same { IsTrue result ↔ (self.now ≡ other.now) }
    {
        self.text.as_str() == other.text.as_str()
    }
}

impl Eq for Req {
    ghost laws = { nat_list_eq_equiv };
}

impl PartialOrd for Req {
    ghost use Rattle.std.specs.Cmp.{po};
    ghost use Rattle.std.specs.Cmp.Lexicographic.{slice_cmp, nat_list_cmp_total, texts_ties};
    ghost use Rattle.std.specs.Ordering.{as_partial_cmp, nat_cmp};

    ghost partial_cmp = { as_partial_cmp (slice_cmp nat_cmp) };

    ghost laws = { po nat_list_cmp_total texts_ties };

    fn partial_cmp(&self, other: &Req) -> Option<Ordering> {
        Some(self.cmp(other))
    }
}

impl Ord for Req {
    ghost use Rattle.std.specs.Cmp.Lexicographic.{slice_cmp, nat_list_cmp_total, texts_ties};
    ghost use Rattle.std.specs.Ordering.{nat_cmp};
    ghost use Rattle.std.specs.Prelude.{refl};

    ghost cmp = { slice_cmp nat_cmp };

    ghost total = { nat_list_cmp_total };

    ghost matches_partial_cmp = { λ a b. refl };

    ghost matches_eq = { texts_ties };

    // Requirements are ordered by the bytes of their texts.
    fn cmp(&self, other: &Req) -> Ordering {
        self.text.as_str().cmp(other.text.as_str())
    }
}

impl Hash for Req {
    ghost use Rattle.std.specs.Cmp.Lexicographic.{bytes_decides};
    ghost use Rattle.std.specs.Hash as fed;

    ghost hash_input = { fed.str };

    ghost respects_eq = { (fed.same_Alike fed.str bytes_decides).fed };

    fn hash<H: Hasher>(&self, state: &mut H) {
        self.text.as_str().hash(state);
    }
}

// The requirement that `semver` reads, if it reads one. If memory runs out, this is an error, and not `None`.
#[tactic(auto, using(crate::proofs::SemverErrors::requirement_no_memory))]
fn semver_req(alloc: Global, text: &str) -> Result<Option<VersionReq>, AllocError>
    ensures ok { IfOk result (λ r. option_map comparators_of r ≡ result_ok (req_of text.now)) }
    ensures no_req { result_ok (req_of text.now) ≡ None → result ≡ Ok None }
{
    match VersionReq::parse(alloc, text) {
        Ok(req) => Ok(Some(req)),
        Err(error) => {
            if is_memory(error) {
                Err(AllocError)
            } else {
                Ok(None)
            }
        }
    }
}
