//! Versions of packages.
ghost use Rattle.std.specs.Prelude.{◌≡◌, ◌↔◌, Some, None, Ok, Err, IfOk, IfErr, IsTrue, IsSome, unwrap_or, []};
ghost use Rattle.std.specs.Prelude.{option_map, refl, string_bytes};
ghost use Rattle.std.specs.List.{list_all};
ghost use Rattle.std.specs.Char.{is_ascii_hexdigit};
ghost use Rattle.std.specs.Option.{option_cmp};
ghost use Rattle.std.specs.Result.{result_ok};
ghost use Rattle.std.specs.Ordering.{as_partial_cmp, nat_cmp};
ghost use Rattle.std.specs.Cmp.{partial_equiv_from_equiv, eq_by_cmp_equiv, partial_order_from_total};
ghost use Rattle.std.specs.Cmp.Lexicographic.{slice_cmp};
ghost use Rattle.semver.specs.Parse.{version_parts, memory_error};
ghost use Rattle.semver.specs.Identifiers.{parts_of};
ghost use Rattle.vet_base.specs.VersionOrder.{version_cmp, version_eq};
ghost use Rattle.vet_base.specs.VersionOrderLaws.{version_total};
ghost use Rattle.vet_base.specs.Gives.{Gives, found_or};
ghost use Rattle.vet_base.specs.Version.{is_revision, plain_version, read_version, revised_version, value_of};
ghost use Rattle.vet_base.specs.Version.{version_at, version_text};

use crate::limits::{MOST_VERSION_BYTES, REVISION_DIGITS};
use crate::refusal::Refusal;
use semver::Version;
use std::alloc::{AllocError, Global};
use std::cmp::Ordering;
use std::fmt;
use std::hash::{Hash, Hasher};
use std::marker::Model;

/// A version of a package: V, a version by Semantic Versioning 2.0.0, or `V@git:REV` with a revision of 40 hexadecimal
/// digits, which are held in lower case; at most 256 bytes. `V@git:REV` and `V` are different versions, and so are two
/// that differ only in build metadata.
///
/// Versions are ordered by the precedence of V (SemVer, 11), then by the bytes of V as printed. Then a version without
/// a revision comes before one with a revision, and last the bytes of the revision decide.
#[derive(Clone)]
pub struct VetVersion {
    version: Version,
    revision: Option<String>,
}

impl Model for VetVersion {
    ghost use Rattle.vet_base.specs.Version.{IsVersion, VersionValue, value_of};

    ghost Value = { VersionValue };

    ghost view = { λ v. value_of (v.version, v.revision) };

    ghost invariant = { λ v. IsVersion (value_of (v.version, v.revision)) };
}

impl Drop for VetVersion {
    fn drop(self) {
        let VetVersion {
            version: _,
            revision: _,
        } = self;
    }
}

impl VetVersion {
    /// Reads a version. `None` if the text is not one. Fails only if memory runs out.
    pub fn read(alloc: Global, text: &str) -> Result<Option<VetVersion>, AllocError>
        ensures ok { IfOk result (λ v. v ≡ read_version text.now) }
        ensures no_version { read_version text.now ≡ None → result ≡ Ok None }
    {
        let Some((version, revision)) = parts(alloc, text)? else {
            return Ok(None);
        };
        Ok(Some(VetVersion { version, revision }))
    }

    /// Reads a version. Refused: `BadVersion` if the text is not one, and `NoMemory`.
    pub fn parse(alloc: Global, text: &str) -> Result<VetVersion, Refusal>
        ensures told { Gives (λ v. v) (found_or Refusal.BadVersion (read_version text.now)) result }
        ensures refused { read_version text.now ≡ None → result ≡ Err Refusal.BadVersion }
    {
        VetVersion::read(alloc, text)?.ok_or(Refusal::BadVersion)
    }

    /// The forty digits of the revision, in lower case, if there is one.
    pub fn revision(&self) -> Option<&str>
        ensures { option_map (λ r. r.now) result ≡ self.now.revision }
    {
        match &self.revision {
            Some(revision) => Some(revision.as_str()),
            None => None,
        }
    }

    // The digits of the revision, or the empty text if there is none.
    fn revision_text(&self) -> &str
        ensures { result.now ≡ unwrap_or self.now.revision [] }
    {
        match &self.revision {
            Some(revision) => revision.as_str(),
            None => "",
        }
    }

    // V, as SemVer reads it.
    pub(crate) fn semver(&self) -> &Version
        ensures { parts_of result.now ≡ self.now.parts }
    {
        &self.version
    }
}

impl fmt::Display for VetVersion {
    ghost output = { λ v. Some (version_text v) };

    fn fmt<W: fmt::Write>(&self, f: &mut fmt::Formatter<W>) -> fmt::Result {
        write!(f, "{}", self.version)?;
        if let Some(revision) = &self.revision {
            f.write_str("@git:")?;
            f.write_str(revision.as_str())?;
        }
        Ok(())
    }
}

/// The text of a version is read back as that version.
pub fn version_text_reads_back(version: &VetVersion)
    ensures { read_version (version_text version.now) ≡ Some version.now }
{
    let _ = &version.version;
}

impl PartialEq for VetVersion {
    ghost eq = { version_eq };

    ghost laws = { partial_equiv_from_equiv (eq_by_cmp_equiv version_total) };

    // A version is equal only to itself.
    fn eq(&self, other: &VetVersion) -> bool
        ensures value { result ≡ version_eq self.now other.now }
        ensures same { IsTrue result ↔ (self.now ≡ other.now) }
    {
        self.cmp(other).is_eq()
    }
}

impl Eq for VetVersion {
    ghost laws = { eq_by_cmp_equiv version_total };
}

impl PartialOrd for VetVersion {
    ghost partial_cmp = { as_partial_cmp version_cmp };

    ghost laws = { partial_order_from_total version_total };

    fn partial_cmp(&self, other: &VetVersion) -> Option<Ordering> {
        Some(self.cmp(other))
    }
}

impl Ord for VetVersion {
    ghost cmp = { version_cmp };

    ghost total = { version_total };

    ghost matches_partial_cmp = { λ a b. refl };

    ghost matches_eq = { λ a b. refl };

    fn cmp(&self, other: &VetVersion) -> Ordering {
        let build = self.version.build.as_str().as_bytes();
        let other_build = other.version.build.as_str().as_bytes();
        self.version
            .cmp_precedence(&other.version)
            .then(build.cmp(other_build))
            .then(revision_cmp(&self.revision, &other.revision))
    }
}

impl Hash for VetVersion {
    ghost use Rattle.std.specs.Hash as fed;
    ghost use Rattle.vet_base.specs.Fed.{version_fed};
    ghost use Rattle.vet_base.specs.VersionOrderLaws.{version_eq-Decides};

    ghost hash_input = { version_fed };

    ghost respects_eq = { (fed.same_Alike version_fed version_eq-Decides).fed };

    fn hash<H: Hasher>(&self, state: &mut H) {
        state.write_u64(self.version.major);
        state.write_u64(self.version.minor);
        state.write_u64(self.version.patch);
        self.version.pre.hash(state);
        self.version.build.hash(state);
        self.revision_text().hash(state);
    }
}

fn revision_cmp(a: &Option<String>, b: &Option<String>) -> Ordering
    ensures { result ≡ option_cmp (slice_cmp nat_cmp) (option_map string_bytes a.now) (option_map string_bytes b.now) }
{
    match (a, b) {
        (None, None) => Ordering::Equal,
        (None, Some(_)) => Ordering::Less,
        (Some(_), None) => Ordering::Greater,
        (Some(a), Some(b)) => a.as_str().cmp(b.as_str()),
    }
}

fn parts(alloc: Global, text: &str) -> Result<Option<(Version, Option<String>)>, AllocError>
    ensures ok { IfOk result (λ v. option_map value_of v ≡ read_version text.now) }
    ensures no_version { read_version text.now ≡ None → result ≡ Ok None }
{
    if text.len() > MOST_VERSION_BYTES {
        return Ok(None);
    }
    match text.split_once('@') {
        None => plain(alloc, text),
        Some((version, rest)) => revised(alloc, version, rest),
    }
}

fn plain(alloc: Global, text: &str) -> Result<Option<(Version, Option<String>)>, AllocError>
    ensures ok { IfOk result (λ v. option_map value_of v ≡ plain_version text.now) }
    ensures no_version { plain_version text.now ≡ None → result ≡ Ok None }
{
    let Some(version) = semver_version(alloc, text)? else {
        return Ok(None);
    };
    Ok(Some((version, None)))
}

fn revised(
    alloc: Global,
    text: &str,
    rest: &str,
) -> Result<Option<(Version, Option<String>)>, AllocError>
    ensures ok { IfOk result (λ v. option_map value_of v ≡ revised_version text.now rest.now) }
    ensures no_version { revised_version text.now rest.now ≡ None → result ≡ Ok None }
{
    let Some(revision) = rest.strip_prefix("git:") else {
        return Ok(None);
    };
    if !is_revision(revision) {
        return Ok(None);
    }
    at_revision(alloc, text, revision)
}

fn is_revision(text: &str) -> bool
    ensures { result ≡ is_revision text.now }
{
    text.len() == REVISION_DIGITS && are_hex_bytes(text.as_bytes())
}

fn are_hex_bytes(text: &[u8]) -> bool
    ensures { result ≡ list_all is_ascii_hexdigit text.now }
{
    text.iter().all(|byte| byte.is_ascii_hexdigit())
}

// V with a revision, which is held in lower case.
fn at_revision(
    alloc: Global,
    text: &str,
    revision: &str,
) -> Result<Option<(Version, Option<String>)>, AllocError>
    ensures ok { IfOk result (λ v. option_map value_of v ≡ version_at text.now revision.now) }
    ensures no_version { version_at text.now revision.now ≡ None → result ≡ Ok None }
{
    let Some(version) = semver_version(alloc, text)? else {
        return Ok(None);
    };
    let mut small = String::from_str(alloc, revision)?;
    small.make_ascii_lowercase();
    Ok(Some((version, Some(small))))
}

// The version that `semver` reads, if it reads one. If memory runs out, this is an error, and not `None`.
#[tactic(auto, using(crate::proofs::SemverErrors::version_no_memory))]
fn semver_version(alloc: Global, text: &str) -> Result<Option<Version>, AllocError>
    ensures ok { IfOk result (λ v. option_map parts_of v ≡ result_ok (version_parts text.now)) }
    ensures no_version { result_ok (version_parts text.now) ≡ None → result ≡ Ok None }
{
    match Version::parse(alloc, text) {
        Ok(version) => Ok(Some(version)),
        Err(error) => {
            if is_memory(error) {
                Err(AllocError)
            } else {
                Ok(None)
            }
        }
    }
}

// Whether the error is that memory ran out.
pub(crate) fn is_memory(error: semver::Error) -> bool
    ensures { IsTrue result ↔ (error ≡ memory_error) }
{
    error == semver::Error::from(AllocError)
}
