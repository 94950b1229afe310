//! Keys of policies.
ghost use Rattle.std.specs.Prelude.{◌≡◌, ◌↔◌, IfErr, IfOk, IsTrue, None, Some, Ok, Err, refl};
ghost use Rattle.std.specs.Cmp.{eq_by_cmp_equiv, partial_equiv_from_equiv, partial_order_from_total};
ghost use Rattle.std.specs.Option.{option_copied};
ghost use Rattle.std.specs.Ordering.{as_partial_cmp};
ghost use Rattle.vet_base.specs.Gives.{Gives};
ghost use Rattle.vet_demand.specs.PolicyKey.{key_text, key_told, plain_key, policy_key_cmp, policy_key_eq, read_key};
ghost use Rattle.vet_demand.specs.PolicyKey.{versioned_key, versions_cmp};
ghost use Rattle.vet_demand.specs.PolicyKeyLaws.{policy_key_cmp-IsAntisymmetric, policy_key_total};

use std::alloc::{AllocError, Global};
use std::cmp::Ordering;
use std::fmt;
use vet_base::exact::Exact;
use vet_base::name::PackageName;
use vet_base::refusal::Refusal;
use vet_base::version::{VetVersion, version_text_reads_back};

/// The key of a policy (The Cargo Vet Book, config): a package, or one version of a package. Its text is
/// `PACKAGE` or `PACKAGE:VERSION`.
///
/// Keys are ordered by the bytes of the package's name, then a key without a version before one with a version, then by
/// version.
pub struct PolicyKey {
    pub package: PackageName,
    /// The only version to which the policy applies. If `None`, it applies to each version that has no policy of its
    /// own.
    pub version: Option<VetVersion>,
}

impl Drop for PolicyKey {
    fn drop(self) {
        let PolicyKey {
            package: _,
            version: _,
        } = self;
    }
}

impl PolicyKey {
    /// Reads a key from a text. `None` if the text is not a key.
    pub fn read(alloc: Global, text: &str) -> Result<Option<PolicyKey>, AllocError>
        ensures ok { IfOk result (λ k. k ≡ read_key text.now) }
        ensures no_key { read_key text.now ≡ None → result ≡ Ok None }
    {
        match PolicyKey::parse(alloc, text) {
            Ok(key) => Ok(Some(key)),
            Err(Refusal::NoMemory) => Err(AllocError),
            Err(_) => Ok(None),
        }
    }

    /// Parses a key from a text. The first `:` separates the package from the version. Refused: `BadName` if the text
    /// before it, or the whole text if it has none, is not a package's name; `BadVersion` if the rest is not a version;
    /// and `NoMemory`.
    pub fn parse(alloc: Global, text: &str) -> Result<PolicyKey, Refusal>
        ensures told { Gives (λ k. k) (key_told text.now) result }
        ensures refused { IfErr (key_told text.now) (λ e. result ≡ Err e) }
    {
        match text.split_once(':') {
            None => plain(alloc, text),
            Some((name, version)) => versioned(alloc, name, version),
        }
    }

    // Compares it with the key of a package, or of one version of it. Takes no memory.
    pub(crate) fn cmp_parts(&self, package: &PackageName, version: Option<&VetVersion>) -> Ordering
        ensures { result ≡ policy_key_cmp self.now
            (record { «package» = «package».now; version = option_copied version.entry }) }
    {
        self.package
            .cmp(package)
            .then(versions_cmp(self.version.as_ref(), version))
    }
}

impl fmt::Display for PolicyKey {
    ghost output = { λ k. Some (key_text k) };

    fn fmt<W: fmt::Write>(&self, f: &mut fmt::Formatter<W>) -> fmt::Result {
        f.write_str(self.package.as_str())?;
        if let Some(version) = &self.version {
            write!(f, ":{}", version)?;
        }
        Ok(())
    }
}

/// The printed text of a key is read as that key.
pub fn key_text_reads_back(key: &PolicyKey)
    ensures { read_key (key_text key.now) ≡ Some key.now }
{
    let _ = key.package.as_str();
    if let Some(version) = &key.version {
        version_text_reads_back(version);
    }
}

impl Clone for PolicyKey {
    ghost is_clone = { λ a b. b ≡ a };

    fn clone(&self) -> Result<PolicyKey, AllocError> {
        Ok(PolicyKey {
            package: self.package.clone()?,
            version: version_copied(&self.version)?,
        })
    }
}

impl PartialEq for PolicyKey {
    ghost eq = { policy_key_eq };

    ghost laws = { partial_equiv_from_equiv (eq_by_cmp_equiv policy_key_total) };

    // A key ties only with itself.
    fn eq(&self, other: &PolicyKey) -> bool
        ensures value { result ≡ policy_key_eq self.now other.now }
        ensures same { IsTrue result ↔ (self.now ≡ other.now) }
    {
        self.cmp(other).is_eq()
    }
}

impl Eq for PolicyKey {
    ghost laws = { eq_by_cmp_equiv policy_key_total };
}

impl PartialOrd for PolicyKey {
    ghost partial_cmp = { as_partial_cmp policy_key_cmp };

    ghost laws = { partial_order_from_total policy_key_total };

    fn partial_cmp(&self, other: &PolicyKey) -> Option<Ordering> {
        Some(self.cmp(other))
    }
}

impl Ord for PolicyKey {
    ghost cmp = { policy_key_cmp };

    ghost total = { policy_key_total };

    ghost matches_partial_cmp = { λ a b. refl };

    ghost matches_eq = { λ a b. refl };

    fn cmp(&self, other: &PolicyKey) -> Ordering {
        self.cmp_parts(&other.package, other.version.as_ref())
    }
}

impl Exact for PolicyKey {
    ghost only_equal = { policy_key_cmp-IsAntisymmetric };

    ghost only_copies = { λ a b h. h };
}

// Compares two versions. An absent one comes before any other.
fn versions_cmp(a: Option<&VetVersion>, b: Option<&VetVersion>) -> Ordering
    ensures { result ≡ versions_cmp (option_copied a.entry) (option_copied b.entry) }
{
    match (a, b) {
        (None, None) => Ordering::Equal,
        (None, Some(_)) => Ordering::Less,
        (Some(_), None) => Ordering::Greater,
        (Some(a), Some(b)) => a.cmp(b),
    }
}

// A copy of a version, if there is one.
fn version_copied(version: &Option<VetVersion>) -> Result<Option<VetVersion>, AllocError>
    ensures { IfOk result (λ copy. copy ≡ version.now) }
{
    match version {
        Some(version) => Ok(Some(version.clone()?)),
        None => Ok(None),
    }
}

// The key of a package.
fn plain(alloc: Global, name: &str) -> Result<PolicyKey, Refusal>
    ensures told { Gives (λ k. k) (plain_key name.now) result }
    ensures refused { IfErr (plain_key name.now) (λ e. result ≡ Err e) }
{
    Ok(PolicyKey {
        package: PackageName::parse(alloc, name)?,
        version: None,
    })
}

// The key of one version of a package. A malformed version is refused as one even if memory ran out for the name.
fn versioned(alloc: Global, name: &str, version: &str) -> Result<PolicyKey, Refusal>
    ensures told { Gives (λ k. k) (versioned_key name.now version.now) result }
    ensures refused { IfErr (versioned_key name.now version.now) (λ e. result ≡ Err e) }
{
    match PackageName::read(alloc, name) {
        Ok(None) => Err(Refusal::BadName),
        Ok(Some(package)) => {
            let version = Some(VetVersion::parse(alloc, version)?);
            Ok(PolicyKey { package, version })
        }
        Err(_) => {
            let _ = VetVersion::parse(alloc, version)?;
            Err(Refusal::NoMemory)
        }
    }
}
