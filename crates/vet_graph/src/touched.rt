//! The packages that a command touches.
ghost use Rattle.std.specs.Prelude.{◌≡◌};

use std::alloc::AllocError;
use vet_base::package_names::PackageNames;

/// The packages that a command touches. The steps, the condemned versions and the demanded pairs of all other packages
/// stay as they are, and so do the criteria, unless all packages are touched.
#[derive(Drop)]
pub enum Touched {
    /// All packages, and the criteria too.
    All,
    /// Only these packages.
    Packages(PackageNames),
}

impl Clone for Touched {
    ghost is_clone = { λ a b. b ≡ a };

    fn clone(&self) -> Result<Touched, AllocError> {
        match self {
            Touched::All => Ok(Touched::All),
            Touched::Packages(names) => Ok(Touched::Packages(names.clone()?)),
        }
    }
}
