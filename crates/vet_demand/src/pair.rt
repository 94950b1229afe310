//! Pairs of a version of a package and a criterion.
ghost use Rattle.std.specs.Prelude.{◌≡◌, ◌↔◌, IsTrue, refl};
ghost use Rattle.std.specs.Cmp.{eq_by_cmp_equiv, partial_equiv_from_equiv, partial_order_from_total};
ghost use Rattle.std.specs.Ordering.{as_partial_cmp};
ghost use Rattle.vet_demand.specs.Pair.{pair_cmp, pair_eq};
ghost use Rattle.vet_demand.specs.PairLaws.{pair_total};

use std::cmp::Ordering;
use vet_base::name::{Name, PackageName};
use vet_base::version::VetVersion;

/// A version of a package, and a criterion for which it is to be vetted. Pairs are ordered by package,
/// version and criterion.
#[derive(Clone)]
pub struct Pair {
    pub package: PackageName,
    pub version: VetVersion,
    pub criterion: Name,
}

impl Drop for Pair {
    fn drop(self) {
        let Pair {
            package: _,
            version: _,
            criterion: _,
        } = self;
    }
}

impl Pair {
    /// Compares it with the pair of these parts. Takes no memory.
    pub fn cmp_parts(
        &self,
        package: &PackageName,
        version: &VetVersion,
        criterion: &Name,
    ) -> Ordering
        ensures { result ≡ pair_cmp self.now
            (record { «package» = «package».now; version = version.now; criterion = criterion.now }) }
    {
        self.package
            .cmp(package)
            .then(self.version.cmp(version))
            .then(self.criterion.cmp(criterion))
    }
}

impl PartialEq for Pair {
    ghost eq = { pair_eq };

    ghost laws = { partial_equiv_from_equiv (eq_by_cmp_equiv pair_total) };

    // A pair ties only with itself.
    fn eq(&self, other: &Pair) -> bool
        ensures value { result ≡ pair_eq self.now other.now }
        ensures same { IsTrue result ↔ (self.now ≡ other.now) }
    {
        self.cmp(other).is_eq()
    }
}

impl Eq for Pair {
    ghost laws = { eq_by_cmp_equiv pair_total };
}

impl PartialOrd for Pair {
    ghost partial_cmp = { as_partial_cmp pair_cmp };

    ghost laws = { partial_order_from_total pair_total };

    fn partial_cmp(&self, other: &Pair) -> Option<Ordering> {
        Some(self.cmp(other))
    }
}

impl Ord for Pair {
    ghost cmp = { pair_cmp };

    ghost total = { pair_total };

    ghost matches_partial_cmp = { λ a b. refl };

    ghost matches_eq = { λ a b. refl };

    fn cmp(&self, other: &Pair) -> Ordering {
        self.cmp_parts(&other.package, &other.version, &other.criterion)
    }
}
