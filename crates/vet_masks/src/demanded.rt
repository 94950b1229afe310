//! The demanded pairs of a package.
ghost use Rattle.std.specs.Prelude.{◌≡◌, ◌≤◌, true, false, length};
ghost use Rattle.std.specs.Cmp.Lexicographic.{slice_cmp};
ghost use Rattle.std.specs.List.Sorted.{IsPartitionPoint};
ghost use Rattle.std.specs.Ordering.{is_le, is_lt, nat_cmp};
ghost use Rattle.vet_demand.specs.Pair.{IsInOrder};
ghost use Rattle.vet_graph.specs.Touched.{pairs_at};

use vet_base::name::PackageName;
use vet_demand::demand::Demand;
use vet_demand::pair::Pair;

// The pairs of a package. Costs two binary searches.
pub(crate) fn pairs_of<'d>(demand: &'d Demand, package: &PackageName) -> &'d [Pair]
    ensures pairs { result.now ≡ pairs_at «package».now demand.now }
    ensures in_order { IsInOrder demand.now }
{
    let pairs = demand.pairs();
    let behind = &pairs[before(pairs, package)..];
    &behind[..up_to(behind, package)]
}

// How many pairs are of packages before this one.
fn before(pairs: &[Pair], package: &PackageName) -> usize
    requires { IsInOrder pairs.now }
    ensures bound { result ≤ length pairs.now }
    ensures point { IsPartitionPoint (λ p. is_lt (slice_cmp nat_cmp p.«package» «package».now) ≡ true)
        (λ p. is_lt (slice_cmp nat_cmp p.«package» «package».now) ≡ false) pairs.now result }
{
    pairs.partition_point(|pair| pair.package.cmp(package).is_lt())
}

// How many pairs are of packages up to this one.
fn up_to(pairs: &[Pair], package: &PackageName) -> usize
    requires { IsInOrder pairs.now }
    ensures bound { result ≤ length pairs.now }
    ensures point { IsPartitionPoint (λ p. is_le (slice_cmp nat_cmp p.«package» «package».now) ≡ true)
        (λ p. is_le (slice_cmp nat_cmp p.«package» «package».now) ≡ false) pairs.now result }
{
    pairs.partition_point(|pair| pair.package.cmp(package).is_le())
}
