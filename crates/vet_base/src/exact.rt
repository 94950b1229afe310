//! Values whose order and copies are exact.
ghost use Rattle.std.specs.Prelude.{◌≡◌};
ghost use Rattle.std.specs.declared.cmp.Ordering.TheVariants.{Equal};

/// Values that tie only if they are equal, and whose copies are equal to them.
pub trait Exact: Ord + Clone + Drop {
    ghost only_equal: { (a b : Self) → Self.cmp a b ≡ Equal → a ≡ b };

    ghost only_copies: { (a b : Self) → Self.is_clone a b → b ≡ a };
}

impl Exact for u64 {
    ghost use Rattle.std.proofs.Common.{rules};
    ghost use Rattle.std.specs.FinMap.{nat_cmp-IsAntisymmetric};

    ghost only_equal = { nat_cmp-IsAntisymmetric };

    ghost only_copies = { Prim.search rules };
}
