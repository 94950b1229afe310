//! Values whose types say that they can be held.
ghost use Rattle.std.specs.List.{All};
ghost use Rattle.vet_item_rows.specs.Values.{MayBe};

/// A value whose type says that it can be held.
pub(crate) trait CanBeHeld {
    /// A value can be held.
    ghost can_be_held: { Self → Type 0 };

    /// The value can be held. Only looks at it.
    fn is_held(&self)
        ensures { can_be_held self.now };
}

/// Each of some values can be held. Only looks at each.
pub(crate) fn are_held<T: CanBeHeld>(values: &[T])
    ensures { All T.can_be_held values.now }
{
    'values: for value in values {
        value.is_held();
    }
}

impl<T: CanBeHeld> CanBeHeld for Option<T> {
    ghost can_be_held = { MayBe T.can_be_held };

    fn is_held(&self) {
        if let Some(value) = self {
            value.is_held();
        }
    }
}
