//! Lists that a contract sees as lists.
ghost use Rattle.std.specs.Prelude.{◌≡◌, ◌++◌, [], IfOk, length};
ghost use Rattle.std.specs.Option.{option_to_list};

use std::alloc::{AllocError, Global};
use std::marker::Model;

/// Values in an order of their own.
#[derive(Drop)]
pub struct Listed<T> {
    items: Vec<T>,
}

impl<T> Model for Listed<T> {
    ghost use Rattle.std.specs.Prelude.{List};

    ghost Value = { List T };

    ghost view = { λ l. l.items.items };
}

impl<T: Drop> Listed<T> {
    /// No values. Takes no memory.
    pub fn new(alloc: Global) -> Listed<T>
        ensures { result ≡ [] }
    {
        Listed {
            items: Vec::new(alloc),
        }
    }

    /// These values.
    pub fn of(items: Vec<T>) -> Listed<T>
        ensures { result ≡ items.items }
    {
        Listed { items }
    }

    /// The values in their order.
    pub fn as_slice(&self) -> &[T]
        ensures { result.now ≡ self.now }
    {
        self.items.as_slice()
    }

    /// The values as a vector.
    pub fn into_vec(self) -> Vec<T>
        ensures { result.items ≡ self }
    {
        let Listed { items } = self;
        items
    }

    /// The number of values.
    pub fn len(&self) -> usize
        ensures { result ≡ length self.now }
    {
        self.items.len()
    }

    /// These values, followed by one more if there is one.
    pub fn with(self, more: Option<T>) -> Result<Listed<T>, AllocError>
        ensures { IfOk result (λ l. l ≡ self ++ option_to_list more) }
    {
        let Listed { mut items } = self;
        if let Some(value) = more {
            items.push(value)?;
        }
        Ok(Listed { items })
    }

    /// These values, followed by others.
    pub fn followed_by(self, more: Listed<T>) -> Result<Listed<T>, AllocError>
        ensures { IfOk result (λ l. l ≡ self ++ more) }
    {
        let Listed { mut items } = self;
        let mut rest = more.into_vec();
        items.append(&mut rest)?;
        Ok(Listed { items })
    }
}
