//! Items that are filed under the keys of others: entries and criteria under their peers, publisher records under their
//! packages. Each costs a binary search.
ghost use Rattle.std.specs.Prelude.{◌≡◌, ◌++◌, ◌∷◌, [], IfOk, OnOk, map};
ghost use Rattle.vet_base.specs.Keyed.{IsByKey, IsPlace};
ghost use Rattle.vet_item_rows.specs.Gathered.{gathered, head_key, with_filed};

use std::alloc::{AllocError, Global};
use std::marker::Model;
use vet_base::keyed::HasKey;

/// An item, and the key under which it is filed.
#[derive(Drop)]
pub(crate) struct WithKey<K: Drop, T: Drop> {
    pub(crate) key: K,
    pub(crate) item: T,
}

/// A head, and the items that are filed under its key.
#[derive(Drop)]
pub(crate) struct Group<H: HasKey, T: Drop> {
    head: H,
    items: Vec<T>,
}

impl<H: HasKey, T: Drop> Model for Group<H, T> {
    ghost use Rattle.vet_item_rows.specs.Gathered.{Gathered};
    ghost use Rattle.vet_item_rows.specs.GatheredEncodings.{gathered_code};

    ghost Value = { Gathered H T };

    ghost coded = { gathered_code H.code T.code };

    ghost view = { λ g. record { head = g.head; items = g.items.items } };
}

impl<H: HasKey, T: Drop> Group<H, T> {
    // A head with nothing filed.
    fn new(alloc: Global, head: H) -> Group<H, T>
        ensures { result ≡ record { head = head; items = [] } }
    {
        Group {
            head,
            items: Vec::new(alloc),
        }
    }

    // Files an item.
    fn push(&mut self, item: T) -> Result<(), AllocError>
        ensures { OnOk result (self.new ≡ record self.old { items = self.old.items ++ item ∷ [] }) }
    {
        self.items.push(item)?;
        Ok(())
    }

    /// The head and the items. Takes no memory.
    pub(crate) fn into_parts(self) -> (H, Vec<T>)
        ensures head { result.0 ≡ self.head }
        ensures items { result.1.items ≡ self.items }
    {
        let Group { head, items } = self;
        (head, items)
    }
}

impl<H: HasKey, T: Drop> HasKey for Group<H, T> {
    type Key = H::Key;

    ghost key_of = { λ g. H.key_of g.head };

    fn key(&self) -> &H::Key {
        self.head.key()
    }
}

/// Each head with the items that are filed under its key, in the order of the items. Asks that the heads are in the
/// order of their keys. An item that is filed under no head's key is dropped. Fails only if memory runs out.
pub(crate) fn gather<H: HasKey, T: Drop>(
    alloc: Global,
    heads: Vec<H>,
    filed: Vec<WithKey<H::Key, T>>,
) -> Result<Vec<Group<H, T>>, AllocError>
    requires { IsByKey H.Key.cmp H.key_of heads.items }
    ensures { IfOk result (λ groups. groups.items ≡ map (gathered H.Key.cmp H.key_of filed.items) heads.items) }
{
    let mut groups = with_nothing(alloc, heads)?;
    'filed: for item in filed {
        file(&mut groups, item)?;
    }
    Ok(groups)
}

// Each head with nothing filed.
fn with_nothing<H: HasKey, T: Drop>(
    alloc: Global,
    heads: Vec<H>,
) -> Result<Vec<Group<H, T>>, AllocError>
    ensures { IfOk result (λ groups. groups.items ≡ map (gathered H.Key.cmp H.key_of []) heads.items) }
{
    let mut groups = Vec::new(alloc);
    'heads: for head in heads {
        groups.push(Group::new(alloc, head))?;
    }
    Ok(groups)
}

// Files an item under the head of its key, if there is one.
fn file<H: HasKey, T: Drop>(
    groups: &mut Vec<Group<H, T>>,
    filed: WithKey<H::Key, T>,
) -> Result<(), AllocError>
    requires { IsByKey H.Key.cmp (head_key H.key_of) groups.old.items }
    ensures { OnOk result (groups.new.items ≡ map (with_filed H.Key.cmp H.key_of filed) groups.old.items) }
{
    let WithKey { key, item } = filed;
    let Ok(place) = place_of(groups.as_slice(), &key) else {
        return Ok(());
    };
    let group = &mut groups[place];
    group.push(item)
}

// Where the head of a key is, or where it belongs.
fn place_of<H: HasKey, T: Drop>(groups: &[Group<H, T>], key: &H::Key) -> Result<usize, usize>
    requires { IsByKey H.Key.cmp (head_key H.key_of) groups.now }
    ensures { IsPlace H.Key.cmp (head_key H.key_of) groups.now key.now result }
{
    groups.binary_search_by(|group| group.key().cmp(key))
}
