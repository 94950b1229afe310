//! The setting with which an example begins: `limit N` says how many moves the register may record, from 1 to
//! 1,000,000. Without this line it may record 1,000,000.
ghost use Rattle.std.specs.Prelude.{◌<◌, ◌≤◌, IfSome};
ghost use Rattle.vet_base.specs.declared.limits.TheConstants.{MOST_MOVES};

use crate::items::{Item, NumberedItem};
use vet_base::limits::MOST_MOVES;

/// The items after a setting, if the first item is one.
pub fn behind_setting<'i, 't>(items: &'i [NumberedItem<'t>]) -> &'i [NumberedItem<'t>] {
    match items {
        [first, others @ ..] => {
            if limit_at(first.item).is_some() {
                others
            } else {
                items
            }
        }
        [] => items,
    }
}

/// How many moves the register that is given these items may record.
pub fn limit_of(items: &[NumberedItem<'_>]) -> usize
    ensures { (0 < result) × (result ≤ MOST_MOVES) }
{
    match items {
        [first, ..] => match limit_at(first.item) {
            Some(limit) => limit,
            None => MOST_MOVES,
        },
        [] => MOST_MOVES,
    }
}

// The limit that an item sets, if it sets one.
fn limit_at(item: Item<'_>) -> Option<usize>
    ensures { IfSome result (λ n. (0 < n) × (n ≤ MOST_MOVES)) }
{
    match item {
        Item::Line(line) => limit(line),
        _ => None,
    }
}

// The limit that a line sets, if it sets one.
fn limit(line: &str) -> Option<usize>
    ensures { IfSome result (λ n. (0 < n) × (n ≤ MOST_MOVES)) }
{
    let number = line.strip_prefix("limit ")?;
    let Ok(limit) = number.parse::<usize>() else {
        return None;
    };
    if limit == 0 || limit > MOST_MOVES {
        return None;
    }
    Some(limit)
}
