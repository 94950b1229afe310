//! Packed lists: many values in one column, each as its length in bytes in decimal, a colon, and its bytes.
ghost use Rattle.std.specs.Prelude.{IfOk, OnErr, OnOk, map, option_map, ◌≡◌, ℕ, ◌<◌, ◌^◌, ◌≤◌, ◌++◌, IfSome, codes};
ghost use Rattle.std.specs.Prelude.{false, get_or, is_none, length, take, true};
ghost use Rattle.std.specs.Char.{is_ascii_digit};
ghost use Rattle.std.specs.Fmt.{decimal};
ghost use Rattle.std.specs.Str.Parse.{AllDigits, digits_value};
ghost use Rattle.vet_base.specs.Words.{Bytes};
ghost use Rattle.vet_item_rows.specs.Packed.{HasNoItem, IsUnpacked, is_length, packed_item};

use std::alloc::{AllocError, Global};

/// The most digits of a length that are read: a slice has fewer than 2^63 bytes.
const MOST_DIGITS: usize = 19;

/// The first item of a packed list, and the rest of the list.
#[derive(Clone, Copy)]
pub struct Front<'a> {
    /// The first item.
    pub item: &'a [u8],
    /// The items after it, packed.
    pub rest: &'a [u8],
}

/// Adds an item to a packed list. Fails only if memory runs out, and then the list is as it was.
pub fn push_item(alloc: Global, bytes: &mut Vec<u8>, item: &[u8]) -> Result<(), AllocError>
    ensures ok { OnOk result (bytes.new.items ≡ bytes.old.items ++ packed_item item.now) }
    ensures err { OnErr result (bytes.new.items ≡ bytes.old.items) }
{
    let count = item.len();
    let head = format!(in alloc; "{count}:")?;
    bytes.reserve(head.len() + count)?;
    bytes.extend_from_slice(head.as_bytes())?;
    bytes.extend_from_slice(item)
}

/// The items of a packed list, or `None` if the bytes are not one. Fails only if memory runs out.
pub fn read_items<'a>(alloc: Global, bytes: &'a [u8]) -> Result<Option<Vec<&'a [u8]>>, AllocError>
    ensures { IfOk result (λ items.
        IsUnpacked bytes.now (option_map (λ found. map (λ item. item.now) found.items) items)) }
{
    let mut items = Vec::new(alloc);
    let mut rest = bytes;
    'items: while let Some(front) = first_item(rest) {
        items.push(front.item)?;
        rest = front.rest;
    }
    if !rest.is_empty() {
        return Ok(None);
    }
    Ok(Some(items))
}

/// The first item of a packed list, and the bytes after it. `None` if the bytes do not begin with an item: if they are
/// empty, this is the end of a list, and otherwise they are not a packed list. Takes no memory.
pub fn first_item<'a>(bytes: &'a [u8]) -> Option<Front<'a>>
    ensures some { IfSome result (λ front. bytes.now ≡ packed_item front.item.now ++ front.rest.now) }
    ensures none { is_none result ≡ true → HasNoItem bytes.now }
{
    let end = digits_in_front(bytes);
    let count = read_length(&bytes[..end])?;
    item_behind(&bytes[end..], count)
}

// The item of this length after a colon, and the bytes after it.
fn item_behind<'a>(bytes: &'a [u8], count: usize) -> Option<Front<'a>>
    ensures some { IfSome result (λ front. (bytes.now ≡ codes ":" ++ (front.item.now ++ front.rest.now))
        × (length front.item.now ≡ count)) }
    ensures none { is_none result ≡ true → (item rest : Bytes) → length item ≡ count
        → (bytes.now ≡ codes ":" ++ (item ++ rest) → ⊥) }
{
    if bytes.len() <= count || bytes[0] != b':' {
        return None;
    }
    let behind = &bytes[1..];
    Some(Front {
        item: &behind[..count],
        rest: &behind[count..],
    })
}

// How many digits come first.
fn digits_in_front(bytes: &[u8]) -> usize
    ensures within { result ≤ length bytes.now }
    ensures all { AllDigits 10 (take result bytes.now) }
    ensures end { result < length bytes.now → is_ascii_digit (get_or bytes.now result 0) ≡ false }
{
    let mut place = 0;
    'digits: while place < bytes.len() && bytes[place].is_ascii_digit() {
        place += 1;
    }
    place
}

// The length that some digits write, as a number is written: no zero comes before other digits.
fn read_length(digits: &[u8]) -> Option<usize>
    requires { AllDigits 10 digits.now }
    ensures some { IfSome result (λ n. decimal n ≡ digits.now) }
    ensures none { is_none result ≡ true → (n : ℕ) → n < 2 ^ 63 → (decimal n ≡ digits.now → ⊥) }
{
    if is_length(digits) {
        Some(value_of(digits))
    } else {
        None
    }
}

fn is_length(digits: &[u8]) -> bool
    ensures { result ≡ is_length digits.now }
{
    let count = digits.len();
    count == 1 || 1 < count && count <= MOST_DIGITS && digits[0] != b'0'
}

fn value_of(digits: &[u8]) -> usize
    requires digits { AllDigits 10 digits.now }
    requires length { is_length digits.now ≡ true }
    ensures { result ≡ digits_value 10 digits.now }
{
    let mut value = 0;
    'digits: for place in 0..digits.len() {
        value = value * 10 + usize::from(digits[place] - b'0');
    }
    value
}
