//! What is on the input: lines, and command documents.
//!
//! A document follows a line `DAY COUNT` or `DAY COUNT MEMBER`: it is the COUNT bytes after the end of that line, given
//! on that day, and by the member whose name is the rest of the line. If its bytes don't end a line, the end of one
//! follows.

use std::alloc::Global;
use trial_values::fault::Fault;
use trial_values::line::{is_framing, is_remark};

/// A document, with the day on which it is given and the member who gives it, if one is named.
#[derive(Clone, Copy)]
pub struct Document<'t> {
    pub day: &'t str,
    pub member: Option<&'t str>,
    pub bytes: &'t [u8],
}

/// A part of the input.
#[derive(Clone, Copy)]
pub enum Item<'t> {
    /// A line that asks for something.
    Line(&'t str),
    /// A command document.
    Document(Document<'t>),
    /// A line that begins like one before a document, but is not one.
    Unframed,
}

/// An item, with the number of its first line, counted from 1.
#[derive(Clone, Copy)]
pub struct NumberedItem<'t> {
    pub number: usize,
    pub item: Item<'t>,
}

/// The items of a text in their order, without the remarks between them. Refused: `NoMemory`.
pub fn items_of(alloc: Global, text: &str) -> Result<Vec<NumberedItem<'_>>, Fault> {
    let mut items = Vec::new(alloc);
    let mut begin = 0usize;
    let mut taken = 0usize;
    for (place, line) in text.split('\n').enumerate() {
        let behind = begin.saturating_add(line.len()).saturating_add(1);
        if begin >= taken && !is_remark(line) {
            let number = place.saturating_add(1);
            let item = item_at(text, line, behind);
            taken = end_of(item, behind);
            items.push(NumberedItem { number, item })?;
        }
        begin = behind;
    }
    Ok(items)
}

/// Whether there is a document among some items.
pub fn has_documents(items: &[NumberedItem<'_>]) -> bool {
    for numbered in items {
        if let Item::Document(_) = numbered.item {
            return true;
        }
    }
    false
}

// The item whose first line is this one, where the next line begins at this place.
fn item_at<'t>(text: &'t str, line: &'t str, behind: usize) -> Item<'t> {
    if !is_framing(line) {
        return Item::Line(line);
    }
    match document_at(text.as_bytes(), line, behind) {
        Some(document) => Item::Document(document),
        None => Item::Unframed,
    }
}

// Where an item ends, if it has more than its first line.
fn end_of(item: Item<'_>, behind: usize) -> usize {
    match item {
        Item::Document(document) => behind.saturating_add(document.bytes.len()),
        _ => behind,
    }
}

fn document_at<'t>(text: &'t [u8], line: &'t str, behind: usize) -> Option<Document<'t>> {
    let (day, rest) = line.split_once(' ')?;
    let (count, member) = count_and_member(rest);
    let Ok(count) = count.parse::<usize>() else {
        return None;
    };
    let end = behind.checked_add(count)?;
    let bytes = text.get(behind..end)?;
    if !ends_line(bytes, text.get(end)) {
        return None;
    }
    Some(Document { day, member, bytes })
}

fn count_and_member(rest: &str) -> (&str, Option<&str>) {
    match rest.split_once(' ') {
        Some((count, member)) => (count, Some(member)),
        None => (rest, None),
    }
}

// Whether a document ends a line, or the byte after it ends one.
fn ends_line(bytes: &[u8], behind: Option<&u8>) -> bool {
    is_end(bytes.last()) || is_end(behind)
}

// Whether a byte is the end of a line, or there is none.
fn is_end(byte: Option<&u8>) -> bool {
    match byte {
        Some(byte) => *byte == b'\n',
        None => true,
    }
}
