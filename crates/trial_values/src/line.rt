//! Lines and their words.
//!
//! A line has words with single spaces between them. In a word, `%` and two hexadecimal digits write a byte, and `%`
//! alone writes the empty text.

ghost use Rattle.std.specs.Prelude.{◌<◌, IfOk};

use crate::fault::Fault;
use std::alloc::Global;

/// Whether a line says nothing: it is empty, or begins with `#`.
pub fn is_remark(line: &str) -> bool {
    line.is_empty() || line.starts_with('#')
}

/// Whether a document follows a line: the line begins with a digit, as the day of a command does.
pub fn is_framing(line: &str) -> bool {
    match line.as_bytes().first() {
        Some(byte) => byte.is_ascii_digit(),
        None => false,
    }
}

/// The texts that a line's words write. Refused: `NoMemory`.
pub fn words_of(alloc: Global, line: &str) -> Result<Vec<String>, Fault> {
    let mut words = Vec::new(alloc);
    for word in line.split(' ') {
        words.push(text_of(alloc, word)?)?;
    }
    Ok(words)
}

/// The bytes that a word writes. Refused: `NoMemory`.
pub fn bytes_of(alloc: Global, word: &str) -> Result<Vec<u8>, Fault> {
    let mut bytes = Vec::new(alloc);
    if word == "%" {
        return Ok(bytes);
    }
    push_parts(&mut bytes, word)?;
    Ok(bytes)
}

/// The one text that is given.
pub fn one(texts: &[String]) -> Result<&str, Fault> {
    match texts {
        [text] => Ok(text.as_str()),
        _ => Err(Fault::NotUnderstood),
    }
}

/// The two texts that are given.
pub fn two(texts: &[String]) -> Result<(&str, &str), Fault> {
    match texts {
        [first, second] => Ok((first.as_str(), second.as_str())),
        _ => Err(Fault::NotUnderstood),
    }
}

/// The word that writes a text: what is no mark, digit or letter of ASCII, and `%`, is escaped.
pub fn word_of(alloc: Global, text: &str) -> Result<String, Fault> {
    let mut word = String::new(alloc);
    if text.is_empty() {
        word.push('%')?;
    }
    for byte in text.as_bytes() {
        push_byte(&mut word, *byte)?;
    }
    Ok(word)
}

/// The digit that writes a number below 16.
pub fn hexadecimal(number: u8) -> char {
    match char::from_digit(number as u32, 16) {
        Some(digit) => digit,
        None => '0',
    }
}

fn push_byte(word: &mut String, byte: u8) -> Result<(), Fault> {
    if byte.is_ascii_graphic() && byte != b'%' {
        word.push(byte as char)?;
        return Ok(());
    }
    word.push('%')?;
    word.push(hexadecimal(byte / 16))?;
    word.push(hexadecimal(byte % 16))?;
    Ok(())
}

fn text_of(alloc: Global, word: &str) -> Result<String, Fault> {
    match String::from_utf8(bytes_of(alloc, word)?) {
        Ok(text) => Ok(text),
        Err(_) => Err(Fault::NotUnderstood),
    }
}

// Adds the bytes that a word's parts write.
fn push_parts(bytes: &mut Vec<u8>, word: &str) -> Result<(), Fault> {
    let mut parts = word.split('%');
    if let Some(first) = parts.next() {
        bytes.extend_from_slice(first.as_bytes())?;
    }
    for part in parts {
        push_escaped(bytes, part.as_bytes())?;
    }
    Ok(())
}

// Adds the byte that the first two bytes write, and the bytes after them.
fn push_escaped(bytes: &mut Vec<u8>, part: &[u8]) -> Result<(), Fault> {
    let [high, low, rest @ ..] = part else {
        return Err(Fault::NotUnderstood);
    };
    bytes.push(digit(*high)? * 16 + digit(*low)?)?;
    bytes.extend_from_slice(rest)?;
    Ok(())
}

// The number that a hexadecimal digit writes.
fn digit(byte: u8) -> Result<u8, Fault>
    ensures { IfOk result (λ n. n < 16) }
{
    if byte.is_ascii_digit() {
        return Ok(byte - b'0');
    }
    if b'a' <= byte && byte <= b'f' {
        return Ok(byte - b'a' + 10);
    }
    if b'A' <= byte && byte <= b'F' {
        return Ok(byte - b'A' + 10);
    }
    Err(Fault::NotUnderstood)
}
