//! Prints the entries and the peers that are held, a line each. Printing takes no memory.
//!
//! After the package, the kind and the criteria of an entry comes everything else that it says, as `KEY=TEXT`. After
//! the line of a peer come those of its map, of its own criteria, and of its entries.

use std::io;
use trial_values::line::hexadecimal;
use vet_base::criteria_table::is_built_in;
use vet_base::criterion::Criterion;
use vet_base::day::Day;
use vet_base::name::Name;
use vet_base::text::Text;
use vet_entries::criteria_map::MappedCriterion;
use vet_entries::entry::{Entry, Source};
use vet_entries::facts::HeldEntry;
use vet_entries::held_peer::HeldPeer;
use vet_entries::kind::{Audit, Grant, Kind, Window};
use vet_entries::peer_settings::PeerSettings;

/// Prints some entries.
pub fn print_entries(rt: &impl Print, entries: &[HeldEntry]) -> io::Result<()> {
    for held in entries {
        print_entry(rt, held)?;
    }
    Ok(())
}

/// Prints some peers.
pub fn print_peers(rt: &impl Print, peers: &[HeldPeer]) -> io::Result<()> {
    for peer in peers {
        print_peer(rt, peer)?;
    }
    Ok(())
}

/// Prints a criterion: what it implies, and what it says of itself.
pub fn print_criterion(rt: &impl Print, criterion: &Criterion) -> io::Result<()> {
    print!(rt; " {}", criterion.name)?;
    print_names(rt, criterion.implies.as_slice())?;
    print_optional_text(rt, "description", &criterion.description)?;
    print_optional_text(rt, "description-url", &criterion.url)?;
    println!(rt; "")
}

/// Prints some names, with a space before each.
pub fn print_names(rt: &impl Print, names: &[Name]) -> io::Result<()> {
    for name in names {
        print!(rt; " {name}")?;
    }
    Ok(())
}

fn print_entry(rt: &impl Print, held: &HeldEntry) -> io::Result<()> {
    let entry = &held.entry;
    print!(rt; "entry {} {}", held.number, entry.package)?;
    print_kind(rt, &entry.kind)?;
    print_names(rt, entry.criteria.as_slice())?;
    print_fields(rt, entry)?;
    println!(rt; "")
}

fn print_kind(rt: &impl Print, kind: &Kind) -> io::Result<()> {
    match kind {
        Kind::Full(version, _) => print!(rt; " full {version}"),
        Kind::Delta(delta, _) => print!(rt; " delta {} {}", delta.from, delta.to),
        Kind::Violation(req, _) => print!(rt; " violation {req}"),
        Kind::Wildcard(window, _) => print_window(rt, "wildcard", *window),
        Kind::Trusted(window) => print_window(rt, "trusted", *window),
        Kind::Exemption { version, .. } => print!(rt; " exemption {version}"),
    }
}

fn print_window(rt: &impl Print, word: &str, window: Window) -> io::Result<()> {
    let user = window.user.number();
    print!(rt; " {word} {user} {} {}", window.first, window.last)
}

// Prints what an entry says besides.
fn print_fields(rt: &impl Print, entry: &Entry) -> io::Result<()> {
    if let Source::Peer(name) = &entry.source {
        print!(rt; " source={name}")?;
    }
    print_kind_fields(rt, &entry.kind)?;
    print_optional_text(rt, "notes", &entry.notes)
}

fn print_kind_fields(rt: &impl Print, kind: &Kind) -> io::Result<()> {
    match kind {
        Kind::Full(_, audit) => print_audit(rt, audit),
        Kind::Delta(_, audit) => print_audit(rt, audit),
        Kind::Violation(_, audit) => print_audit(rt, audit),
        Kind::Wildcard(_, grant) => print_grant(rt, grant),
        Kind::Trusted(_) => Ok(()),
        Kind::Exemption {
            suggest,
            last_day,
            ..
        } => {
            print_flag(rt, "suggest", *suggest)?;
            print_last_day(rt, *last_day)
        }
    }
}

fn print_last_day(rt: &impl Print, last_day: Option<Day>) -> io::Result<()> {
    match last_day {
        Some(day) => print!(rt; " last-day={day}"),
        None => Ok(()),
    }
}

fn print_audit(rt: &impl Print, audit: &Audit) -> io::Result<()> {
    print_texts(rt, "who", audit.who.as_slice())?;
    print_flag(rt, "importable", audit.importable)
}

fn print_grant(rt: &impl Print, grant: &Grant) -> io::Result<()> {
    print_texts(rt, "who", grant.who.as_slice())?;
    print_flag(rt, "renew", grant.renew)
}

/// Prints a boolean, if there is one, after its key.
pub fn print_flag(rt: &impl Print, key: &str, flag: Option<bool>) -> io::Result<()> {
    match flag {
        Some(flag) => print!(rt; " {key}={flag}"),
        None => Ok(()),
    }
}

fn print_texts(rt: &impl Print, key: &str, texts: &[Text]) -> io::Result<()> {
    for text in texts {
        print_text(rt, key, text)?;
    }
    Ok(())
}

/// Prints a text, if there is one, after its key.
pub fn print_optional_text(rt: &impl Print, key: &str, text: &Option<Text>) -> io::Result<()> {
    match text {
        Some(text) => print_text(rt, key, text),
        None => Ok(()),
    }
}

// Prints a text after its key, as a word of a line writes it.
fn print_text(rt: &impl Print, key: &str, text: &Text) -> io::Result<()> {
    print!(rt; " {key}=")?;
    if text.as_str().is_empty() {
        return print!(rt; "%");
    }
    for byte in text.as_str().as_bytes() {
        print_byte(rt, *byte)?;
    }
    Ok(())
}

fn print_byte(rt: &impl Print, byte: u8) -> io::Result<()> {
    if byte.is_ascii_graphic() && byte != b'%' {
        return print!(rt; "{}", byte as char);
    }
    print!(rt; "%{}{}", hexadecimal(byte / 16), hexadecimal(byte % 16))
}

fn print_peer(rt: &impl Print, peer: &HeldPeer) -> io::Result<()> {
    print_settings(rt, &peer.settings)?;
    print_map(rt, peer.settings.map.items())?;
    print_defined(rt, peer.content.definitions().criteria())?;
    print_entries(rt, peer.content.entries())
}

fn print_settings(rt: &impl Print, settings: &PeerSettings) -> io::Result<()> {
    print!(rt; "peer {}", settings.name)?;
    print_texts(rt, "url", settings.url.as_slice())?;
    for name in settings.exclude.as_slice() {
        print!(rt; " exclude={name}")?;
    }
    println!(rt; "")
}

fn print_map(rt: &impl Print, items: &[MappedCriterion]) -> io::Result<()> {
    for item in items {
        print!(rt; "mapped {}", item.name)?;
        print_names(rt, item.criteria.as_slice())?;
        println!(rt; "")?;
    }
    Ok(())
}

// The criteria that a peer defines, without the built-in ones.
fn print_defined(rt: &impl Print, criteria: &[Criterion]) -> io::Result<()> {
    for criterion in criteria {
        if !is_built_in(&criterion.name) {
            print!(rt; "defined")?;
            print_criterion(rt, criterion)?;
        }
    }
    Ok(())
}
