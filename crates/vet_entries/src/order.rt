//! The order of entries by what they say, by which an entry is found among many with a search.
//!
//! The search uses an order, not a hash. The kit's hash tables have a seed that everybody knows, so the author of a
//! file could make entries that all have the same hash.
ghost use Rattle.std.specs.Prelude.{◌≡◌};
ghost use Rattle.vet_entries.specs.EntryOrder.{audit_cmp, delta_cmp, flag_cmp, grant_cmp, grants_cmp, kind_cmp};
ghost use Rattle.vet_entries.specs.EntryOrder.{kind_rank, last_day_cmp, names_cmp, said_cmp, source_cmp, window_cmp};

use crate::entry::{Entry, Source};
use crate::kind::{Audit, Grant, Kind, Window};
use crate::publisher::{day_cmp, text_cmp};
use std::cmp::Ordering;
use vet_base::day::Day;
use vet_base::delta::Delta;
use vet_base::names::Names;
use vet_base::texts::Texts;

// Compares two sources: one's own comes before a peer, and peers are ordered by name.
pub(crate) fn source_cmp(a: &Source, b: &Source) -> Ordering
    ensures { result ≡ source_cmp a.now b.now }
{
    match (a, b) {
        (Source::Own, Source::Own) => Ordering::Equal,
        (Source::Own, Source::Peer(_)) => Ordering::Less,
        (Source::Peer(_), Source::Own) => Ordering::Greater,
        (Source::Peer(a), Source::Peer(b)) => a.cmp(b),
    }
}

// Compares two entries by what they say, whatever their sources.
pub(crate) fn said_cmp(a: &Entry, b: &Entry) -> Ordering
    ensures { result ≡ said_cmp a.now b.now }
{
    a.package
        .cmp(&b.package)
        .then_with(|| kind_cmp(&a.kind, &b.kind))
        .then_with(|| names_cmp(&a.criteria, &b.criteria))
        .then_with(|| text_cmp(&a.notes, &b.notes))
}

fn kind_cmp(a: &Kind, b: &Kind) -> Ordering
    ensures { result ≡ kind_cmp a.now b.now }
{
    match (a, b) {
        (Kind::Full(v, a), Kind::Full(w, b)) => v.cmp(w).then_with(|| audit_cmp(a, b)),
        (Kind::Delta(c, a), Kind::Delta(d, b)) => delta_cmp(c, d).then_with(|| audit_cmp(a, b)),
        (Kind::Violation(q, a), Kind::Violation(r, b)) => q.cmp(r).then_with(|| audit_cmp(a, b)),
        _ => grants_cmp(a, b),
    }
}

// Compares two kinds that are not audits of the same kind.
fn grants_cmp(a: &Kind, b: &Kind) -> Ordering
    ensures { result ≡ grants_cmp a.now b.now }
{
    match (a, b) {
        (Kind::Wildcard(v, a), Kind::Wildcard(w, b)) => window_cmp(v, w).then(grant_cmp(a, b)),
        (Kind::Trusted(v), Kind::Trusted(w)) => window_cmp(v, w),
        (
            Kind::Exemption {
                version: v,
                suggest: a,
                last_day: l,
            },
            Kind::Exemption {
                version: w,
                suggest: b,
                last_day: m,
            },
        ) => v.cmp(w).then(flag_cmp(*a, *b)).then(last_day_cmp(*l, *m)),
        _ => rank(a).cmp(&rank(b)),
    }
}

// The place of a kind among the kinds.
fn rank(kind: &Kind) -> u8
    ensures { result ≡ kind_rank kind.now }
{
    match kind {
        Kind::Full(_, _) => 0,
        Kind::Delta(_, _) => 1,
        Kind::Violation(_, _) => 2,
        Kind::Wildcard(_, _) => 3,
        Kind::Trusted(_) => 4,
        Kind::Exemption {
            version: _,
            suggest: _,
            last_day: _,
        } => 5,
    }
}

fn audit_cmp(a: &Audit, b: &Audit) -> Ordering
    ensures { result ≡ audit_cmp a.now b.now }
{
    texts_cmp(&a.who, &b.who).then(flag_cmp(a.importable, b.importable))
}

fn grant_cmp(a: &Grant, b: &Grant) -> Ordering
    ensures { result ≡ grant_cmp a.now b.now }
{
    texts_cmp(&a.who, &b.who).then(flag_cmp(a.renew, b.renew))
}

fn window_cmp(a: &Window, b: &Window) -> Ordering
    ensures { result ≡ window_cmp a.now b.now }
{
    a.user
        .cmp(&b.user)
        .then(day_cmp(a.first, b.first))
        .then(day_cmp(a.last, b.last))
}

fn delta_cmp(a: &Delta, b: &Delta) -> Ordering
    ensures { result ≡ delta_cmp a.now b.now }
{
    a.from.cmp(&b.from).then_with(|| a.to.cmp(&b.to))
}

// Compares two sets of names by their members in order.
fn names_cmp(a: &Names, b: &Names) -> Ordering
    ensures { result ≡ names_cmp a.now b.now }
{
    a.as_slice().cmp(b.as_slice())
}

fn texts_cmp(a: &Texts, b: &Texts) -> Ordering
    ensures { result ≡ names_cmp a.now b.now }
{
    a.as_slice().cmp(b.as_slice())
}

// Compares two last days: an absent one comes first, and days are in their order.
fn last_day_cmp(a: Option<Day>, b: Option<Day>) -> Ordering
    ensures { result ≡ last_day_cmp a b }
{
    match (a, b) {
        (None, None) => Ordering::Equal,
        (None, Some(_)) => Ordering::Less,
        (Some(_), None) => Ordering::Greater,
        (Some(a), Some(b)) => day_cmp(a, b),
    }
}

// Compares two flags: an absent one comes first, then no, then yes.
fn flag_cmp(a: Option<bool>, b: Option<bool>) -> Ordering
    ensures { result ≡ flag_cmp a b }
{
    a.cmp(&b)
}
