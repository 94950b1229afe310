//! Records of a dependency table: what each states by itself.
ghost use Rattle.std.specs.Prelude.{◌≡◌, IfOk, refl, true};
ghost use Rattle.std.specs.Cmp.{eq_by_cmp_equiv, partial_equiv_from_equiv, partial_order_from_total};
ghost use Rattle.std.specs.Ordering.{as_partial_cmp};
ghost use Rattle.std.specs.Char.{is_ascii_digit};
ghost use Rattle.std.specs.List.{list_all};
ghost use Rattle.std.specs.Str.Parse.{digits_value};
ghost use Rattle.csv.specs.Records.{fields_of};
ghost use Rattle.vet_demand.specs.DependencyRecord.{edge_record, edge_stated, field, has_five, is_header, is_number};
ghost use Rattle.vet_demand.specs.DependencyRecord.{is_word, node_record, node_stated, numbered_cmp, numbered_eq};
ghost use Rattle.vet_demand.specs.DependencyRecord.{read_kind, read_number, read_party, read_version_field};
ghost use Rattle.vet_demand.specs.DependencyRecord.{record_stated};
ghost use Rattle.vet_demand.specs.DependencyRecordLaws.{numbered_total};
ghost use Rattle.vet_base.specs.Name.{read_package_name};

use crate::project::{Edge, EdgeKind, Node, Party};
use csv::ByteRecord;
use std::alloc::{AllocError, Global};
use std::cmp::Ordering;
use vet_base::name::PackageName;
use vet_base::version::VetVersion;

// The number of fields of a record.
const FIELDS: usize = 5;

// The most digits of a number.
const MOST_DIGITS: usize = 9;

/// A node, and the number by which the edges of its table name it. Two are equal if their names and versions are.
#[derive(Drop)]
pub(crate) struct NumberedNode {
    pub number: usize,
    pub node: Node,
}

/// An edge between numbers of nodes, and the number of the record that states it.
#[derive(Clone, Copy)]
pub(crate) struct StatedEdge {
    pub record_number: u64,
    pub edge: Edge,
}

/// A node or an edge, as a record states it.
#[derive(Drop)]
pub(crate) enum DependencyRecord {
    NodeRecord(NumberedNode),
    EdgeRecord(StatedEdge),
}

impl DependencyRecord {
    /// Reads the node or the edge that the record of this number states. `None` if it has the form of neither.
    pub(crate) fn read(
        alloc: Global,
        number: u64,
        row: &ByteRecord,
    ) -> Result<Option<DependencyRecord>, AllocError>
        ensures { IfOk result (λ found. found ≡ record_stated number (fields_of row.now)) }
    {
        if row.len() != FIELDS {
            return Ok(None);
        }
        if is_word(row, 0, "node") {
            return node_record(alloc, row);
        }
        if is_word(row, 0, "edge") {
            return Ok(edge_record(number, row));
        }
        Ok(None)
    }
}

/// Whether a record is the header.
pub(crate) fn is_header(row: &ByteRecord) -> bool
    ensures { result ≡ is_header (fields_of row.now) }
{
    row.len() == FIELDS
        && is_word(row, 0, "what")
        && is_word(row, 1, "n")
        && is_word(row, 2, "p")
        && is_word(row, 3, "q")
        && is_word(row, 4, "r")
}

// The field at a place, which is empty if there is none.
fn field(row: &ByteRecord, place: usize) -> &[u8]
    ensures { result.now ≡ field (fields_of row.now) place }
{
    match row.get(place) {
        Some(field) => field,
        None => &[],
    }
}

fn is_word(row: &ByteRecord, place: usize, word: &str) -> bool
    ensures { result ≡ is_word (fields_of row.now) place word.now }
{
    field(row, place) == word.as_bytes()
}

fn node_record(alloc: Global, row: &ByteRecord) -> Result<Option<DependencyRecord>, AllocError>
    ensures { IfOk result (λ found. found ≡ node_record (fields_of row.now)) }
{
    let Some(number) = read_number(field(row, 1)) else {
        return Ok(None);
    };
    let Some(node) = node_stated(alloc, row)? else {
        return Ok(None);
    };
    Ok(Some(DependencyRecord::NodeRecord(NumberedNode { number, node })))
}

fn node_stated(alloc: Global, row: &ByteRecord) -> Result<Option<Node>, AllocError>
    ensures { IfOk result (λ found. found ≡ node_stated (fields_of row.now)) }
{
    let Some(package) = read_name(alloc, field(row, 2))? else {
        return Ok(None);
    };
    let Some(version) = read_version(alloc, field(row, 3))? else {
        return Ok(None);
    };
    let Some(party) = read_party(field(row, 4)) else {
        return Ok(None);
    };
    Ok(Some(Node {
        package,
        version,
        party,
    }))
}

fn edge_record(number: u64, row: &ByteRecord) -> Option<DependencyRecord>
    ensures { result ≡ edge_record number (fields_of row.now) }
{
    if !is_word(row, 4, "") {
        return None;
    }
    let edge = edge_stated(row)?;
    Some(DependencyRecord::EdgeRecord(StatedEdge {
        record_number: number,
        edge,
    }))
}

fn edge_stated(row: &ByteRecord) -> Option<Edge>
    ensures { result ≡ edge_stated (fields_of row.now) }
{
    let from = read_number(field(row, 1))?;
    let to = read_number(field(row, 2))?;
    let kind = read_kind(field(row, 3))?;
    Some(Edge { from, to, kind })
}

fn read_name(alloc: Global, bytes: &[u8]) -> Result<Option<PackageName>, AllocError>
    ensures { IfOk result (λ found. found ≡ read_package_name bytes.now) }
{
    match str::from_utf8(bytes) {
        Ok(text) => PackageName::read(alloc, text),
        Err(_) => Ok(None),
    }
}

fn read_version(alloc: Global, bytes: &[u8]) -> Result<Option<VetVersion>, AllocError>
    ensures { IfOk result (λ found. found ≡ read_version_field bytes.now) }
{
    match str::from_utf8(bytes) {
        Ok(text) => VetVersion::read(alloc, text),
        Err(_) => Ok(None),
    }
}

fn read_party(word: &[u8]) -> Option<Party>
    ensures { result ≡ read_party word.now }
{
    if word == "root".as_bytes() {
        Some(Party::Root)
    } else if word == "first".as_bytes() {
        Some(Party::First)
    } else if word == "third".as_bytes() {
        Some(Party::Third)
    } else {
        None
    }
}

fn read_kind(word: &[u8]) -> Option<EdgeKind>
    ensures { result ≡ read_kind word.now }
{
    if word == "normal".as_bytes() {
        Some(EdgeKind::Normal)
    } else if word == "build".as_bytes() {
        Some(EdgeKind::Build)
    } else if word == "dev".as_bytes() {
        Some(EdgeKind::Dev)
    } else {
        None
    }
}

fn read_number(text: &[u8]) -> Option<usize>
    ensures { result ≡ read_number text.now }
{
    if is_number(text) {
        Some(number_value(text))
    } else {
        None
    }
}

fn is_number(text: &[u8]) -> bool
    ensures { result ≡ is_number text.now }
{
    1 <= text.len() && text.len() <= MOST_DIGITS && are_digits(text)
}

fn are_digits(text: &[u8]) -> bool
    ensures { result ≡ list_all is_ascii_digit text.now }
{
    text.iter().all(|byte| byte.is_ascii_digit())
}

fn number_value(digits: &[u8]) -> usize
    requires { is_number digits.now ≡ true }
    ensures { result ≡ digits_value 10 digits.now }
{
    let mut value = 0;
    'digits: for place in 0..digits.len() {
        value = value * 10 + usize::from(digits[place] - b'0');
    }
    value
}

impl PartialEq for NumberedNode {
    ghost eq = { numbered_eq };

    ghost laws = { partial_equiv_from_equiv (eq_by_cmp_equiv numbered_total) };

    fn eq(&self, other: &NumberedNode) -> bool {
        self.cmp(other).is_eq()
    }
}

impl Eq for NumberedNode {
    ghost laws = { eq_by_cmp_equiv numbered_total };
}

impl PartialOrd for NumberedNode {
    ghost partial_cmp = { as_partial_cmp numbered_cmp };

    ghost laws = { partial_order_from_total numbered_total };

    fn partial_cmp(&self, other: &NumberedNode) -> Option<Ordering> {
        Some(self.cmp(other))
    }
}

impl Ord for NumberedNode {
    ghost cmp = { numbered_cmp };

    ghost total = { numbered_total };

    ghost matches_partial_cmp = { λ a b. refl };

    ghost matches_eq = { λ a b. refl };

    fn cmp(&self, other: &NumberedNode) -> Ordering {
        self.node.cmp_place(&other.node)
    }
}
