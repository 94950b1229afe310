//! The report of last days.
ghost use Rattle.std.specs.Prelude.{◌≡◌, ◌∷◌, [], ◌++◌, IfErr, IfOk, OnOk, Some, false, string_bytes, true};
ghost use Rattle.std.specs.List.{flat_map};
ghost use Rattle.vet_base.specs.Names.{members};
ghost use Rattle.vet_reports.specs.ByExample as example;
ghost use Rattle.vet_reports.specs.Columns.{begun, left_in};
ghost use Rattle.vet_reports.specs.LapsesText.{exemption_line, lapse_line, lapse_word, lapses_text, line_for};

use crate::columns::{push_left, push_names, push_number, push_version};
use std::alloc::{AllocError, Global};
use vet_base::day::Day;
use vet_base::refusal::Refusal;
use vet_base::version::VetVersion;
use vet_entries::facts::{EntryFacts, HeldEntry};
use vet_entries::kind::Kind;
use vet_graph::keeper::Keeper;
use vet_register::register::Register;

/// The report of last days: a line for each own exemption that has one, by number. A line has the number, aligned right
/// in 8 characters, the last day, the package, aligned left in 24, the version, aligned left in 20, `held` or `lapsed`,
/// aligned left in 6, and the criteria that the exemption names, with commas between them. An exemption has lapsed if
/// the register's day is after its last day. Costs a look at each own entry. Refused: `NoMemory`.
pub fn lapses_text<K: Keeper>(alloc: Global, register: &Register<K>) -> Result<String, Refusal>
    ensures text { IfOk result (λ text. string_bytes text ≡ lapses_text register.now.state) }
    ensures memory { IfErr result (λ e. e ≡ Refusal.NoMemory) }
{
    let mut text = String::new(alloc);
    push_lapses(alloc, &mut text, register.facts())?;
    Ok(text)
}

// Adds the lines of the own exemptions that have a last day, by the day of these facts.
fn push_lapses(alloc: Global, text: &mut String, facts: &EntryFacts) -> Result<(), AllocError>
    ensures { OnOk result (string_bytes text.new ≡ string_bytes text.old
        ++ flat_map (lapse_line facts.now.content.today) facts.now.content.entries) }
{
    'entries: for held in facts.entries() {
        push_lapse(alloc, text, facts.today(), held)?;
    }
    Ok(())
}

// Adds the line of an entry, if it is an exemption with a last day.
fn push_lapse(
    alloc: Global,
    text: &mut String,
    today: Option<Day>,
    held: &HeldEntry,
) -> Result<(), AllocError>
    ensures { OnOk result (string_bytes text.new ≡ string_bytes text.old ++ lapse_line today held.now) }
{
    let lapsed = held.entry.kind.has_lapsed(today);
    match &held.entry.kind {
        Kind::Exemption {
            version,
            suggest: _,
            last_day,
        } => push_exemption(alloc, text, lapsed, held, version, *last_day),
        _ => Ok(()),
    }
}

// Adds the line of an exemption of a version, if it has a last day.
fn push_exemption(
    alloc: Global,
    text: &mut String,
    lapsed: bool,
    held: &HeldEntry,
    version: &VetVersion,
    last: Option<Day>,
) -> Result<(), AllocError>
    ensures { OnOk result (string_bytes text.new
        ≡ string_bytes text.old ++ exemption_line lapsed held.now version.now last) }
{
    match last {
        None => Ok(()),
        Some(last) => push_line(alloc, text, lapsed, held, version, last),
    }
}

// Adds the line of an exemption of a version with this last day.
fn push_line(
    alloc: Global,
    text: &mut String,
    lapsed: bool,
    held: &HeldEntry,
    version: &VetVersion,
    last: Day,
) -> Result<(), AllocError>
    ensures { OnOk result (string_bytes text.new ≡ string_bytes text.old
        ++ line_for lapsed (members held.now.entry.criteria) held.now version.now last) }
{
    push_number(text, 8, held.number)?;
    write!(text, " {last} ")?;
    push_version(alloc, text, &held.entry.package, version)?;
    push_word(text, lapsed)?;
    push_names(text, held.entry.criteria.as_slice())?;
    text.push('\n')
}

// Adds the word for whether the exemption has lapsed, and a space after it.
fn push_word(text: &mut String, lapsed: bool) -> Result<(), AllocError>
    ensures { OnOk result (string_bytes text.new
        ≡ string_bytes text.old ++ begun (left_in 6 (lapse_word lapsed) ∷ [])) }
{
    push_left(text, 6, lapse_word(lapsed))?;
    text.push(' ')
}

fn lapse_word(lapsed: bool) -> &'static str
    ensures { result.now ≡ lapse_word lapsed }
{
    if lapsed { "lapsed" } else { "held" }
}

/// Examples of lines: of an exemption before and after it has lapsed, for one criterion and for two. An exemption
/// without a last day has no line. Does nothing.
pub fn lapses_by_example()
    ensures held { line_for false example.both_built_in example.exemption example.version example.last_of_may
        ≡ example.held_line }
    ensures lapsed { line_for true example.deploy_alone example.exemption example.version example.last_of_may
        ≡ example.lapsed_line }
    ensures without_last_day { lapse_line (Some example.last_of_may) example.exemption ≡ [] }
{}
