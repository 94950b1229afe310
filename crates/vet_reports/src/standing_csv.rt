//! The standing as CSV.
ghost use Rattle.std.specs.Prelude.{◌≡◌, ◌<◌, ◌∷◌, [], ◌++◌, true, IfErr, IfOk, OnOk, map, string_bytes};
ghost use Rattle.std.specs.Char.{is_ascii_graphic};
ghost use Rattle.std.specs.List.{flat_map, list_all};
ghost use Rattle.csv.specs.Writing.{default_writer, escaped, field_text, needs_byte, needs_quotes, quoted};
ghost use Rattle.vet_reports.specs.ByExample as example;
ghost use Rattle.vet_reports.specs.StandingCsv.{record_line, stand_record, standing_csv, stands_csv};

use std::alloc::{AllocError, Global};
use vet_base::refusal::Refusal;
use vet_base::version::version_text_reads_back;
use vet_demand::pair::Pair;
use vet_graph::class::Class;
use vet_graph::keeper::Keeper;
use vet_graph::standing::Stand;
use vet_register::register::Register;

/// The standing as CSV (RFC 4180): a header, then a record for each demanded pair in order: package, version, criterion
/// and class. Lines end with a line feed. A field with a comma or a quote, which only a criterion's name can have, is
/// written between quotes, with each quote in it doubled. Costs one walk over the demanded pairs. Refused: `NoMemory`.
pub fn standing_csv<K: Keeper>(alloc: Global, register: &Register<K>) -> Result<String, Refusal>
    ensures text { IfOk result (λ text. string_bytes text ≡ standing_csv register.now.state) }
    ensures memory { IfErr result (λ e. e ≡ Refusal.NoMemory) }
{
    let stands = register.stands(alloc)?;
    let mut text = String::new(alloc);
    push_record(&mut text, "package", "version", "criterion", "class")?;
    push_stands(alloc, &mut text, stands.as_slice())?;
    Ok(text)
}

// Adds the records of the demanded pairs.
fn push_stands(alloc: Global, text: &mut String, stands: &[&Stand]) -> Result<(), AllocError>
    ensures { OnOk result (string_bytes text.new
        ≡ string_bytes text.old ++ flat_map stand_record (map (λ s. s.now) stands.now)) }
{
    'stands: for stand in stands {
        push_stand(alloc, text, &stand.pair, stand.class)?;
    }
    Ok(())
}

// Adds the record of a pair.
fn push_stand(alloc: Global, text: &mut String, pair: &Pair, class: Class) -> Result<(), AllocError>
    ensures { OnOk result (string_bytes text.new
        ≡ string_bytes text.old ++ stand_record (record { pair = pair.now; class = class })) }
{
    version_text_reads_back(&pair.version);
    let version = pair.version.to_string(alloc)?;
    let package = pair.package.as_str();
    push_record(
        text,
        package,
        version.as_str(),
        pair.criterion.as_str(),
        class.word(),
    )
}

// Adds a record of four fields of visible characters.
fn push_record(
    text: &mut String,
    first: &str,
    second: &str,
    third: &str,
    fourth: &str,
) -> Result<(), AllocError>
    requires first { list_all is_ascii_graphic first.now ≡ true }
    requires second { list_all is_ascii_graphic second.now ≡ true }
    requires third { list_all is_ascii_graphic third.now ≡ true }
    requires fourth { list_all is_ascii_graphic fourth.now ≡ true }
    ensures { OnOk result (string_bytes text.new
        ≡ string_bytes text.old ++ record_line (first.now ∷ second.now ∷ third.now ∷ fourth.now ∷ [])) }
{
    push_field(text, first, ",")?;
    push_field(text, second, ",")?;
    push_field(text, third, ",")?;
    push_field(text, fourth, "\n")
}

// Adds a field, between quotes if it has a comma or a quote, and the text that ends it.
fn push_field(text: &mut String, field: &str, end: &str) -> Result<(), AllocError>
    requires { list_all is_ascii_graphic field.now ≡ true }
    ensures { OnOk result (string_bytes text.new
        ≡ string_bytes text.old ++ (field_text default_writer field.now ++ end.now)) }
{
    if needs_quotes(field.as_bytes()) {
        push_quoted(text, field)?;
    } else {
        text.push_str(field)?;
    }
    text.push_str(end)
}

// Adds a field between quotes.
fn push_quoted(text: &mut String, field: &str) -> Result<(), AllocError>
    requires { list_all is_ascii_graphic field.now ≡ true }
    ensures { OnOk result (string_bytes text.new ≡ string_bytes text.old ++ quoted default_writer field.now) }
{
    text.push('"')?;
    push_escaped(text, field.as_bytes())?;
    text.push('"')
}

// Adds the text between the quotes, with each quote in it doubled.
fn push_escaped(text: &mut String, field: &[u8]) -> Result<(), AllocError>
    requires { list_all is_ascii_graphic field.now ≡ true }
    ensures { OnOk result (string_bytes text.new ≡ string_bytes text.old ++ escaped default_writer field.now) }
{
    'field: for byte in field {
        push_escaped_byte(text, *byte)?;
    }
    Ok(())
}

#[tactic(auto, unfolding(csv::specs::Writing::escaped))]
fn push_escaped_byte(text: &mut String, byte: u8) -> Result<(), AllocError>
    requires { byte < 128 }
    ensures { OnOk result (string_bytes text.new ≡ string_bytes text.old ++ escaped default_writer (byte ∷ [])) }
{
    if byte == b'"' {
        return text.push_str("\"\"");
    }
    text.push(char::from(byte))
}

// Whether a field needs quotes.
fn needs_quotes(field: &[u8]) -> bool
    ensures { result ≡ needs_quotes default_writer field.now }
{
    field.iter().any(|byte| needs_quote(*byte))
}

fn needs_quote(byte: u8) -> bool
    ensures { result ≡ needs_byte default_writer byte }
{
    byte == b',' || byte == b'"' || byte == b'\n' || byte == b'\r'
}

/// The standing as CSV by example, and with a criterion whose name has a comma and quotes. Does nothing.
pub fn csv_by_example()
    ensures plain { stands_csv example.standing ≡ example.csv_report }
    ensures quoted { stands_csv example.standing_with_comma ≡ example.csv_with_comma }
{}
